//! Numbers that a generator draws from a seed.
ghost use Rattle.std.specs.Prelude.{◌≡◌, ◌<◌, length, All, IfOk};
ghost use Rattle.ice_lp.specs.Limits.{IsNumber};

use std::alloc::{AllocError, Global};

/// A linear congruential generator, of which the high bits are taken.
#[derive(Drop)]
pub(crate) struct Draws {
    state: u64,
}

impl Draws {
    /// The generator of a seed.
    pub(crate) fn new(seed: u64) -> Draws {
        Draws { state: seed }
    }

    /// One of the numbers below `count`.
    pub(crate) fn below(&mut self, count: u32) -> u32
        requires { 0 < count }
        ensures { result < count }
    {
        self.state = self
            .state
            .wrapping_mul(6364136223846793005)
            .wrapping_add(1442695040888963407);
        (self.state >> 33) as u32 % count
    }

    /// One of `count` whole numbers, of which `low` is the least.
    pub(crate) fn one_of(&mut self, low: i32, count: u32) -> i64
        requires { 0 < count }
    {
        i64::from(low) + i64::from(self.below(count))
    }

    /// So many numbers, each one of `count` from `low` on.
    pub(crate) fn list(
        &mut self,
        alloc: Global,
        numbers: usize,
        low: i32,
        count: u32,
    ) -> Result<Vec<i128>, AllocError>
        requires { 0 < count }
        ensures same_length { IfOk result (λ made. length made.items ≡ numbers) }
        ensures sized { IfOk result (λ made. All IsNumber made.items) }
    {
        let mut made = Vec::with_capacity(alloc, numbers)?;
        for _place in 0..numbers {
            made.push(number(self.one_of(low, count)))?;
        }
        Ok(made)
    }
}

/// The number as one of a program: what 64 bits hold is within 2^90 in size.
pub(crate) fn number(drawn: i64) -> i128
    ensures { IsNumber result }
{
    i128::from(drawn)
}
