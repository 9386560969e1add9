//! One multiplier for each good, in 4096ths.
ghost use Rattle.std.specs.Prelude.{◌≡◌, ◌<◌, ◌≤◌, length, replicate, slice_set, pos};
ghost use Rattle.ice_defs.specs.Derived.{toll_of};
ghost use Rattle.ice_derived.specs.Ranges.{IsToll, AreInRange};

use arrayvec::ArrayVec;
use std::marker::Model;

/// One multiplier for each good, at most 32 of them, each at most 2^62 in size and counted in
/// 4096ths. They take no memory.
#[derive(Drop)]
pub struct Rates {
    numbers: ArrayVec<i64, 32>,
}

impl Model for Rates {
    ghost use Rattle.std.specs.Prelude.{List, ℤ};
    ghost use Rattle.ice_derived.specs.Ranges.{AreInRange};

    ghost Value = { List ℤ };

    ghost view = { λ r. r.numbers.items };

    ghost invariant = { λ r. AreInRange r.numbers.items };
}

impl Rates {
    /// A multiplier of 0 for each of so many goods, at most 32.
    pub fn zero(goods: u8) -> Rates
        requires { goods ≤ 32 }
        ensures { result ≡ replicate goods (pos 0) }
    {
        let mut numbers = ArrayVec::new();
        for _good in 0..goods {
            numbers.push(0);
        }
        Rates { numbers }
    }

    /// The number of goods.
    pub fn len(&self) -> u8
        ensures value { result ≡ length self.now }
        ensures fits { result ≤ 32 }
    {
        self.numbers.len() as u8
    }

    /// The multiplier of the good.
    pub fn get(&self, good: u8) -> i64
        requires { good < length self.now }
        ensures value { result ≡ toll_of self.now good }
        ensures range { IsToll result }
    {
        self.numbers[good as usize]
    }

    /// Gives the good another multiplier.
    pub fn put(&mut self, good: u8, number: i64)
        requires good { good < length self.old }
        requires range { IsToll number }
        ensures { self.new ≡ slice_set self.old good number }
    {
        self.numbers[good as usize] = number;
    }

    /// The multipliers, one for each good.
    pub(crate) fn as_slice(&self) -> &[i64]
        ensures value { result.now ≡ self.now }
        ensures range { AreInRange result.now }
    {
        self.numbers.as_slice()
    }
}
