//! The numbers that are drawn.
ghost use Rattle.std.specs.Prelude.{◌≡◌, ◌<◌};
ghost use Rattle.ice_gen.specs.Generated.{advanced};
ghost use Rattle.ice_gen.specs.Drawing.{drawn};

use std::marker::Model;

/// A linear congruential generator of 64 bits, with the multiplier and the increment of Knuth's
/// MMIX (The Art of Computer Programming, volume 2, section 3.3.4). It is seen as its state.
#[derive(Drop)]
pub(crate) struct Generator {
    state: u64,
}

impl Model for Generator {
    ghost use Rattle.std.specs.Prelude.{ℕ};

    ghost Value = { ℕ };

    ghost view = { λ g. g.state };
}

const MULTIPLIER: u64 = 6_364_136_223_846_793_005;

const INCREMENT: u64 = 1_442_695_040_888_963_407;

#[tactic(auto, using(crate::proofs::Drawing::advancing))]
impl Generator {
    /// The draws that begin in this state.
    pub(crate) fn new(number: u32) -> Generator
        ensures { result ≡ number }
    {
        Generator {
            state: u64::from(number),
        }
    }

    /// The next number below this bound, from the upper 31 bits of the next state.
    pub(crate) fn draw(&mut self, bound: u8) -> u8
        requires { 0 < bound }
        ensures value { result ≡ drawn self.old bound }
        ensures small { result < bound }
        ensures state { self.new ≡ advanced self.old }
    {
        self.state = self.state.wrapping_mul(MULTIPLIER).wrapping_add(INCREMENT);
        ((self.state >> 33) % u64::from(bound)) as u8
    }
}
