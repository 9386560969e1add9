//! Which goods are exact.
ghost use Rattle.std.specs.Prelude.{◌≡◌, ◌<◌, ◌≤◌, length};
ghost use Rattle.ice_defs.specs.Trade.{is_exact};

use arrayvec::ArrayVec;
use std::marker::Model;

/// One truth value for each good, at most 32 of them: whether it is exact.
#[derive(Drop)]
pub(crate) struct ExactGoods {
    flags: ArrayVec<bool, 32>,
}

impl Model for ExactGoods {
    ghost use Rattle.std.specs.Prelude.{List, Bool};

    ghost Value = { List Bool };

    ghost view = { λ e. e.flags.items };
}

impl ExactGoods {
    /// Those of these flags.
    pub(crate) fn new(exact: &[bool]) -> ExactGoods
        requires { length exact.now ≤ 32 }
        ensures { result ≡ exact.now }
    {
        let mut flags = ArrayVec::new();
        for flag in exact {
            flags.push(*flag);
        }
        ExactGoods { flags }
    }

    /// The number of goods.
    pub(crate) fn len(&self) -> u8
        ensures value { result ≡ length self.now }
        ensures fits { result ≤ 32 }
    {
        self.flags.len() as u8
    }

    /// Whether the good is exact.
    pub(crate) fn is_exact(&self, good: u8) -> bool
        requires { good < length self.now }
        ensures { result ≡ is_exact self.now good }
    {
        self.flags[good as usize]
    }
}
