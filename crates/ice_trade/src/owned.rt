//! What a bidder owns.
ghost use Rattle.std.specs.Prelude.{◌≡◌, ◌≤◌, ◌<◌, length, slice_index};

use arrayvec::ArrayVec;
use std::marker::Model;

/// One owned amount per good.
#[derive(Drop)]
pub(crate) struct Owned {
    amounts: ArrayVec<u32, 32>,
}

impl Model for Owned {
    ghost use Rattle.std.specs.Prelude.{List, ℕ};

    ghost Value = { List ℕ };

    ghost view = { λ a. a.amounts.items };
}

impl Owned {
    /// These amounts, of at most 32 goods.
    pub(crate) fn new(amounts: &[u32]) -> Owned
        requires { length amounts.now ≤ 32 }
        ensures { result ≡ amounts.now }
    {
        let mut own = ArrayVec::new();
        own.try_extend_from_slice(amounts).unwrap();
        Owned { amounts: own }
    }

    /// The amount of a good.
    pub(crate) fn get(&self, good: u8) -> u32
        requires { good < length self.now }
        ensures { result ≡ slice_index self.now good }
    {
        self.amounts[good as usize]
    }
}
