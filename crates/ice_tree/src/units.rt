//! What a set buys and sells.
ghost use Rattle.std.specs.Prelude.{◌≡◌, ℕ, ◌<◌, ℤ, pos, neg_ℤ, ◌+ℤ◌, ◌≤ℤ◌};
ghost use Rattle.ice_defs.specs.Set.{weight_of, leaf_units};
ghost use Rattle.ice_defs.specs.Lawful.{IsLimitedKind};
ghost use Rattle.ice_tree.specs.Units.{AreWithin};

use ice_defs::NodeKind;
use std::marker::Model;

/// The signed units of a set, one sum for each of 32 goods: bought units are positive, and sold
/// ones negative.
#[derive(Drop)]
pub struct Units {
    sums: [i64; 32],
}

impl Model for Units {
    ghost use Rattle.std.specs.Prelude.{List, ℤ};
    ghost use Rattle.ice_tree.specs.Units.{AreWithin};

    ghost Value = { List ℤ };

    ghost view = { λ u. u.sums };

    ghost invariant = { λ u. AreWithin 200000 u.sums };
}

/// No unit of any good.
pub(crate) fn no_units() -> [i64; 32]
    ensures { (g : ℕ) → g < 32 → weight_of result g ≡ pos 0 }
{
    [0; 32]
}

/// Adds a node's units to the sums.
pub(crate) fn add_units(sums: &mut [i64; 32], kind: NodeKind)
    requires kind { IsLimitedKind 32 kind }
    requires small { AreWithin 199000 sums.old }
    ensures { (g : ℕ) → g < 32 → weight_of sums.new g ≡ weight_of sums.old g +ℤ leaf_units kind g }
{
    match kind {
        NodeKind::Choose { .. } => {}
        NodeKind::Buy { good, units } => sums[good as usize] += i64::from(units),
        NodeKind::Sell { good, units } => sums[good as usize] -= i64::from(units),
    }
}

impl Units {
    /// The units with these sums.
    pub(crate) fn of(sums: [i64; 32]) -> Units
        requires { AreWithin 200000 sums }
        ensures { result ≡ sums }
    {
        Units { sums }
    }

    /// The sum of one good, a number below 32.
    pub fn get(&self, good: u8) -> i64
        requires { good < 32 }
        ensures value { result ≡ weight_of self.now good }
        ensures low { neg_ℤ (pos 200000) ≤ℤ result }
        ensures high { result ≤ℤ pos 200000 }
    {
        self.sums[good as usize]
    }
}
