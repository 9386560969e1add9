//! What the sets of all bidders buy and sell.
ghost use Rattle.std.specs.Prelude.{◌≡◌, ℕ, ◌<◌, ◌≤◌, ◌↔◌, length, slice_set, pos, neg_ℤ, ◌+ℤ◌, ◌≤ℤ◌, IsTrue};
ghost use Rattle.ice_defs.specs.Set.{weight_of};
ghost use Rattle.ice_defs.specs.Trade.{tree_of, set_of, IsCovered};
ghost use Rattle.ice_tree.specs.Units.{AreWithin, AreTotalUnits};

use crate::assignment::Assignment;
use crate::tree::Tree;
use crate::units::{Units, no_units};
use std::marker::Model;

/// The signed units of the sets of at most 40 bidders, one sum for each of 32 goods: bought units
/// are positive, and sold ones negative.
#[derive(Drop)]
pub struct TotalUnits {
    sums: [i64; 32],
}

impl Model for TotalUnits {
    ghost use Rattle.std.specs.Prelude.{List, ℤ};
    ghost use Rattle.ice_tree.specs.Units.{AreWithin};

    ghost Value = { List ℤ };

    ghost view = { λ u. u.sums };

    ghost invariant = { λ u. AreWithin 8000000 u.sums };
}

/// Adds units of a good to its sum.
fn add_to(sums: &mut [i64; 32], good: u8, units: i64)
    requires good { good < 32 }
    requires sum_low { neg_ℤ (pos 7800000) ≤ℤ weight_of sums.old good }
    requires sum_high { weight_of sums.old good ≤ℤ pos 7800000 }
    requires low { neg_ℤ (pos 200000) ≤ℤ units }
    requires high { units ≤ℤ pos 200000 }
    ensures { sums.new ≡ slice_set sums.old good (weight_of sums.old good +ℤ units) }
{
    sums[good as usize] += units;
}

/// Adds the units of one more set to the sums.
fn add_set(sums: &mut [i64; 32], units: &Units)
    requires { AreWithin 7800000 sums.old }
    ensures added { (g : ℕ) → g < 32
        → weight_of sums.new g ≡ weight_of sums.old g +ℤ weight_of units.now g }
    ensures small { AreWithin 200000 units.now }
{
    for good in 0..32u8 {
        add_to(sums, good, units.get(good));
    }
}

impl TotalUnits {
    /// The units of these sets, one for each of at most 40 trees. Each set has as many bits as its
    /// tree has nodes. It takes no memory.
    pub fn of(trees: &[Tree], sets: &Assignment) -> TotalUnits
        requires few { length trees.now ≤ 40 }
        requires count { length sets.now ≡ length trees.now }
        requires nodes { (b : ℕ) → b < length trees.now
            → length (set_of sets.now b) ≡ length (tree_of trees.now b) }
        ensures { AreTotalUnits trees.now sets.now result }
    {
        let mut sums = no_units();
        for (bidder, tree) in trees.iter().enumerate() {
            add_set(&mut sums, &tree.units(sets.of(bidder as u8)));
        }
        TotalUnits { sums }
    }

    /// The sum of one good, a number below 32.
    pub fn get(&self, good: u8) -> i64
        requires { good < 32 }
        ensures value { result ≡ weight_of self.now good }
        ensures low { neg_ℤ (pos 8000000) ≤ℤ result }
        ensures high { result ≤ℤ pos 8000000 }
    {
        self.sums[good as usize]
    }
}

/// Whether what is used of a good is covered by nothing: none is bought beyond what is sold, and of
/// an exact good just as much is bought as is sold.
pub fn is_covered(exact: bool, units: i64) -> bool
    ensures { IsTrue result ↔ IsCovered exact units (pos 0) }
{
    if exact { units == 0 } else { units <= 0 }
}
