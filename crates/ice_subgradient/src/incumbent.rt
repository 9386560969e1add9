//! The best assignment that is known, with its value.
ghost use Rattle.std.specs.Prelude.{◌≡◌, ◌↔◌, length, IsTrue};
ghost use Rattle.ice_defs.specs.Sweep.{IsLive};
ghost use Rattle.ice_defs.specs.Trade.{total_value};
ghost use Rattle.ice_tree.specs.Units.{AreTotalUnits};
ghost use Rattle.ice_subgradient.specs.Offers.{AreCovered, AreBetter, IsOffered};

use ice_bound::Kept;
use ice_tree::{Assignment, TotalUnits, is_covered};

/// A feasible assignment, one set for each bidder, and what it is worth.
#[derive(Drop)]
pub struct Incumbent {
    /// One satisfied set for each bidder.
    pub sets: Assignment,
    /// What they are worth at the search's weights.
    pub value: i128,
}

/// Whether the units of the relaxed sets are covered in each good.
fn are_covered(kept: &Kept<'_>, units: &TotalUnits) -> bool
    requires { AreTotalUnits kept.now.trees kept.now.sets units.now }
    ensures { IsTrue result ↔ AreCovered kept.now }
{
    for good in 0..kept.multipliers().len() {
        if !is_covered(kept.is_exact(good), units.get(good)) {
            return false;
        }
    }
    true
}

impl Incumbent {
    /// Takes over the relaxed sets where they are feasible and worth more than the value. Takes no
    /// memory.
    pub fn offer(&mut self, kept: &Kept<'_>)
        requires live { IsLive kept.now.trees kept.now.marks }
        requires sets { length self.old.sets ≡ length kept.now.trees }
        ensures taken { AreBetter kept.now self.old.value → self.new ≡ record {
          sets = kept.now.sets;
          value = total_value kept.now.sets kept.now.weights;
        } }
        ensures left { ¬ AreBetter kept.now self.old.value → self.new ≡ self.old }
        ensures offered { IsOffered kept.now.trees kept.now.exact kept.now.weights
            kept.now.marks self.old self.new }
        ensures sets { length self.new.sets ≡ length kept.now.trees }
    {
        self.offer_units(kept, &kept.units());
    }

    /// `offer`, where the units of the relaxed sets are known.
    pub(crate) fn offer_units(&mut self, kept: &Kept<'_>, units: &TotalUnits)
        requires live { IsLive kept.now.trees kept.now.marks }
        requires sets { length self.old.sets ≡ length kept.now.trees }
        requires units { AreTotalUnits kept.now.trees kept.now.sets units.now }
        ensures taken { AreBetter kept.now self.old.value → self.new ≡ record {
          sets = kept.now.sets;
          value = total_value kept.now.sets kept.now.weights;
        } }
        ensures left { ¬ AreBetter kept.now self.old.value → self.new ≡ self.old }
        ensures offered { IsOffered kept.now.trees kept.now.exact kept.now.weights
            kept.now.marks self.old self.new }
        ensures sets { length self.new.sets ≡ length kept.now.trees }
    {
        if !are_covered(kept, units) {
            return;
        }
        let value = kept.sets_value();
        if value <= self.value {
            return;
        }
        self.sets.copy_from(kept.sets());
        self.value = value;
    }
}
