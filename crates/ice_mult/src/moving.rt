//! A good whose multiplier moves while all else stays.
ghost use Rattle.std.specs.Prelude.{◌<◌, ◌≤◌, length};
ghost use Rattle.ice_defs.specs.Log.{HasDead};
ghost use Rattle.ice_defs.specs.Conditions.{AreWeightsOf, AreFixingsOf};

use ice_best::Fixings;
use ice_bound::Multipliers;
use ice_tree::{AllWeights, Tree};

/// One good whose multiplier moves, and what stays: at most 40 trees with their weights and
/// fixings, which each bidder has a set for, and the multipliers of the other goods.
#[derive(Drop)]
pub(crate) struct MovingGood<'a> {
    pub(crate) trees: &'a [Tree],
    pub(crate) weights: &'a AllWeights,
    pub(crate) fixings: &'a Fixings,
    pub(crate) m: &'a Multipliers,
    pub(crate) good: u8,
    ghost few: { length trees.now ≤ 40 },
    ghost weighted: { AreWeightsOf trees.now weights.now },
    ghost marked: { AreFixingsOf trees.now fixings.now },
    ghost live: { HasDead trees.now fixings.now → ⊥ },
    ghost there: { good < length m.now },
}
