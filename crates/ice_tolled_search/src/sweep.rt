//! The swept bound of a side, and whether a side is live.
ghost use Rattle.std.specs.Prelude.{◌≡◌, ◌≤◌, length, IsTrue, IfSome};
ghost use Rattle.ice_defs.specs.Bound.{IsBound};
ghost use Rattle.ice_defs.specs.Conditions.{AreWeightsOf, AreFixingsOf};
ghost use Rattle.ice_defs.specs.Log.{IsFreeNode};
ghost use Rattle.ice_defs.specs.Steps.{with_mark};
ghost use Rattle.ice_defs.specs.Sweep.{Sweeps, all_zero, IsLive};

use ice_best::{Fixings, Mark};
use ice_bound::{Bound, Desk, Multipliers, copy_fixings};
use ice_mult::improve;
use ice_relaxation::Candidate;
use ice_tree::{AllWeights, Tree};

/// Multipliers, and the bound at them.
#[derive(Drop)]
pub(crate) struct Swept {
    pub(crate) m: Multipliers,
    pub(crate) bound: i128,
}

/// What one sweep makes of zeros at the side, with the bound. None where it is dead.
pub(crate) fn sweep(
    trees: &[Tree],
    weights: &AllWeights,
    side: &Fixings,
    desk: &mut Desk,
) -> Option<Swept>
    requires few { length trees.now ≤ 40 }
    requires weights { AreWeightsOf trees.now weights.now }
    requires side { AreFixingsOf trees.now side.now }
    ensures sweeps { IfSome result (λ s. Sweeps trees.now desk.old.room weights.now side.now
        (all_zero trees.now desk.old.room weights.now) s.m) }
    ensures bound { IfSome result (λ s. IsBound trees.now weights.now s.m side.now s.bound) }
    ensures exact { desk.new.room ≡ desk.old.room }
    ensures marks { desk.new.marks ≡ desk.old.marks }
{
    let zeros = Multipliers::zero(desk.room.goods());
    let m = improve(trees, weights, side, &zeros, desk);
    match desk.room.bound(trees, weights, &m, side) {
        Bound::AtMost(bound) => Some(Swept { m, bound }),
        Bound::Dead(_) => None,
    }
}

/// Whether each bidder has a set where one more node of the side has this mark.
pub(crate) fn is_live_with(
    trees: &[Tree],
    weights: &AllWeights,
    side: &Fixings,
    node: Candidate,
    mark: Mark,
    desk: &mut Desk,
) -> bool
    requires few { length trees.now ≤ 40 }
    requires weights { AreWeightsOf trees.now weights.now }
    requires side { AreFixingsOf trees.now side.now }
    requires marks { AreFixingsOf trees.now desk.old.marks }
    requires free { IsFreeNode trees.now side.now node.bidder node.node }
    ensures live { IsTrue result
        → IsLive trees.now (with_mark side.now node.bidder node.node mark) }
    ensures exact { desk.new.room ≡ desk.old.room }
    ensures marks { AreFixingsOf trees.now desk.new.marks }
{
    copy_fixings(&mut desk.marks, side);
    desk.marks.mark(node.bidder, node.node, mark);
    let zeros = Multipliers::zero(desk.room.goods());
    match desk.room.bound(trees, weights, &zeros, &desk.marks) {
        Bound::AtMost(_) => true,
        Bound::Dead(_) => false,
    }
}
