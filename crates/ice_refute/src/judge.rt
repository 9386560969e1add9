//! Whether a step passes at its side.
ghost use Rattle.std.specs.Prelude.{◌≡◌, ◌≤◌, ◌↔◌, length, IsTrue, OnOk, IfErr};
ghost use Rattle.ice_defs.specs.Log.{HasWrongSign, IsFreeNode, IsDeadBidder};
ghost use Rattle.ice_defs.specs.Steps.{leaf};
ghost use Rattle.ice_defs.specs.Conditions.{AreWeightsOf, AreFixingsOf};
ghost use Rattle.ice_refute.specs.Code.{step_of, CountsGoods};
ghost use Rattle.ice_refute.specs.Passing.{PassesAt, HasFault};

use crate::fault::StepFault;
use crate::step::Step;
use ice_best::{Fixings, Mark};
use ice_bound::{Bound, Multipliers, Room};
use ice_tree::{AllWeights, Tree};

/// Whether the node is there and free.
fn is_free_node(trees: &[Tree], marks: &Fixings, bidder: u8, node: u16) -> bool
    requires { AreFixingsOf trees.now marks.now }
    ensures { IsTrue result ↔ IsFreeNode trees.now marks.now bidder node }
{
    (bidder as usize) < marks.len()
        && node < marks.of(bidder).len()
        && marks.of(bidder).get(node) == Mark::Free
}

/// Whether the bidder is there and no satisfied set of it meets its marks.
fn is_dead_bidder(
    trees: &[Tree],
    weights: &AllWeights,
    marks: &Fixings,
    bidder: u8,
    room: &mut Room,
) -> bool
    requires weights { AreWeightsOf trees.now weights.now }
    requires marks { AreFixingsOf trees.now marks.now }
    ensures dead { IsTrue result ↔ IsDeadBidder trees.now marks.now bidder }
    ensures exact { room.new ≡ room.old }
{
    if bidder as usize >= trees.len() {
        return false;
    }
    room.is_dead(
        &trees[bidder as usize],
        weights.of(bidder),
        marks.of(bidder),
    )
}

/// Whether a good that isn't exact has a negative multiplier.
fn has_wrong_sign(m: &Multipliers, room: &Room) -> bool
    requires { length m.now ≡ length room.now }
    ensures { IsTrue result ↔ HasWrongSign room.now m.now }
{
    for good in 0..m.len() {
        if !room.is_exact(good) && m.get(good) < 0 {
            return true;
        }
    }
    false
}

/// Whether a leaf passes. `Sign` and `Above` are its faults, in this order.
fn judge_leaf(
    trees: &[Tree],
    weights: &AllWeights,
    target: i128,
    m: &Multipliers,
    marks: &Fixings,
    room: &mut Room,
) -> Result<(), StepFault>
    requires few { length trees.now ≤ 40 }
    requires weights { AreWeightsOf trees.now weights.now }
    requires goods { length m.now ≡ length room.old }
    requires marks { AreFixingsOf trees.now marks.now }
    ensures ok { OnOk result
        (PassesAt trees.now room.old weights.now target marks.now (leaf m.now)) }
    ensures fault { IfErr result
        (HasFault trees.now room.old weights.now target marks.now (leaf m.now)) }
    ensures exact { room.new ≡ room.old }
{
    if has_wrong_sign(m, room) {
        return Err(StepFault::Sign);
    }
    match room.bound(trees, weights, m, marks) {
        Bound::Dead(_) => Ok(()),
        Bound::AtMost(bound) => {
            if bound <= target {
                Ok(())
            } else {
                Err(StepFault::Above { bound })
            }
        }
    }
}

/// Whether a step passes at the side with these marks.
pub(crate) fn judge(
    trees: &[Tree],
    weights: &AllWeights,
    target: i128,
    step: &Step,
    marks: &Fixings,
    room: &mut Room,
) -> Result<(), StepFault>
    requires few { length trees.now ≤ 40 }
    requires weights { AreWeightsOf trees.now weights.now }
    requires goods { CountsGoods (length room.old) (step_of step.now) }
    requires marks { AreFixingsOf trees.now marks.now }
    ensures ok { OnOk result (PassesAt trees.now room.old weights.now target marks.now
        (step_of step.now)) }
    ensures fault { IfErr result (HasFault trees.now room.old weights.now target marks.now
        (step_of step.now)) }
    ensures exact { room.new ≡ room.old }
{
    match step {
        Step::Branch { bidder, node } => {
            if is_free_node(trees, marks, *bidder, *node) {
                Ok(())
            } else {
                Err(StepFault::Fixed)
            }
        }
        Step::Leaf { m } => judge_leaf(trees, weights, target, m, marks, room),
        Step::Dead { bidder } => {
            if is_dead_bidder(trees, weights, marks, *bidder, room) {
                Ok(())
            } else {
                Err(StepFault::NotDead)
            }
        }
    }
}
