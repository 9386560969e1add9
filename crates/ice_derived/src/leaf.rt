//! Whether a leaf with tolls passes.
ghost use Rattle.std.specs.Prelude.{◌≡◌, ◌≤◌, ◌↔◌, ◌++◌, length, IsTrue, OnOk, IfErr};
ghost use Rattle.ice_defs.specs.Derived.{with_derived};
ghost use Rattle.ice_defs.specs.Steps.{leaf};
ghost use Rattle.ice_defs.specs.Log.{HasWrongSign};
ghost use Rattle.ice_defs.specs.Conditions.{AreWeightsOf, AreFixingsOf};
ghost use Rattle.ice_refute.specs.Passing.{PassesAtBy, HasFaultBy};
ghost use Rattle.ice_refute.specs.Waiting.{nodes_of};
ghost use Rattle.ice_derived.specs.Weighing.{weights_in};
ghost use Rattle.ice_derived.specs.Signs.{HasWrongSigns};

use crate::bounds::{TollRoom, Weighing, bound_with};
use crate::goods::DerivedGoods;
use crate::rates::Rates;
use ice_best::Fixings;
use ice_bound::{Bound, Room};
use ice_refute::StepFault;
use ice_tree::Tree;

/// Whether a good that isn't exact has a negative multiplier.
fn has_wrong_rate(m: &Rates, room: &Room) -> bool
    requires { length m.now ≡ length room.now }
    ensures { IsTrue result ↔ HasWrongSign room.now m.now }
{
    for good in 0..m.len() {
        if !room.is_exact(good) && m.get(good) < 0 {
            return true;
        }
    }
    false
}

/// Whether a multiplier or a toll has a wrong sign.
fn has_wrong_signs(m: &Rates, derived: &DerivedGoods, room: &Room) -> bool
    requires { length m.now ≡ length room.now }
    ensures { IsTrue result ↔ HasWrongSigns room.now m.now derived.now.tolls }
{
    has_wrong_rate(m, room) || derived.has_negative_toll()
}

/// Whether a leaf with tolls passes at the side with these marks. `Sign` and `Above` are its
/// faults, in this order.
pub(crate) fn judge_leaf(
    trees: &[Tree],
    weights: &Weighing,
    derived: &DerivedGoods,
    target: i128,
    m: &Rates,
    marks: &Fixings,
    room: &Room,
    toll_room: &mut TollRoom,
) -> Result<(), StepFault>
    requires few { length trees.now ≤ 40 }
    requires weights { AreWeightsOf trees.now (weights_in weights.now) }
    requires derived { derived.now.nodes ≡ nodes_of trees.now }
    requires goods { length m.now ≡ length room.now }
    requires marks { AreFixingsOf trees.now marks.now }
    ensures ok { OnOk result (PassesAtBy (with_derived derived.now.goods) trees.now room.now
        (weights_in weights.now) target marks.now (leaf (m.now ++ derived.now.tolls))) }
    ensures fault { IfErr result (HasFaultBy (with_derived derived.now.goods) trees.now room.now
        (weights_in weights.now) target marks.now (leaf (m.now ++ derived.now.tolls))) }
{
    // there is one toll for each derived good
    let _count = derived.len();
    if has_wrong_signs(m, derived, room) {
        return Err(StepFault::Sign);
    }
    match bound_with(trees, weights, derived, m, marks, toll_room) {
        Bound::Dead(_) => Ok(()),
        Bound::AtMost(bound) => {
            if bound <= target {
                Ok(())
            } else {
                Err(StepFault::Above { bound })
            }
        }
    }
}
