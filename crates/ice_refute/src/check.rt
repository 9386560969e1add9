//! Whether a log passes.
ghost use Rattle.std.specs.Prelude.{◌≡◌, ◌≤◌, ◌↔◌, length, sum, true, IsOk, IfOk, OnOk, IfErr};
ghost use Rattle.std.specs.List.{AllByRecursion};
ghost use Rattle.ice_defs.specs.Derived.{goods_alone};
ghost use Rattle.ice_defs.specs.Log.{Passes};
ghost use Rattle.ice_defs.specs.Conditions.{AreWeightsOf};
ghost use Rattle.ice_refute.specs.Code.{CountsGoods};
ghost use Rattle.ice_refute.specs.Faults.{IsLogFault};
ghost use Rattle.ice_refute.specs.Waiting.{nodes_of, open_sides, AreKept};
ghost use Rattle.ice_refute.specs.Passing.{PassesAt, HasFault};
ghost use Rattle.ice_refute.specs.Code.{step_of};
ghost use Rattle.ice_defs.specs.Steps.{sides_after};

use crate::fault::{LogFault, StepFault};
use crate::judge::judge;
use crate::sides::advance;
use crate::step::{Log, Step};
use ice_best::Fixings;
use ice_bound::{Desk, copy_fixings};
use ice_tree::{AllWeights, Tree};

/// Takes a step at the first open side, which the desk holds. Whether a side is open behind it.
fn take_step(
    trees: &[Tree],
    weights: &AllWeights,
    target: i128,
    step: &Step,
    desk: &mut Desk,
) -> Result<bool, StepFault>
    requires few { length trees.now ≤ 40 }
    requires weights { AreWeightsOf trees.now weights.now }
    requires goods { CountsGoods (length desk.old.room) (step_of step.now) }
    requires nodes { nodes_of desk.old.marks ≡ nodes_of trees.now }
    requires kept { AreKept desk.old.marks desk.old.sides.items }
    // What comes of it
    ensures passes { OnOk result (PassesAt trees.now desk.old.room weights.now target desk.old.marks
        (step_of step.now)) }
    ensures sides { IfOk result (λ is_open. open_sides is_open desk.new.marks desk.new.sides.items
        ≡ sides_after (open_sides true desk.old.marks desk.old.sides.items) (step_of step.now)) }
    ensures fault { IfErr result (HasFault trees.now desk.old.room weights.now target desk.old.marks
        (step_of step.now)) }
    // Either way
    ensures nodes { nodes_of desk.new.marks ≡ nodes_of desk.old.marks }
    ensures kept { AreKept desk.new.marks desk.new.sides.items }
    ensures exact { desk.new.room ≡ desk.old.room }
{
    judge(trees, weights, target, step, &desk.marks, &mut desk.room)?;
    Ok(advance(step, &mut desk.marks, &mut desk.sides))
}

/// Whether the log passes from the start with the target. If not, the fault is the first one in
/// preorder: `At` the step with that number, which doesn't pass; `Short` where the steps end with a
/// side open; `Long` where a step stands after all sides are closed.
///
/// The desk is made for the trees, which are at most 40 with at most 2,000 nodes together. Each
/// leaf has one multiplier per good, and each weight is at most 100,000,000,000 in size. Takes no
/// memory.
pub fn check_log(
    trees: &[Tree],
    weights: &AllWeights,
    start: &Fixings,
    target: i128,
    log: &Log,
    desk: &mut Desk,
) -> Result<(), LogFault>
    requires few { length trees.now ≤ 40 }
    requires nodes { sum (nodes_of trees.now) ≤ 2000 }
    requires weights { AreWeightsOf trees.now weights.now }
    requires start { nodes_of start.now ≡ nodes_of trees.now }
    requires marks { nodes_of desk.old.marks ≡ nodes_of trees.now }
    requires goods { AllByRecursion (CountsGoods (length desk.old.room)) log.now }
    // What comes of it
    ensures ok { IsOk result ↔ Passes trees.now desk.old.room weights.now target start.now log.now }
    ensures fault { IfErr result (IsLogFault goods_alone trees.now desk.old.room weights.now target
        start.now log.now) }
    // Either way
    ensures marks { nodes_of desk.new.marks ≡ nodes_of trees.now }
    ensures exact { desk.new.room ≡ desk.old.room }
{
    desk.sides.clear();
    copy_fixings(&mut desk.marks, start);
    let mut is_open = true;
    let mut number = 0;
    for step in log.steps() {
        if !is_open {
            return Err(LogFault::Long { step: number });
        }
        match take_step(trees, weights, target, step, desk) {
            Ok(still_open) => is_open = still_open,
            Err(fault) => {
                return Err(LogFault::At {
                    step: number,
                    fault,
                });
            }
        }
        number += 1;
    }
    if is_open {
        return Err(LogFault::Short);
    }
    Ok(())
}
