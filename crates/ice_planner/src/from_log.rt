//! The plan that a log is.
ghost use Rattle.std.specs.Prelude.{◌≡◌, ◌++◌, reverse, IfOk, OnOk};
ghost use Rattle.ice_refute.specs.Code.{step_of};
ghost use Rattle.ice_plan.specs.Arena.{nodes_of};
ghost use Rattle.ice_planner.specs.Branches.{branch_of, branches_of};

use ice_plan::{Plan, Side, Split};
use ice_refute::{Log, Step};
use ice_relaxation::Candidate;
use std::alloc::{AllocError, Global};

/// Takes the side that was put last; a leaf where there is none.
fn pop_side(sides: &mut Vec<Side>) -> Side {
    sides.pop().unwrap_or(Side::Leaf(0))
}

/// Takes a step of a log, of which those behind it are taken: a branch splits a side into the two
/// that were put last, and any other step closes one.
fn take_step(
    plan: &mut Plan,
    sides: &mut Vec<Side>,
    step: &Step,
    number: usize,
) -> Result<(), AllocError>
    ensures { OnOk result
        (nodes_of plan.new ≡ nodes_of plan.old ++ branch_of (step_of step.now)) }
{
    match step {
        Step::Branch { bidder, node } => {
            let node = Candidate {
                bidder: *bidder,
                node: *node,
            };
            let must = pop_side(sides);
            let never = pop_side(sides);
            let side = plan.push(Split { node, must, never })?;
            sides.push(side)?;
            Ok(())
        }
        Step::Leaf { .. } => {
            sides.push(Side::Leaf(number))?;
            Ok(())
        }
        Step::Dead { .. } => {
            sides.push(Side::Leaf(number))?;
            Ok(())
        }
    }
}

/// The plan that a log follows: a split for each of its branches, the last branch first. Its leaves
/// have the numbers of the log's steps. Where the log doesn't close all sides, some side counts as
/// a leaf.
#[tactic(auto, using(crate::proofs::Reading::none_read))]
pub fn plan_of_log(alloc: Global, log: &Log) -> Result<Plan, AllocError>
    ensures { IfOk result (λ plan. nodes_of plan ≡ reverse (branches_of log.now)) }
{
    let mut plan = Plan::new(alloc);
    let mut sides = Vec::new(alloc);
    let steps = log.steps();
    for number in (0..steps.len()).rev() {
        take_step(&mut plan, &mut sides, &steps[number], number)?;
    }
    Ok(plan)
}
