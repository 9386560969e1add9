//! One tree of an arena alone.
ghost use Rattle.std.specs.Prelude.{◌+◌, ◌≤◌, length, IfOk, OnOk};

use crate::plan::{Plan, Side, Split};
use std::alloc::{AllocError, Global};

/// Whether the split of a number is in the tree.
fn is_reached(reached: &[bool], number: usize) -> bool {
    reached.get(number).copied().unwrap_or(false)
}

/// Notes the split at a side of the tree.
fn reach(reached: &mut [bool], side: Side) {
    if let Side::At(number) = side {
        if let Some(flag) = reached.get_mut(number) {
            *flag = true;
        }
    }
}

/// Where a side went.
fn moved_to(moved: &[Side], side: Side) -> Side {
    match side {
        Side::Leaf(number) => Side::Leaf(number),
        Side::At(number) => moved.get(number).copied().unwrap_or(Side::Leaf(0)),
    }
}

/// Puts a split of the tree behind those that were moved before. A leaf where there is none.
fn move_split(plan: &mut Plan, split: Option<Split>, moved: &[Side]) -> Result<Side, AllocError>
    ensures { OnOk result (length plan.new ≤ length plan.old + 1) }
{
    match split {
        None => Ok(Side::Leaf(0)),
        Some(split) => plan.push(Split {
            node: split.node,
            must: moved_to(moved, split.must),
            never: moved_to(moved, split.never),
        }),
    }
}

impl Plan {
    /// The split of a number, if it is in the tree.
    fn reached_split(&self, reached: &[bool], number: usize) -> Option<Split> {
        if is_reached(reached, number) {
            self.split(number)
        } else {
            None
        }
    }

    /// Which splits the tree at a side has. Those above come first, since they stand behind.
    fn reached_from(&self, alloc: Global, side: Side) -> Result<Vec<bool>, AllocError> {
        let mut reached = vec![in alloc; false; self.len()]?;
        reach(&mut reached, side);
        for number in (0..self.len()).rev() {
            if let Some(split) = self.reached_split(&reached, number) {
                reach(&mut reached, split.must);
                reach(&mut reached, split.never);
            }
        }
        Ok(reached)
    }

    /// The tree at a side alone, without the other splits.
    pub(crate) fn below(&self, alloc: Global, side: Side) -> Result<Plan, AllocError>
        ensures { IfOk result (λ plan. length plan ≤ length self.now) }
    {
        let reached = self.reached_from(alloc, side)?;
        let mut plan = Plan::new(alloc);
        let mut moved: Vec<Side> = Vec::new(alloc);
        for number in 0..self.len() {
            let split = self.reached_split(&reached, number);
            let side = move_split(&mut plan, split, &moved)?;
            moved.push(side)?;
        }
        Ok(plan)
    }
}

/// The tree at a side of what was made of a plan, where it has no more splits than the plan; else
/// the plan once more.
pub(crate) fn no_larger(
    alloc: Global,
    made: &Plan,
    side: Side,
    before: &Plan,
) -> Result<Plan, AllocError>
    ensures { IfOk result (λ plan. length plan ≤ length before.now) }
{
    let plan = made.below(alloc, side)?;
    if plan.len() <= before.len() {
        return Ok(plan);
    }
    before.below(alloc, before.root())
}
