//! Trees without what the marks decide, and without what is closed.

use crate::plan::{Plan, Side, Split, pop_side};
use crate::sides::Sides;
use crate::walk::{Event, Walk};
use std::alloc::{AllocError, Global};

/// A tree under way: how many splits more it may have, and the sides that are done.
#[derive(Drop)]
struct Pruned {
    left: usize,
    done: Vec<Side>,
}

impl Pruned {
    /// Looks at a split at a free node: the side is closed, or the split stays. False where it
    /// would be one too many.
    fn look_at<S: Sides>(
        &mut self,
        split: Split,
        walk: &mut Walk,
        sides: &mut S,
    ) -> Result<bool, AllocError> {
        if let Some(number) = sides.close()? {
            self.done.push(Side::Leaf(number))?;
            return Ok(true);
        }
        let Some(left) = self.left.checked_sub(1) else {
            return Ok(false);
        };
        self.left = left;
        walk.enter(split, sides)?;
        Ok(true)
    }

    /// Joins the two sides of a split.
    fn join(&mut self, split: Split, plan: &mut Plan) -> Result<(), AllocError> {
        let must = pop_side(&mut self.done);
        let never = pop_side(&mut self.done);
        let side = plan.push(Split {
            node: split.node,
            must,
            never,
        })?;
        self.done.push(side)?;
        Ok(())
    }
}

/// Where a walk is behind a task.
enum Went {
    /// It goes on.
    On,
    /// It has ended.
    ToEnd,
    /// It would take one split too many.
    TooFar,
}

/// Takes the next task of a walk.
fn step<S: Sides>(
    pruned: &mut Pruned,
    walk: &mut Walk,
    plan: &mut Plan,
    sides: &mut S,
) -> Result<Went, AllocError> {
    match walk.next(plan, sides)? {
        Event::End => return Ok(Went::ToEnd),
        Event::Between => {}
        Event::Leaf(number) => pruned.done.push(Side::Leaf(number))?,
        Event::Free(split) => {
            if !pruned.look_at(split, walk, sides)? {
                return Ok(Went::TooFar);
            }
        }
        Event::Left(split) => pruned.join(split, plan)?,
    }
    Ok(Went::On)
}

/// The tree at a side once more, behind all splits that are there: without the splits that the
/// marks decide, and without those of sides that are closed. None where more than `most` splits
/// would be left. The marks stay.
pub(crate) fn prune<S: Sides>(
    alloc: Global,
    plan: &mut Plan,
    side: Side,
    sides: &mut S,
    most: usize,
) -> Result<Option<Side>, AllocError> {
    let before = plan.len();
    let mut walk = Walk::from(alloc, side)?;
    let mut pruned = Pruned {
        left: most,
        done: Vec::new(alloc),
    };
    for _task in 0..Walk::most_tasks(plan) {
        match step(&mut pruned, &mut walk, plan, sides)? {
            Went::On => {}
            Went::ToEnd => return Ok(pruned.done.pop()),
            Went::TooFar => break,
        }
    }
    walk.leave_all(sides);
    plan.truncate(before);
    Ok(None)
}
