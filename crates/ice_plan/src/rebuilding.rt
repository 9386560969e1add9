//! Small subtrees, made anew.
ghost use Rattle.std.specs.Prelude.{◌≤◌, length, IfOk};

use crate::below::no_larger;
use crate::idle::drop_idle;
use crate::making::make;
use crate::plan::{Plan, Side, Split};
use crate::pulling::pull;
use crate::sides::Bounds;
use crate::walk::{Event, Walk};
use ice_relaxation::Candidate;
use std::alloc::{AllocError, Global};

/// A tree of fewer splits isn't made anew.
const LEAST: usize = 4;

/// A tree that is done, with the number of its splits, and how many the greatest tree in it had
/// that was made anew.
#[derive(Clone, Copy)]
struct Done {
    side: Side,
    size: usize,
    tried: usize,
}

impl Done {
    /// A leaf.
    fn leaf(number: usize) -> Done {
        Done {
            side: Side::Leaf(number),
            size: 0,
            tried: 0,
        }
    }

    /// Whether the tree is worth making anew: it is no larger than this, and half as large again
    /// as the last one in it that was.
    fn is_due(&self, most: usize) -> bool {
        let grown = self.tried.saturating_add(self.tried / 2);
        LEAST <= self.size && self.size <= most && grown <= self.size
    }
}

/// Takes the tree that was done last; a leaf where there is none.
fn pop_done(done: &mut Vec<Done>) -> Done {
    done.pop().unwrap_or(Done::leaf(0))
}

/// Another plan of the side that is looked at, with fewer splits than this. None where none came
/// up, or one without a split, which doesn't tell the number by which its leaf's multipliers are
/// kept.
fn anew<S: Bounds>(alloc: Global, sides: &mut S, size: usize) -> Result<Option<Plan>, AllocError> {
    let most = size.saturating_add(size / 3).saturating_add(2);
    let Some(made) = make(alloc, sides, &Plan::new(alloc), most)? else {
        return Ok(None);
    };
    let pulled = pull(alloc, &made, sides)?;
    let plan = drop_idle(alloc, &pulled, sides)?;
    if plan.is_empty() || plan.len() >= size {
        return Ok(None);
    }
    Ok(Some(plan))
}

/// The side behind so many other splits.
fn moved(side: Side, first: usize) -> Side {
    match side {
        Side::Leaf(number) => Side::Leaf(number),
        Side::At(number) => Side::At(number.saturating_add(first)),
    }
}

impl Plan {
    /// Puts the splits of another plan behind all others. The answer is its whole.
    fn append(&mut self, other: &Plan) -> Result<Side, AllocError> {
        let first = self.len();
        let mut whole = other.root();
        for number in 0..other.len() {
            if let Some(split) = other.split(number) {
                whole = self.push(Split {
                    node: split.node,
                    must: moved(split.must, first),
                    never: moved(split.never, first),
                })?;
            }
        }
        Ok(whole)
    }
}

/// Joins the trees at both sides of a split of the side that is looked at. Where the whole tree is
/// due it is made anew, and the smaller one stays.
fn join<S: Bounds>(
    alloc: Global,
    plan: &mut Plan,
    sides: &mut S,
    node: Candidate,
    must: &Done,
    never: &Done,
    most: usize,
) -> Result<Done, AllocError> {
    let side = plan.push(Split {
        node,
        must: must.side,
        never: never.side,
    })?;
    let mut joined = Done {
        side,
        size: must.size.saturating_add(never.size).saturating_add(1),
        tried: must.tried.max(never.tried),
    };
    if joined.is_due(most) {
        if let Some(other) = anew(alloc, sides, joined.size)? {
            joined.side = plan.append(&other)?;
            joined.size = other.len();
        }
        joined.tried = joined.size.max(LEAST);
    }
    Ok(joined)
}

/// Goes through a plan, and joins the trees at both sides of each of its splits, the lowest first.
/// It owns nothing, so that an early end lets nothing go.
fn join_all<S: Bounds>(
    alloc: Global,
    plan: &Plan,
    sides: &mut S,
    most: usize,
    made: &mut Plan,
    walk: &mut Walk,
    done: &mut Vec<Done>,
) -> Result<(), AllocError> {
    for _task in 0..Walk::most_tasks(plan) {
        match walk.next(plan, sides)? {
            Event::End => break,
            Event::Between => {}
            Event::Leaf(number) => done.push(Done::leaf(number))?,
            Event::Free(split) => walk.enter(split, sides)?,
            Event::Left(split) => {
                let must = pop_done(done);
                let never = pop_done(done);
                let joined = join(alloc, made, sides, split.node, &must, &never, most)?;
                done.push(joined)?;
            }
        }
    }
    Ok(())
}

/// The plan with trees of at most so many splits made anew where that takes fewer, the lowest
/// first.
pub fn rebuild<S: Bounds>(
    alloc: Global,
    plan: &Plan,
    sides: &mut S,
    most: usize,
) -> Result<Plan, AllocError>
    ensures { IfOk result (λ made. length made ≤ length plan.now) }
{
    let mut made = Plan::new(alloc);
    let mut walk = Walk::from(alloc, plan.root())?;
    let mut done: Vec<Done> = Vec::new(alloc);
    join_all(alloc, plan, sides, most, &mut made, &mut walk, &mut done)?;
    walk.leave_all(sides);
    no_larger(alloc, &made, pop_done(&mut done).side, plan)
}
