//! Splits that their subtrees can do without.
ghost use Rattle.std.specs.Prelude.{◌≤◌, length, IfOk};

use crate::below::no_larger;
use crate::plan::{Plan, Side, Split, pop_side};
use crate::sides::Sides;
use crate::walk::{Event, Walk};
use std::alloc::{AllocError, Global};

/// Whether the leaves of the tree at a side close the side that is looked at. The marks stay.
fn refutes<S: Sides>(
    alloc: Global,
    plan: &Plan,
    side: Side,
    sides: &mut S,
) -> Result<bool, AllocError> {
    let mut walk = Walk::from(alloc, side)?;
    for _task in 0..Walk::most_tasks(plan) {
        match walk.next(plan, sides)? {
            Event::End => return Ok(true),
            Event::Between => {}
            Event::Left(_) => {}
            Event::Free(split) => walk.enter(split, sides)?,
            Event::Leaf(number) => {
                if !sides.closes_near(number)? {
                    break;
                }
            }
        }
    }
    walk.leave_all(sides);
    Ok(false)
}

/// What a split of the side that is looked at comes to: a leaf where the side is closed, one of its
/// sides where the other is a leaf and that tree closes the side without the split, and else the
/// split.
fn join<S: Sides>(
    alloc: Global,
    plan: &mut Plan,
    sides: &mut S,
    split: Split,
) -> Result<Side, AllocError> {
    match (split.must, split.never) {
        (Side::Leaf(_), Side::Leaf(_)) => {
            if let Some(number) = sides.close()? {
                return Ok(Side::Leaf(number));
            }
        }
        (Side::Leaf(_), Side::At(_)) => {
            if refutes(alloc, plan, split.never, sides)? {
                return Ok(split.never);
            }
        }
        (Side::At(_), Side::Leaf(_)) => {
            if refutes(alloc, plan, split.must, sides)? {
                return Ok(split.must);
            }
        }
        (Side::At(_), Side::At(_)) => {}
    }
    plan.push(split)
}

/// Goes through a plan, and joins the trees at both sides of each of its splits, the lowest first.
/// It owns nothing, so that an early end lets nothing go.
fn join_all<S: Sides>(
    alloc: Global,
    plan: &Plan,
    sides: &mut S,
    made: &mut Plan,
    walk: &mut Walk,
    done: &mut Vec<Side>,
) -> Result<(), AllocError> {
    for _task in 0..Walk::most_tasks(plan) {
        match walk.next(plan, sides)? {
            Event::End => break,
            Event::Between => {}
            Event::Leaf(number) => done.push(Side::Leaf(number))?,
            Event::Free(split) => walk.enter(split, sides)?,
            Event::Left(split) => {
                let must = pop_side(done);
                let never = pop_side(done);
                let split = Split {
                    node: split.node,
                    must,
                    never,
                };
                let side = join(alloc, made, sides, split)?;
                done.push(side)?;
            }
        }
    }
    Ok(())
}

/// The plan without idle splits, the lowest first: where one side of a split is a leaf, and the
/// tree at the other side closes the whole without it, that tree takes its place.
pub fn drop_idle<S: Sides>(alloc: Global, plan: &Plan, sides: &mut S) -> Result<Plan, AllocError>
    ensures { IfOk result (λ made. length made ≤ length plan.now) }
{
    let mut made = Plan::new(alloc);
    let mut walk = Walk::from(alloc, plan.root())?;
    let mut done: Vec<Side> = Vec::new(alloc);
    join_all(alloc, plan, sides, &mut made, &mut walk, &mut done)?;
    walk.leave_all(sides);
    no_larger(alloc, &made, pop_side(&mut done), plan)
}
