//! Nodes that both subtrees of a split are split at, moved above them.
ghost use Rattle.std.specs.Prelude.{◌≤◌, length, IfOk};

use crate::below::no_larger;
use crate::counting::{count_left, most_often, nodes_left};
use crate::node_set::NodeSet;
use crate::plan::{Plan, Side, Split};
use crate::prune::prune;
use crate::sides::Sides;
use crate::walk::{Event, Walk};
use ice_defs::Mark;
use ice_relaxation::Candidate;
use std::alloc::{AllocError, Global};

/// A tree that is done, with the nodes that may be tried above it: where two trees are joined,
/// those that both may be tried at.
#[derive(Clone, Copy)]
struct Done {
    side: Side,
    may: NodeSet,
}

/// A node that was pulled above a tree: on one side stands what is left of the tree, on the other
/// this one.
#[derive(Clone, Copy)]
struct Pulled {
    node: Candidate,
    keep: Mark,
    other: Side,
}

impl Pulled {
    /// The split at the node, above what is left of the tree.
    fn above(&self, left: Side) -> Split {
        match self.keep {
            Mark::Must => Split {
                node: self.node,
                must: left,
                never: self.other,
            },
            _ => Split {
                node: self.node,
                must: self.other,
                never: left,
            },
        }
    }
}

/// Takes the tree that was done last; a leaf where there is none.
fn pop_done(done: &mut Vec<Done>) -> Done {
    done.pop().unwrap_or(Done {
        side: Side::Leaf(0),
        may: NodeSet::EMPTY,
    })
}

/// Which side of a node keeps more splits of a tree, and how many.
fn kept_by<S: Sides>(
    alloc: Global,
    plan: &Plan,
    tree: Side,
    sides: &S,
    node: Candidate,
) -> Result<(Mark, usize), AllocError> {
    let never = count_left(alloc, plan, tree, sides, Some((node, Mark::Never)))?;
    let must = count_left(alloc, plan, tree, sides, Some((node, Mark::Must)))?;
    if never >= must {
        Ok((Mark::Never, never))
    } else {
        Ok((Mark::Must, must))
    }
}

/// The mark of the other side.
fn other_mark(mark: Mark) -> Mark {
    match mark {
        Mark::Must => Mark::Never,
        _ => Mark::Must,
    }
}

/// Tries a free node above the tree of the side that is looked at, where that leaves fewer splits.
/// Then the node has the mark of the side that keeps more of them, and else it is free.
fn try_node<S: Sides>(
    alloc: Global,
    plan: &mut Plan,
    tree: Side,
    sides: &mut S,
    node: Candidate,
    may: &mut NodeSet,
) -> Result<Option<Pulled>, AllocError> {
    let size = count_left(alloc, plan, tree, sides, None)?;
    let (keep, kept) = kept_by(alloc, plan, tree, sides, node)?;
    let Some(most) = size.checked_sub(kept.saturating_add(2)) else {
        may.insert(node);
        return Ok(None);
    };
    sides.mark(node, other_mark(keep));
    let Some(other) = prune(alloc, plan, tree, sides, most)? else {
        sides.mark(node, Mark::Free);
        return Ok(None);
    };
    sides.mark(node, keep);
    may.insert(node);
    Ok(Some(Pulled { node, keep, other }))
}

/// Tries each of these nodes above the tree, the first one first. Those that are pulled are left
/// with their marks.
fn try_all<S: Sides>(
    alloc: Global,
    plan: &mut Plan,
    tree: Side,
    sides: &mut S,
    nodes: &[Candidate],
    may: &mut NodeSet,
) -> Result<Vec<Pulled>, AllocError> {
    let mut pulled = Vec::new(alloc);
    for node in nodes {
        if sides.mark_of(*node) == Mark::Free {
            if let Some(one) = try_node(alloc, plan, tree, sides, *node, may)? {
                pulled.push(one)?;
            }
        }
    }
    Ok(pulled)
}

/// Frees the nodes that were pulled.
fn free_all<S: Sides>(sides: &mut S, pulled: &[Pulled]) {
    for one in pulled {
        sides.mark(one.node, Mark::Free);
    }
}

/// Puts the splits at the nodes that were pulled above what their marks leave of the tree, the last
/// one the lowest, and frees the nodes.
fn put_above<S: Sides>(
    alloc: Global,
    plan: &mut Plan,
    tree: Side,
    sides: &mut S,
    pulled: &[Pulled],
) -> Result<Side, AllocError> {
    let left = prune(alloc, plan, tree, sides, usize::MAX)?;
    free_all(sides, pulled);
    let Some(mut side) = left else {
        return Ok(tree);
    };
    for place in (0..pulled.len()).rev() {
        side = plan.push(pulled[place].above(side))?;
    }
    Ok(side)
}

/// Joins the trees at both sides of a split of the side that is looked at, and pulls nodes above
/// it.
fn join<S: Sides>(
    alloc: Global,
    plan: &mut Plan,
    sides: &mut S,
    node: Candidate,
    must: &Done,
    never: &Done,
) -> Result<Done, AllocError> {
    let side = plan.push(Split {
        node,
        must: must.side,
        never: never.side,
    })?;
    let mut may = must.may.in_one(&never.may);
    may.insert(node);
    let both = must.may.both(&never.may);
    if both.is_empty() {
        return Ok(Done { side, may });
    }
    let left = nodes_left(alloc, plan, side, sides, None)?;
    let nodes = most_often(alloc, &left, &both)?;
    let pulled = try_all(alloc, plan, side, sides, &nodes, &mut may)?;
    if pulled.is_empty() {
        return Ok(Done { side, may });
    }
    let side = put_above(alloc, plan, side, sides, &pulled)?;
    Ok(Done { side, may })
}

/// Goes through a plan, and joins the trees at both sides of each of its splits, the lowest first.
/// It owns nothing, so that an early end lets nothing go.
fn join_all<S: Sides>(
    alloc: Global,
    plan: &Plan,
    sides: &mut S,
    made: &mut Plan,
    walk: &mut Walk,
    done: &mut Vec<Done>,
) -> Result<(), AllocError> {
    for _task in 0..Walk::most_tasks(plan) {
        match walk.next(plan, sides)? {
            Event::End => break,
            Event::Between => {}
            Event::Leaf(number) => done.push(Done {
                side: Side::Leaf(number),
                may: NodeSet::EMPTY,
            })?,
            Event::Free(split) => walk.enter(split, sides)?,
            Event::Left(split) => {
                let must = pop_done(done);
                let never = pop_done(done);
                let joined = join(alloc, made, sides, split.node, &must, &never)?;
                done.push(joined)?;
            }
        }
    }
    Ok(())
}

/// The plan with nodes pulled up, the lowest first: a node that both trees below a split are split
/// at is split once above them, where that takes fewer splits in all. It is tried only at the
/// lowest such split: a higher side is larger.
pub fn pull<S: Sides>(alloc: Global, plan: &Plan, sides: &mut S) -> Result<Plan, AllocError>
    ensures { IfOk result (λ made. length made ≤ length plan.now) }
{
    let mut made = Plan::new(alloc);
    let mut walk = Walk::from(alloc, plan.root())?;
    let mut done: Vec<Done> = Vec::new(alloc);
    join_all(alloc, plan, sides, &mut made, &mut walk, &mut done)?;
    walk.leave_all(sides);
    no_larger(alloc, &made, pop_done(&mut done).side, plan)
}
