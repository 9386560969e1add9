//! How many splits the marks leave.

use crate::node_set::{Counts, NodeSet};
use crate::plan::{Plan, Side};
use crate::sides::Marks;
use crate::walk::{Walk, side_of};
use ice_defs::Mark;
use ice_relaxation::Candidate;
use std::alloc::{AllocError, Global};
use std::cmp::Reverse;

/// The mark of a node, where one node may have another mark.
fn mark_with<M: Marks>(marks: &M, node: Candidate, trial: Option<(Candidate, Mark)>) -> Mark {
    match trial {
        Some((other, mark)) if other == node => mark,
        _ => marks.mark_of(node),
    }
}

/// The nodes of the splits that the marks leave in the tree at a side, where one node may have
/// another mark.
pub(crate) fn nodes_left<M: Marks>(
    alloc: Global,
    plan: &Plan,
    side: Side,
    marks: &M,
    trial: Option<(Candidate, Mark)>,
) -> Result<Vec<Candidate>, AllocError> {
    let mut nodes = Vec::new(alloc);
    let mut waiting = Vec::new(alloc);
    waiting.push(side)?;
    for _side in 0..Walk::most_tasks(plan) {
        let Some(side) = waiting.pop() else {
            break;
        };
        let Side::At(number) = side else {
            continue;
        };
        let Some(split) = plan.split(number) else {
            continue;
        };
        let mark = mark_with(marks, split.node, trial);
        if mark != Mark::Free {
            waiting.push(side_of(&split, mark))?;
            continue;
        }
        nodes.push(split.node)?;
        waiting.push(split.must)?;
        waiting.push(split.never)?;
    }
    Ok(nodes)
}

/// How many splits the marks leave in the tree at a side, where one node may have another mark.
pub(crate) fn count_left<M: Marks>(
    alloc: Global,
    plan: &Plan,
    side: Side,
    marks: &M,
    trial: Option<(Candidate, Mark)>,
) -> Result<usize, AllocError> {
    Ok(nodes_left(alloc, plan, side, marks, trial)?.len())
}

/// The nodes of a set that are in a list, those that are in it most often first.
pub(crate) fn most_often(
    alloc: Global,
    nodes: &[Candidate],
    set: &NodeSet,
) -> Result<Vec<Candidate>, AllocError> {
    let counts = Counts::of(alloc, nodes)?;
    let mut rest = *set;
    let mut list = Vec::new(alloc);
    for node in nodes {
        if rest.contains(*node) {
            rest.remove(*node);
            list.push(*node)?;
        }
    }
    list.sort_unstable_by_key(|node| (Reverse(counts.get(*node)), node.bidder, node.node));
    Ok(list)
}
