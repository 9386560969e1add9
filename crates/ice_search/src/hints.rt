//! Hints: what makes a part's sweep and its split quick. What they say decides nothing.
ghost use Rattle.std.specs.Prelude.{◌≡◌, ◌+◌, ◌≤◌, vec_len, vec_capacity};

use crate::workspace::Workspace;
use ice_bound::Multipliers;
use ice_plan::{Plan, Side, Split};
use ice_relaxation::{Candidate, Candidates};

/// A search with fewer parts than this, two for each branch, takes the first candidate. In a longer
/// one trials of all candidates cost less than the branches that they save.
const PARTS_BEFORE_TRIALS: usize = 200;

/// A hint for a part.
#[derive(Drop)]
pub(crate) struct Hint {
    /// The multipliers that a sweep made of the part, or of the part above it.
    pub(crate) near: Multipliers,
    /// Nodes to split it at, the best first.
    pub(crate) candidates: Candidates,
    /// Its place in the plan.
    pub(crate) place: Side,
}

/// The places of the two children of a part in the plan.
#[derive(Clone, Copy)]
pub(crate) struct Places {
    must: Side,
    never: Side,
}

/// The multipliers that a sweep of the part may come near to.
pub(crate) fn near(hints: &[Hint], number: u32) -> Multipliers {
    match hints.get(number as usize) {
        Some(hint) => hint.near.copy(),
        None => Multipliers::zero(0),
    }
}

/// Keeps what a sweep made of the part.
pub(crate) fn keep_near(hints: &mut Vec<Hint>, number: u32, near: &Multipliers) {
    if let Some(hint) = hints.get_mut(number as usize) {
        hint.near = near.copy();
    }
}

/// The plan's split of the part, which is looked at; None where the plan has ended.
fn planned_split(hints: &[Hint], plan: &Plan, number: u32, space: &Workspace) -> Option<Split> {
    let hint = hints.get(number as usize)?;
    plan.free_split(hint.place, space)
}

/// Where the children of the part, which is looked at, are in the plan where it is split at a node.
pub(crate) fn places_below(
    hints: &[Hint],
    plan: &Plan,
    number: u32,
    space: &Workspace,
    node: Candidate,
) -> Places {
    match planned_split(hints, plan, number, space) {
        Some(split) if split.node == node => Places {
            must: split.must,
            never: split.never,
        },
        _ => Places {
            must: Side::Leaf(0),
            never: Side::Leaf(0),
        },
    }
}

/// The plan's node for the part, which is looked at, or else that which promises most of those that
/// the hint has for it.
pub(crate) fn most_promising(
    hints: &[Hint],
    plan: &Plan,
    number: u32,
    space: &mut Workspace,
    value: i128,
) -> Option<Candidate>
    ensures { space.new ≡ space.old }
{
    if let Some(split) = planned_split(hints, plan, number, space) {
        return Some(split.node);
    }
    match hints.get(number as usize) {
        Some(hint) if hints.len() < PARTS_BEFORE_TRIALS => hint.candidates.first().copied(),
        Some(hint) => space.most_promising(&hint.candidates, value),
        None => None,
    }
}

/// One of the nodes that the hint has for the part, the best first.
pub(crate) fn candidate_at(hints: &[Hint], number: u32, place: usize) -> Option<Candidate> {
    hints.get(number as usize)?.candidates.get(place).copied()
}

/// Hints for the two children of a part, for which there is room.
pub(crate) fn push_hints(
    hints: &mut Vec<Hint>,
    number: u32,
    places: Places,
    must: Candidates,
    never: Candidates,
)
    requires { vec_len hints.old + 2 ≤ vec_capacity hints.old }
{
    let above = near(hints, number);
    hints
        .push(Hint {
            near: above.copy(),
            candidates: must,
            place: places.must,
        })
        .unwrap();
    hints
        .push(Hint {
            near: above,
            candidates: never,
            place: places.never,
        })
        .unwrap();
}
