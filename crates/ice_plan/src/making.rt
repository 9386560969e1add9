//! Plans made by a search on the relaxation alone.
ghost use Rattle.std.specs.Prelude.{◌≤◌, length, IfSome, IfOk};

use crate::parts::{Parts, seed_of};
use crate::plan::{Plan, Split};
use crate::sides::{Bounds, Seen, Tries};
use ice_defs::Mark;
use ice_relaxation::Candidate;
use std::alloc::{AllocError, Global};

/// A side whose bound doesn't fall counts as if it fell by so many 64ths, so that the other side's
/// fall still counts.
const LEAST_FALL: i64 = 8;

/// A node with what was seen of both its sides.
#[derive(Drop)]
struct Trial<B> {
    node: Candidate,
    must: Seen<B>,
    never: Seen<B>,
}

/// How far the bound of a side falls to that of one below, down to where that is closed.
fn fall(above: i64, below: i64, target: i64) -> i128 {
    i128::from(
        above
            .saturating_sub(below.max(target))
            .max(0)
            .saturating_add(LEAST_FALL),
    )
}

impl<B: Drop> Trial<B> {
    /// How much a split at the node promises: the product of both falls, so that both count.
    fn promise(&self, above: i64, target: i64) -> i128 {
        fall(above, self.must.bound, target).saturating_mul(fall(above, self.never.bound, target))
    }

    /// Whether both sides are closed, so that no other node promises more.
    fn closes(&self, target: i64) -> bool {
        self.must.bound < target && self.never.bound < target
    }
}

/// Tries a free node at the side that is looked at. The node is free again behind it.
fn try_node<S: Bounds>(
    basis: &S::Basis,
    sides: &mut S,
    node: Candidate,
) -> Result<Trial<S::Basis>, AllocError> {
    sides.mark(node, Mark::Must);
    let must = sides.look(basis)?;
    sides.mark(node, Mark::Never);
    let never = sides.look(basis)?;
    sides.mark(node, Mark::Free);
    Ok(Trial { node, must, never })
}

/// The node that promises most of those that are free, at a side of this bound; None where none is.
fn best_of<S: Bounds>(
    basis: &S::Basis,
    sides: &mut S,
    bound: i64,
    tries: &Tries,
) -> Result<Option<Trial<S::Basis>>, AllocError> {
    let mut best = None;
    let mut most: i128 = -1;
    for node in tries.as_slice() {
        if sides.mark_of(*node) != Mark::Free {
            continue;
        }
        let trial = try_node(basis, sides, *node)?;
        let promise = trial.promise(bound, sides.target());
        let closes = trial.closes(sides.target());
        if promise > most {
            most = promise;
            best = Some(trial);
        }
        if closes {
            break;
        }
    }
    Ok(best)
}

/// The node at which the part that is looked at is split: that of the plan that is followed, where
/// there is one, and else the best of those that the relaxation names.
fn find<S: Bounds>(
    parts: &Parts<S::Basis>,
    sides: &mut S,
    followed: Option<Split>,
) -> Result<Option<Trial<S::Basis>>, AllocError> {
    let Some(basis) = parts.basis() else {
        return Ok(None);
    };
    match followed {
        Some(split) => Ok(Some(try_node(basis, sides, split.node)?)),
        None => {
            let tries = parts.tries();
            best_of(basis, sides, parts.bound(), &tries)
        }
    }
}

/// Splits the part that is looked at. Where there is no node to split it at, it counts as a leaf.
fn split<S: Bounds>(
    parts: &mut Parts<S::Basis>,
    sides: &mut S,
    seed: &Plan,
) -> Result<(), AllocError> {
    let followed = seed.free_split(parts.seed(), sides);
    let Some(trial) = find(parts, sides, followed)? else {
        return Ok(());
    };
    let Trial { node, must, never } = trial;
    parts.cut(node);
    let target = sides.target();
    let must_seed = seed_of(followed, Mark::Must);
    parts.add(node, Mark::Must, must_seed, must, target)?;
    let never_seed = seed_of(followed, Mark::Never);
    parts.add(node, Mark::Never, never_seed, never, target)
}

/// The plan, where it has at most so many splits.
fn within(plan: Plan, most: usize) -> Option<Plan>
    ensures { IfSome result (λ plan. length plan ≤ most) }
{
    if plan.len() <= most { Some(plan) } else { None }
}

/// Looks at the whole, which is the first part.
fn begin<S: Bounds>(
    parts: &mut Parts<S::Basis>,
    sides: &mut S,
    seed: &Plan,
) -> Result<(), AllocError> {
    let start = sides.start()?;
    let whole = sides.look(&start)?;
    let target = sides.target();
    parts.add(Candidate::default(), Mark::Free, seed.root(), whole, target)
}

/// Splits parts until none is left whose bound isn't below the target, and answers whether that
/// took at most so many splits.
fn split_all<S: Bounds>(
    parts: &mut Parts<S::Basis>,
    sides: &mut S,
    seed: &Plan,
    most: usize,
) -> Result<bool, AllocError> {
    for splits in 0..=most {
        let Some(part) = parts.next(sides.target()) else {
            return Ok(true);
        };
        if splits == most {
            break;
        }
        parts.look_at(part, sides);
        split(parts, sides, seed)?;
    }
    Ok(false)
}

/// A plan of the side that is looked at: a part of the greatest bound is split, until each bound is
/// below the target. It follows another plan as far as that goes, and else tries up to eight nodes
/// at each part. None where that takes more than `most` splits. The marks stay.
pub fn make<S: Bounds>(
    alloc: Global,
    sides: &mut S,
    seed: &Plan,
    most: usize,
) -> Result<Option<Plan>, AllocError>
    ensures { IfOk result (λ made. IfSome made (λ plan. length plan ≤ most)) }
{
    let mut parts = Parts::new(alloc);
    begin(&mut parts, sides, seed)?;
    let is_done = split_all(&mut parts, sides, seed, most)?;
    parts.look_at_whole(sides);
    if !is_done {
        return Ok(None);
    }
    let plan = parts.plan(alloc, sides.target())?;
    Ok(within(plan, most))
}
