//! Where a search may begin: multipliers and assignments of searches before. What they say decides
//! nothing.
ghost use Rattle.std.specs.Prelude.{◌≤◌, length};
ghost use Rattle.ice_defs.specs.Conditions.{AreMultipliersOf};

use ice_bound::Multipliers;
use ice_refute::{Log, Step};
use ice_tree::{Assignment, NodeSet, Tree};
use std::alloc::{AllocError, Global};

/// The multipliers of the first leaf, where there is one.
fn first_leaf(log: &Log) -> Option<&Multipliers> {
    for step in log.steps() {
        if let Step::Leaf { m } = step {
            return Some(m);
        }
    }
    None
}

/// Those of these multipliers that goods may have, and else 0.
fn lawful(exact: &[bool], multipliers: &Multipliers) -> Multipliers
    requires { length exact.now ≤ 32 }
    ensures { AreMultipliersOf exact.now result }
{
    let goods = exact.len() as u8;
    let mut made = Multipliers::zero(goods);
    for good in 0..goods {
        if good < multipliers.len() {
            let multiplier = multipliers.get(good);
            if exact[good as usize] || 0 <= multiplier {
                made.put(good, multiplier);
            }
        }
    }
    made
}

/// Multipliers that close a part of what the log closes: those of its first leaf.
pub(crate) fn multipliers_of(exact: &[bool], log: &Log) -> Multipliers
    requires { length exact.now ≤ 32 }
    ensures { AreMultipliersOf exact.now result }
{
    match first_leaf(log) {
        Some(multipliers) => lawful(exact, multipliers),
        None => Multipliers::zero(exact.len() as u8),
    }
}

/// The sets with that of the bidder emptied.
fn emptied(
    alloc: Global,
    trees: &[Tree],
    sets: &Assignment,
    bidder: u8,
) -> Result<Assignment, AllocError> {
    let mut made = Assignment::empty(alloc, trees)?;
    if sets.len() == made.len() {
        made.copy_from(sets);
    }
    if usize::from(bidder) < made.len() {
        let none = NodeSet::empty(made.of(bidder).len());
        made.put(bidder, &none);
    }
    Ok(made)
}

/// The best assignment of all and those that are known, each with the bidder's set emptied.
pub(crate) fn candidates(
    alloc: Global,
    trees: &[Tree],
    best: &Assignment,
    known: &[Assignment],
    bidder: u8,
) -> Result<Vec<Assignment>, AllocError> {
    let mut made = Vec::new(alloc);
    made.push(emptied(alloc, trees, best, bidder)?)?;
    for sets in known {
        made.push(emptied(alloc, trees, sets, bidder)?)?;
    }
    Ok(made)
}
