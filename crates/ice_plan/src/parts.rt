//! The sides of a plan under way.

use crate::plan::{Plan, Side, Split};
use crate::sides::{Seen, Sides, Tries};
use ice_defs::Mark;
use ice_relaxation::Candidate;
use std::alloc::{AllocError, Global};
use std::collections::BinaryHeap;

/// Where a part is split, and the number of its Must side; its Never side has the next number.
#[derive(Clone, Copy)]
struct Cut {
    node: Candidate,
    must: usize,
}

/// A side of a plan under way: the part above it with the mark that it puts, what was seen of it,
/// its place in the plan that it follows, and where it is split.
#[derive(Drop)]
struct Part<B> {
    above: usize,
    node: Candidate,
    mark: Mark,
    bound: i64,
    number: usize,
    seed: Side,
    tries: Tries,
    basis: Option<B>,
    cut: Option<Cut>,
}

/// A part that isn't split. Of those whose bounds are one whole number the last comes first.
#[derive(Clone, Copy, PartialEq, Eq, PartialOrd, Ord)]
struct Open {
    whole: i64,
    part: usize,
    bound: i64,
}

/// The sides of a plan under way: parts, each behind the one above it, those that are open, and the
/// one that is looked at.
#[derive(Drop)]
pub(crate) struct Parts<B> {
    parts: Vec<Part<B>>,
    open: BinaryHeap<Open>,
    at: usize,
}

/// The side of a split of the plan that is followed.
pub(crate) fn seed_of(split: Option<Split>, mark: Mark) -> Side {
    match (split, mark) {
        (None, _) => Side::Leaf(0),
        (Some(split), Mark::Must) => split.must,
        (Some(split), _) => split.never,
    }
}

impl<B: Drop> Parts<B> {
    /// No part yet.
    pub(crate) fn new(alloc: Global) -> Parts<B> {
        Parts {
            parts: Vec::new(alloc),
            open: BinaryHeap::new(alloc),
            at: 0,
        }
    }

    /// Adds a part, which is open where its bound isn't below the target.
    pub(crate) fn add(
        &mut self,
        node: Candidate,
        mark: Mark,
        seed: Side,
        seen: Seen<B>,
        target: i64,
    ) -> Result<(), AllocError> {
        let part = self.parts.len();
        let Seen {
            bound,
            number,
            tries,
            basis,
        } = seen;
        self.parts.push(Part {
            above: self.at,
            node,
            mark,
            bound,
            number,
            seed,
            tries,
            basis: Some(basis),
            cut: None,
        })?;
        if bound >= target {
            self.open.push(Open {
                whole: bound >> 6,
                part,
                bound,
            })?;
        }
        Ok(())
    }

    /// Takes the open part of the greatest bound, in whole numbers. Those below the target, which
    /// may have risen, are open no more.
    pub(crate) fn next(&mut self, target: i64) -> Option<usize> {
        for _part in 0..self.open.len() {
            let open = self.open.pop()?;
            if open.bound >= target {
                return Some(open.part);
            }
        }
        None
    }

    /// The part above another.
    fn above(&self, part: usize) -> usize {
        match self.parts.get(part) {
            Some(part) => part.above,
            None => 0,
        }
    }

    /// Puts the part's own mark on its node, or takes it off.
    fn put<S: Sides>(&self, part: usize, sides: &mut S, is_on: bool) {
        if let Some(part) = self.parts.get(part) {
            sides.mark(part.node, if is_on { part.mark } else { Mark::Free });
        }
    }

    /// The lowest part above both, or one of them.
    fn common(&self, one: usize, other: usize) -> usize {
        let mut one = one;
        let mut other = other;
        for _part in 0..self.parts.len() {
            if one == other {
                break;
            }
            if one > other {
                one = self.above(one);
            } else {
                other = self.above(other);
            }
        }
        one
    }

    /// Puts the marks of the parts from one up to another above it, or takes them off.
    fn put_up<S: Sides>(&self, from: usize, to: usize, sides: &mut S, is_on: bool) {
        let mut part = from;
        for _part in 0..self.parts.len() {
            if part <= to {
                break;
            }
            self.put(part, sides, is_on);
            part = self.above(part);
        }
    }

    /// Looks at a part: its marks are put.
    pub(crate) fn look_at<S: Sides>(&mut self, part: usize, sides: &mut S) {
        let common = self.common(self.at, part);
        self.put_up(self.at, common, sides, false);
        self.put_up(part, common, sides, true);
        self.at = part;
    }

    /// Looks at the whole again.
    pub(crate) fn look_at_whole<S: Sides>(&mut self, sides: &mut S) {
        self.look_at(0, sides);
    }

    /// The place in the plan that is followed of the part that is looked at.
    pub(crate) fn seed(&self) -> Side {
        match self.parts.get(self.at) {
            Some(part) => part.seed,
            None => Side::Leaf(0),
        }
    }

    /// The bound of the part that is looked at.
    pub(crate) fn bound(&self) -> i64 {
        match self.parts.get(self.at) {
            Some(part) => part.bound,
            None => 0,
        }
    }

    /// What was kept of the part that is looked at.
    pub(crate) fn basis(&self) -> Option<&B> {
        self.parts.get(self.at)?.basis.as_ref()
    }

    /// Nodes at which the part that is looked at may be split.
    pub(crate) fn tries(&self) -> Tries {
        let mut tries = Tries::new();
        if let Some(part) = self.parts.get(self.at) {
            let _whole = tries.try_extend_from_slice(part.tries.as_slice());
        }
        tries
    }

    /// Splits the part that is looked at: the next part is its Must side, and the one behind that
    /// its Never side.
    pub(crate) fn cut(&mut self, node: Candidate) {
        let must = self.parts.len();
        if let Some(part) = self.parts.get_mut(self.at) {
            part.cut = Some(Cut { node, must });
            part.basis = None;
        }
    }

    /// The plan that the parts are: a part whose bound is below the target, or that isn't split, is
    /// a leaf.
    pub(crate) fn plan(&self, alloc: Global, target: i64) -> Result<Plan, AllocError> {
        let mut plan = Plan::new(alloc);
        let mut sides = vec![in alloc; Side::Leaf(0); self.parts.len()]?;
        for place in (0..self.parts.len()).rev() {
            let side = match self.parts.get(place) {
                None => Side::Leaf(0),
                Some(part) => match part.cut {
                    Some(cut) if part.bound >= target => plan.push(Split {
                        node: cut.node,
                        must: side_at(&sides, cut.must),
                        never: side_at(&sides, cut.must.saturating_add(1)),
                    })?,
                    _ => Side::Leaf(part.number),
                },
            };
            if let Some(known) = sides.get_mut(place) {
                *known = side;
            }
        }
        plan.below(alloc, side_at(&sides, 0))
    }
}

/// The side of a part that was looked at.
fn side_at(sides: &[Side], part: usize) -> Side {
    sides.get(part).copied().unwrap_or(Side::Leaf(0))
}
