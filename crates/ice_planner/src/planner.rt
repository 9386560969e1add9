//! A market that is planned: one side at a time, with its dual.
ghost use Rattle.ice_defs.specs.Conditions.{AreWeightsOf};

use crate::marking::Marking;
use crate::points::Points;
use crate::tally::{Tally, put_sets};
use arrayvec::ArrayVec;
use ice_best::Mark;
use ice_master::{Aim, Basis, Dual, Master};
use ice_plan::{Bounds, Marks, Seen, Sides, Tries};
use ice_relaxation::Candidate;
use ice_tree::{AllWeights, Assignment};
use std::alloc::{AllocError, Global};

/// A plan closes a side only where its bound is by so many 64ths below what has to be closed, since
/// the search rounds multipliers.
const MARGIN: i64 = 6;

/// A market that is planned: a side with its master, the multipliers that were found, and the best
/// assignment that came up.
#[derive(Drop)]
pub(crate) struct Planner<'a> {
    pub(crate) alloc: Global,
    pub(crate) weights: &'a AllWeights,
    pub(crate) exact: &'a [bool],
    pub(crate) marking: Marking<'a>,
    pub(crate) master: Box<Master>,
    pub(crate) points: Points,
    /// The best assignment that came up, at first empty sets.
    pub(crate) finds: Assignment,
    /// Its value; at first the value that is to be beaten.
    pub(crate) value: i128,
    /// How many sides were looked at while a plan was made.
    pub(crate) looks: u32,
    ghost weighted: { AreWeightsOf marking.trees.now weights.now },
}

/// What is kept of a side for those below it.
#[derive(Drop)]
pub(crate) struct Kept {
    basis: Option<Box<Basis>>,
}

/// The bound below which a side has nothing above a value, in 64ths.
pub(crate) fn closing(value: i128) -> i64 {
    let above = value.saturating_add(1).saturating_mul(64);
    above.clamp(-(1 << 62), 1 << 62) as i64
}

impl Planner<'_> {
    /// Solves the side, until it is known what is aimed at.
    pub(crate) fn solve(&mut self, aim: Aim) -> Dual {
        self.marking.show(&mut self.master);
        self.master.solve(aim)
    }

    /// Solves the side, until it is known to be open or closed.
    fn decide(&mut self) -> Dual {
        let target = self.target();
        self.solve(Aim {
            close: target,
            keep: target,
        })
    }

    /// Takes over the sets of the last solve, where they are whole and worth more than the value.
    pub(crate) fn offer(&mut self) {
        if !self.master.is_whole() {
            return;
        }
        let tally = Tally::of(&self.master, &self.marking, self.weights);
        if tally.value > self.value && tally.is_feasible(self.exact) {
            put_sets(&mut self.finds, &self.master, self.marking.trees);
            self.value = tally.value;
        }
    }

    /// Free nodes that the mix of the last solve has in part.
    fn tries(&self) -> Tries {
        let mut tries = ArrayVec::new();
        for candidate in self.master.candidates().as_slice() {
            let _is_room = tries.try_push(candidate.node);
        }
        tries
    }

    /// What is seen of a side that is closed.
    fn closed(bound: i64, number: usize) -> Seen<Kept> {
        Seen {
            bound,
            number,
            tries: ArrayVec::new(),
            basis: Kept { basis: None },
        }
    }

    /// What is kept of the side.
    fn keep(&self) -> Result<Kept, AllocError> {
        Ok(Kept {
            basis: Some(Box::new(self.alloc, self.master.basis())?),
        })
    }
}

impl Marks for Planner<'_> {
    fn mark_of(&self, node: Candidate) -> Mark {
        self.marking.mark_of(node)
    }
}

impl Sides for Planner<'_> {
    fn mark(&mut self, node: Candidate, mark: Mark) {
        self.marking.mark(node, mark);
    }

    fn close(&mut self) -> Result<Option<usize>, AllocError> {
        if self.marking.is_dead() {
            return Ok(Some(0));
        }
        let dual = self.decide();
        if dual.bound >= self.target() {
            return Ok(None);
        }
        Ok(Some(self.points.keep(&dual.multipliers)?))
    }

    fn closes_near(&mut self, number: usize) -> Result<bool, AllocError> {
        if self.marking.is_dead() {
            return Ok(true);
        }
        if let Some(point) = self.points.get(number) {
            self.marking.show(&mut self.master);
            if self.master.bound_at(&point) < self.target() {
                return Ok(true);
            }
        }
        let dual = self.decide();
        let is_closed = dual.bound < self.target();
        if is_closed {
            self.points.put(number, &dual.multipliers);
        }
        Ok(is_closed)
    }
}

impl Bounds for Planner<'_> {
    type Basis = Kept;

    fn target(&self) -> i64 {
        closing(self.value).saturating_sub(MARGIN)
    }

    fn start(&self) -> Result<Kept, AllocError> {
        self.keep()
    }

    fn look(&mut self, from: &Kept) -> Result<Seen<Kept>, AllocError> {
        self.looks = self.looks.saturating_add(1);
        if self.marking.is_dead() {
            return Ok(Planner::closed(i64::MIN, 0));
        }
        if let Some(basis) = &from.basis {
            self.master.start_from(basis);
        }
        let close = self.target();
        let dual = self.solve(Aim {
            close,
            keep: i64::MAX,
        });
        let number = self.points.keep(&dual.multipliers)?;
        if dual.bound < self.target() {
            return Ok(Planner::closed(dual.bound, number));
        }
        self.offer();
        let seen = Seen {
            bound: dual.bound,
            number,
            tries: self.tries(),
            basis: self.keep()?,
        };
        self.dive_by_turns()?;
        Ok(seen)
    }
}
