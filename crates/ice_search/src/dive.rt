//! Dives: where the branches are spent, a better assignment may still come up below the part that
//! would be split next.
ghost use Rattle.std.specs.Prelude.{◌≡◌, ◌<◌, ◌⊎◌, length, IfOk, ◌≤ℤ◌};
ghost use Rattle.ice_defs.specs.Log.{IsFreeNode};
ghost use Rattle.ice_search_log.specs.Code.{parts_of};
ghost use Rattle.ice_defs.specs.Conditions.{AreMultipliersOf};
ghost use Rattle.ice_search.specs.Instance.{IsSearchOf, IsIncumbentOf};

use crate::candidates::consider;
use crate::child::{Children, Polished};
use crate::hints::{Hint, candidate_at};
use crate::workspace::Workspace;
use ice_best::Mark;
use ice_bound::Multipliers;
use ice_relaxation::Candidate;
use ice_search_log::Part;
use ice_subgradient::Incumbent;
use ice_tree::Assignment;
use std::alloc::{AllocError, Global};

/// So many steps are taken at each side of a dive: few, since its bounds are of no use after it.
const STEPS: u16 = 24;

/// So many dives are made, each from another candidate.
const DIVES: usize = 2;

/// A dive goes no deeper: trees have no more nodes together.
const DEEPEST: u16 = 2000;

/// The one of two sides that has the greater bound.
fn higher(must: Polished, never: Polished) -> Polished
    ensures { (result ≡ must) ⊎ (result ≡ never) }
{
    if must.bounded.key >= never.bounded.key {
        must
    } else {
        never
    }
}

/// The mark of the one of two sides that has the greater bound.
fn mark_of(must: &Polished, never: &Polished) -> Mark {
    if must.bounded.key >= never.bounded.key {
        Mark::Must
    } else {
        Mark::Never
    }
}

impl<'a> Workspace<'a> {
    /// Room for what dives find, with a known assignment.
    pub(crate) fn finds(
        &self,
        alloc: Global,
        incumbent: &Incumbent,
    ) -> Result<Incumbent, AllocError>
        requires { length incumbent.now.sets ≡ length self.now.instance.trees }
        ensures { IfOk result (λ f. length f.sets ≡ length self.now.instance.trees) }
    {
        let mut sets = Assignment::empty(alloc, self.problem.trees())?;
        sets.copy_from(&incumbent.sets);
        Ok(Incumbent {
            sets,
            value: incumbent.value,
        })
    }

    /// Takes over an assignment that is feasible, meets the start and is worth more than the
    /// incumbent.
    pub(crate) fn consider(&self, sets: &Assignment, incumbent: &mut Incumbent)
        requires { IsIncumbentOf self.now.instance incumbent.old.sets incumbent.old.value }
        ensures incumbent { IsIncumbentOf self.now.instance incumbent.new.sets incumbent.new.value }
        ensures no_less { incumbent.old.value ≤ℤ incumbent.new.value }
    {
        consider(&self.problem, sets, incumbent);
    }

    /// Dives from the side of a part, from each of the first candidates that the hint has.
    pub(crate) fn dive_from(
        &mut self,
        parts: &[Part],
        hints: &[Hint],
        number: u32,
        from: &Multipliers,
        finds: &mut Incumbent,
    )
        requires search { IsSearchOf self.old.instance (parts_of parts.now) }
        requires there { number < length parts.now }
        requires from { AreMultipliersOf self.old.instance.exact from.now }
        requires sets { length finds.old.sets ≡ length self.old.instance.trees }
        ensures instance { self.new.instance ≡ self.old.instance }
        ensures sets { length finds.new.sets ≡ length self.old.instance.trees }
    {
        for place in 0..DIVES {
            let Some(candidate) = candidate_at(hints, number, place) else {
                return;
            };
            self.look_at(parts, number);
            self.dive(candidate, from, finds);
        }
    }

    /// Goes on to a child of the side that is looked at.
    fn go_to(&mut self, candidate: Candidate, mark: Mark)
        requires { IsFreeNode self.old.instance.trees self.old.side candidate.bidder
            candidate.node }
        ensures { self.new.instance ≡ self.old.instance }
    {
        self.kept.mark(candidate.bidder, candidate.node, mark);
        self.look_at_tree(candidate.bidder);
    }

    /// Goes down from the side that is looked at, to the child of the greater bound each time, as
    /// long as that is above what was found. What comes up on the way is offered to the finds,
    /// which may then be of any side.
    pub(crate) fn dive(&mut self, candidate: Candidate, from: &Multipliers, finds: &mut Incumbent)
        requires from { AreMultipliersOf self.old.instance.exact from.now }
        requires sets { length finds.old.sets ≡ length self.old.instance.trees }
        ensures instance { self.new.instance ≡ self.old.instance }
        ensures sets { length finds.new.sets ≡ length self.old.instance.trees }
    {
        let mut m = from.copy();
        let mut node = candidate;
        for _level in 0..DEEPEST {
            if !self.splits(node) {
                return;
            }
            let Children { must, never } = self.polish_children(node, &m, finds, STEPS);
            let mark = mark_of(&must, &never);
            let child = higher(must, never);
            let Some(next) = child.candidates.first().copied() else {
                return;
            };
            if child.bounded.key <= finds.value {
                return;
            }
            self.go_to(node, mark);
            m = child.bounded.m;
            node = next;
        }
    }
}
