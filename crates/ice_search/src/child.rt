//! The children of the side that is looked at.
ghost use Rattle.std.specs.Prelude.{◌≡◌, ◌<◌, ◌≤◌, length, pos, ◌+ℤ◌, ◌*ℤ◌, ◌≤ℤ◌, ◌<ℤ◌};
ghost use Rattle.ice_defs.specs.Log.{IsFreeNode};
ghost use Rattle.ice_defs.specs.Steps.{with_mark};
ghost use Rattle.ice_defs.specs.Sweep.{IsLive};
ghost use Rattle.ice_defs.specs.Conditions.{AreFixingsOf, AreMultipliersOf};
ghost use Rattle.ice_search.specs.Nodes.{IsSplitNode};
ghost use Rattle.ice_search.specs.Workspace.{IsPolishedAt, ArePolishedAt};

use crate::sweep::Bounded;
use crate::workspace::Workspace;
use ice_best::{Fixings, Mark};
use ice_bound::{Multipliers, floor_64th};
use ice_planner::{Guide, Near};
use ice_relaxation::{Candidate, Candidates, pick};
use ice_subgradient::{Evaluated, Incumbent, most_promising, polish, repeat};
use ice_tree::Tree;

/// So many steps are taken at a child.
pub(crate) const CHILD_STEPS: u16 = 60;

/// A side with multipliers, their bound and nodes to split it at.
#[derive(Drop)]
pub(crate) struct Polished {
    pub(crate) bounded: Bounded,
    pub(crate) candidates: Candidates,
}

/// Both children of a node.
#[derive(Drop)]
pub(crate) struct Children {
    pub(crate) must: Polished,
    pub(crate) never: Polished,
}

/// The multipliers of an evaluation, with the bound at them.
fn bounded(evaluated: Evaluated) -> Bounded
    ensures multipliers { result.m ≡ evaluated.m }
    ensures low { (pos 64 *ℤ result.key) ≤ℤ evaluated.total }
    ensures high { evaluated.total <ℤ (pos 64 *ℤ result.key +ℤ pos 64) }
{
    Bounded {
        m: evaluated.m,
        key: floor_64th(evaluated.total),
    }
}

/// Multipliers near the dual of the side of these marks, where there is a guide.
fn guided(
    guide: &mut Option<Guide>,
    trees: &[Tree],
    marks: &Fixings,
    goods: u8,
    value: i128,
) -> Option<Near>
    requires few { length trees.now ≤ 40 }
    requires marks { AreFixingsOf trees.now marks.now }
    requires goods { goods ≤ 32 }
{
    match guide {
        Some(guide) => Some(guide.near(trees, marks, goods, value)),
        None => None,
    }
}

impl<'a> Workspace<'a> {
    /// The candidate that promises most, where both of its children are looked at from the
    /// multipliers that are kept.
    pub(crate) fn most_promising(
        &mut self,
        candidates: &Candidates,
        value: i128,
    ) -> Option<Candidate>
        ensures { self.new ≡ self.old }
    {
        most_promising(
            candidates,
            &mut self.relaxation,
            &self.kept,
            value,
            CHILD_STEPS,
            &mut self.trial,
        )
    }

    /// Steps from these multipliers. What comes up is offered.
    pub(crate) fn polish(
        &mut self,
        from: &Multipliers,
        incumbent: &mut Incumbent,
        steps: u16,
    ) -> Polished
        requires live { IsLive self.old.instance.trees self.old.side }
        requires sets { length incumbent.old.sets ≡ length self.old.instance.trees }
        ensures instance { self.new.instance ≡ self.old.instance }
        ensures side { self.new.side ≡ self.old.side }
        ensures polished { IsPolishedAt self.old.instance self.old.side incumbent.old
            incumbent.new result.bounded }
        ensures sets { length incumbent.new.sets ≡ length self.old.instance.trees }
    {
        let evaluated = polish(&mut self.kept, incumbent, &mut self.relaxation, from, steps);
        let candidates = pick(self.problem.trees(), self.kept.marks(), &self.relaxation);
        Polished {
            bounded: bounded(evaluated),
            candidates,
        }
    }

    /// Moves to the multipliers that are given, and steps from them. What comes up is offered.
    pub(crate) fn polish_from(
        &mut self,
        from: &Multipliers,
        incumbent: &mut Incumbent,
        steps: u16,
    ) -> Polished
        requires live { IsLive self.old.instance.trees self.old.side }
        requires from { AreMultipliersOf self.old.instance.exact from.now }
        requires sets { length incumbent.old.sets ≡ length self.old.instance.trees }
        ensures instance { self.new.instance ≡ self.old.instance }
        ensures side { self.new.side ≡ self.old.side }
        ensures polished { IsPolishedAt self.old.instance self.old.side incumbent.old
            incumbent.new result.bounded }
        ensures sets { length incumbent.new.sets ≡ length self.old.instance.trees }
    {
        self.kept.put_multipliers(from);
        self.polish(from, incumbent, steps)
    }

    /// Looks where the trial looked at the child of this mark, which is the side now.
    fn repeat(&mut self, mark: Mark, incumbent: &mut Incumbent) -> Polished
        requires live { IsLive self.old.instance.trees self.old.side }
        requires sets { length incumbent.old.sets ≡ length self.old.instance.trees }
        ensures instance { self.new.instance ≡ self.old.instance }
        ensures side { self.new.side ≡ self.old.side }
        ensures polished { IsPolishedAt self.old.instance self.old.side incumbent.old
            incumbent.new result.bounded }
        ensures sets { length incumbent.new.sets ≡ length self.old.instance.trees }
    {
        let trace = self.trial.trace(mark);
        let candidates = trace.candidates();
        let evaluated = repeat(&mut self.kept, incumbent, trace);
        Polished {
            bounded: bounded(evaluated),
            candidates,
        }
    }

    /// Brings the relaxation of one tree to its marks.
    pub(crate) fn look_at_tree(&mut self, bidder: u8)
        requires bidder { bidder < length self.old.instance.trees }
        ensures { self.new ≡ self.old }
    {
        self.relaxation.look_at_tree(
            self.problem.trees(),
            self.problem.weights(),
            self.kept.marks(),
            bidder,
        );
    }

    /// Multipliers near the dual of the side that is looked at, where there is a guide.
    fn near(&mut self, value: i128) -> Option<Near>
        ensures { self.new ≡ self.old }
    {
        let trees = self.problem.trees();
        let goods = self.problem.goods();
        guided(&mut self.guide, trees, self.kept.marks(), goods, value)
    }

    /// Few steps from multipliers near the dual, where there is a guide, and else as many as are
    /// given from these multipliers. What comes up is offered.
    fn polish_anew(&mut self, from: &Multipliers, incumbent: &mut Incumbent, steps: u16) -> Polished
        requires live { IsLive self.old.instance.trees self.old.side }
        requires sets { length incumbent.old.sets ≡ length self.old.instance.trees }
        ensures instance { self.new.instance ≡ self.old.instance }
        ensures side { self.new.side ≡ self.old.side }
        ensures polished { IsPolishedAt self.old.instance self.old.side incumbent.old
            incumbent.new result.bounded }
        ensures sets { length incumbent.new.sets ≡ length self.old.instance.trees }
    {
        match self.near(incumbent.value) {
            Some(near) => Polished {
                bounded: self.polish(&near.m, incumbent, near.steps).bounded,
                candidates: near.candidates,
            },
            None => self.polish(from, incumbent, steps),
        }
    }

    /// Steps at a child, which is the side now, unless a trial has taken the steps already.
    fn polish_marked(
        &mut self,
        candidate: Candidate,
        mark: Mark,
        from: &Multipliers,
        incumbent: &mut Incumbent,
        steps: u16,
    ) -> Polished
        requires bidder { candidate.bidder < length self.old.instance.trees }
        requires live { IsLive self.old.instance.trees self.old.side }
        requires sets { length incumbent.old.sets ≡ length self.old.instance.trees }
        ensures instance { self.new.instance ≡ self.old.instance }
        ensures side { self.new.side ≡ self.old.side }
        ensures polished { IsPolishedAt self.old.instance self.old.side incumbent.old
            incumbent.new result.bounded }
        ensures sets { length incumbent.new.sets ≡ length self.old.instance.trees }
    {
        if self.trial.is_of(candidate) {
            return self.repeat(mark, incumbent);
        }
        self.look_at_tree(candidate.bidder);
        self.polish_anew(from, incumbent, steps)
    }

    /// The marks of the side that is looked at, one for each node.
    fn marks(&self) -> &Fixings
        ensures { AreFixingsOf self.now.instance.trees self.now.side }
    {
        self.kept.marks()
    }

    /// Looks at a child for some steps from the multipliers that are given.
    fn polish_child(
        &mut self,
        candidate: Candidate,
        mark: Mark,
        from: &Multipliers,
        incumbent: &mut Incumbent,
        steps: u16,
    ) -> Polished
        requires free { IsFreeNode self.old.instance.trees self.old.side candidate.bidder
            candidate.node }
        requires live { IsLive self.old.instance.trees
            (with_mark self.old.side candidate.bidder candidate.node mark) }
        requires from { AreMultipliersOf self.old.instance.exact from.now }
        requires sets { length incumbent.old.sets ≡ length self.old.instance.trees }
        // What is looked at stays.
        ensures instance { self.new.instance ≡ self.old.instance }
        ensures side { self.new.side ≡ self.old.side }
        // What was found at the child.
        ensures polished { IsPolishedAt self.old.instance
            (with_mark self.old.side candidate.bidder candidate.node mark)
            incumbent.old incumbent.new result.bounded }
        ensures sets { length incumbent.new.sets ≡ length self.old.instance.trees }
    {
        // There is one for each node.
        let _marks = self.marks();
        self.kept.mark(candidate.bidder, candidate.node, mark);
        let polished = self.polish_marked(candidate, mark, from, incumbent, steps);
        self.kept.mark(candidate.bidder, candidate.node, Mark::Free);
        self.look_at_tree(candidate.bidder);
        polished
    }

    /// Looks at both children of a node for some steps from the multipliers that are given, first
    /// at the one that has it.
    pub(crate) fn polish_children(
        &mut self,
        node: Candidate,
        from: &Multipliers,
        incumbent: &mut Incumbent,
        steps: u16,
    ) -> Children
        requires node { IsSplitNode self.old.instance.trees self.old.side node.bidder node.node }
        requires from { AreMultipliersOf self.old.instance.exact from.now }
        requires sets { length incumbent.old.sets ≡ length self.old.instance.trees }
        ensures instance { self.new.instance ≡ self.old.instance }
        ensures side { self.new.side ≡ self.old.side }
        ensures polished { ArePolishedAt self.old.instance self.old.side node.bidder node.node
            incumbent.old incumbent.new result.must.bounded result.never.bounded }
        ensures sets { length incumbent.new.sets ≡ length self.old.instance.trees }
    {
        let must = self.polish_child(node, Mark::Must, from, incumbent, steps);
        let never = self.polish_child(node, Mark::Never, from, incumbent, steps);
        Children { must, never }
    }
}
