//! A search as it goes on.
ghost use Rattle.std.specs.Prelude.{◌≡◌, ◌+◌, ◌<◌, ◌≤◌, length, slice_index, true, false, IfNone, IfSome, OnOk};
ghost use Rattle.std.specs.List.{Contains};
ghost use Rattle.ice_search_log.specs.Parts.{part_at};
ghost use Rattle.ice_search_log.specs.Searching.{IsAboveWhole, IsNext, AreOpen};
ghost use Rattle.ice_search_log.specs.Nodes.{HasNoNode};
ghost use Rattle.ice_search.specs.Nodes.{IsSplitNode};
ghost use Rattle.ice_search.specs.Open.{IsGreatestOpen};
ghost use Rattle.ice_search.specs.State.{unswept_count, LooksAt};

use crate::child::{CHILD_STEPS, Children};
use crate::frontier::{greatest, open_children, take_out};
use crate::hints::{Hint, keep_near, most_promising, near, places_below, push_hints};
use crate::parts::{fate_of, lower, push_children};
use crate::workspace::Workspace;
use ice_plan::Plan;
use ice_relaxation::Candidate;
use ice_search_log::Part;
use ice_subgradient::Incumbent;
use ice_tree::Assignment;
use std::alloc::{AllocError, Global};
use std::marker::Model;

/// A search as it goes on: its parts with a hint for each, the best assignment so far, the open
/// parts, and the plan that it follows.
#[derive(Drop)]
pub(crate) struct Progress<'a> {
    pub(crate) space: Workspace<'a>,
    pub(crate) incumbent: Incumbent,
    pub(crate) parts: Vec<Part>,
    pub(crate) hints: Vec<Hint>,
    pub(crate) open_parts: Vec<u32>,
    pub(crate) plan: Plan,
}

impl<'a> Model for Progress<'a> {
    ghost use Rattle.ice_search.specs.State.{State, IsState, state_of};

    ghost Value = { State };

    ghost view = { λ p. state_of p.space p.incumbent p.parts.items p.open_parts.items };

    ghost invariant = { λ p. IsState (state_of p.space p.incumbent p.parts.items p.open_parts.items) };
}

impl<'a> Progress<'a> {
    /// The place of an open part of the greatest bound, where that is above the value.
    pub(crate) fn next(&self) -> Option<usize>
        ensures none { IfNone result (IsAboveWhole self.now.parts self.now.value) }
        ensures some { IfSome result
            (IsGreatestOpen self.now.parts self.now.open_parts self.now.value) }
        ensures opened { AreOpen self.now.parts self.now.value self.now.open_parts }
    {
        greatest(&self.parts, &self.open_parts, self.incumbent.value)
    }

    /// Looks at an open part.
    pub(crate) fn look_at(&mut self, place: usize) -> u32
        requires { place < length self.old.open_parts }
        ensures number { result ≡ slice_index self.old.open_parts place }
        ensures looks { LooksAt self.new result }
        ensures rest { self.new ≡ record self.old { side = self.new.side } }
    {
        let number = self.open_parts[place];
        self.space.look_at(&self.parts, number);
        number
    }

    /// Whether the part is swept.
    pub(crate) fn is_swept(&self, number: u32) -> bool
        requires { number < length self.now.parts }
        ensures { result ≡ (part_at self.now.parts number).swept }
    {
        self.parts[number as usize].swept
    }

    /// Sweeps a part that is looked at.
    pub(crate) fn sweep(&mut self, number: u32)
        requires looks { LooksAt self.old number }
        requires listed { Contains self.old.open_parts number }
        requires unswept { (part_at self.old.parts number).swept ≡ false }
        ensures instance { self.new.instance ≡ self.old.instance }
        ensures open_parts { self.new.open_parts ≡ self.old.open_parts }
        ensures count { length self.new.parts ≡ length self.old.parts }
        ensures fewer { unswept_count self.new.parts + 1 ≡ unswept_count self.old.parts }
    {
        let near = near(&self.hints, number);
        let swept = self.space.sweep(&near, &mut self.incumbent);
        keep_near(&mut self.hints, number, &swept.m);
        lower(&mut self.parts, number, swept);
    }

    /// A node to split a part at that is looked at.
    pub(crate) fn find_node(&mut self, number: u32) -> Option<Candidate>
        ensures none { IfNone result (HasNoNode self.old.instance.trees self.old.side) }
        ensures some { IfSome result
            (λ node. IsSplitNode self.old.instance.trees self.old.side node.bidder node.node) }
        ensures same { self.new ≡ self.old }
    {
        let value = self.incumbent.value;
        if let Some(candidate) = most_promising(
            &self.hints,
            &self.plan,
            number,
            &mut self.space,
            value,
        ) {
            if self.space.splits(candidate) {
                return Some(candidate);
            }
        }
        self.space.find_node()
    }

    /// Looks for a better assignment below a part that is looked at, where no branch is left. The
    /// parts stay.
    pub(crate) fn dive(&mut self, alloc: Global, number: u32) -> Result<(), AllocError>
        requires { LooksAt self.old number }
        ensures instance { self.new.instance ≡ self.old.instance }
        ensures parts { self.new.parts ≡ self.old.parts }
        ensures open_parts { self.new.open_parts ≡ self.old.open_parts }
    {
        let mut finds = self.space.finds(alloc, &self.incumbent)?;
        let from = self.parts[number as usize].m.copy();
        self.space
            .dive_from(&self.parts, &self.hints, number, &from, &mut finds);
        self.space.consider(&finds.sets, &mut self.incumbent);
        Ok(())
    }

    /// Takes over an assignment, where there is one that is feasible, meets the start and is worth
    /// more than the best so far. The parts stay.
    pub(crate) fn offer_some(&mut self, sets: &Option<Assignment>)
        ensures instance { self.new.instance ≡ self.old.instance }
        ensures parts { self.new.parts ≡ self.old.parts }
    {
        let Some(sets) = sets else {
            return;
        };
        self.space.consider(sets, &mut self.incumbent);
    }

    /// Closes a swept part that is looked at and has no node to be split at.
    pub(crate) fn close(&mut self, place: usize, number: u32)
        requires place { place < length self.old.open_parts }
        requires number { number ≡ slice_index self.old.open_parts place }
        requires looks { LooksAt self.old number }
        requires swept { (part_at self.old.parts number).swept ≡ true }
        requires none { HasNoNode self.old.instance.trees self.old.side }
        // The parts stay, and one fewer is open.
        ensures instance { self.new.instance ≡ self.old.instance }
        ensures parts { self.new.parts ≡ self.old.parts }
        ensures fewer { length self.new.open_parts + 1 ≡ length self.old.open_parts }
    {
        self.space.offer(&mut self.incumbent);
        take_out(&mut self.open_parts, place);
    }

    /// Splits the next part, which is looked at.
    pub(crate) fn split(
        &mut self,
        place: usize,
        number: u32,
        node: Candidate,
    ) -> Result<(), AllocError>
        requires place { place < length self.old.open_parts }
        requires number { number ≡ slice_index self.old.open_parts place }
        requires looks { LooksAt self.old number }
        requires next { IsNext self.old.parts self.old.value number }
        requires node { IsSplitNode self.old.instance.trees self.old.side node.bidder node.node }
        requires few { length self.old.parts < 1000000 }
        ensures instance { self.new.instance ≡ self.old.instance }
        // On success
        ensures count { OnOk result (length self.new.parts ≡ length self.old.parts + 2) }
        ensures unswept { OnOk result (unswept_count self.new.parts
            ≡ unswept_count self.old.parts + 2) }
        ensures open_parts { OnOk result
            (length self.new.open_parts ≤ length self.old.open_parts + 1) }
    {
        self.parts.reserve(2)?;
        self.hints.reserve(2)?;
        self.open_parts.reserve(2)?;
        let from = self.parts[number as usize].m.copy();
        let Children { must, never } = self
            .space
            .polish_children(node, &from, &mut self.incumbent, CHILD_STEPS);
        let first = self.parts.len() as u32;
        let must_fate = fate_of(&must.bounded, &self.incumbent);
        let never_fate = fate_of(&never.bounded, &self.incumbent);
        open_children(&mut self.open_parts, place, first, must_fate, never_fate);
        let places = places_below(&self.hints, &self.plan, number, &self.space, node);
        push_hints(
            &mut self.hints,
            number,
            places,
            must.candidates,
            never.candidates,
        );
        push_children(&mut self.parts, number, node, must.bounded, never.bounded);
        Ok(())
    }
}
