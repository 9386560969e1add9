//! The logs of a journal's groups, walked step by step.
ghost use Rattle.std.specs.Prelude.{◌≡◌, ◌<◌, ◌≤◌, ◌↔◌, [], ◌∷◌, length, replicate, pos, IsTrue, Some, IfOk, OnOk, IfErr};
ghost use Rattle.ice_defs.specs.Exchange.{trees_of, exact_of};
ghost use Rattle.ice_defs.specs.Lawful.{IsExchange};
ghost use Rattle.ice_defs.specs.Group.{group_weights};
ghost use Rattle.ice_defs.specs.Conditions.{AreBoundsOf};
ghost use Rattle.ice_tree.specs.Alike.{HasSetPerTree};
ghost use Rattle.ice_refute.specs.Code.{step_of, CountsGoods};
ghost use Rattle.ice_refute.specs.Waiting.{nodes_of};
ghost use Rattle.ice_journal.specs.Lines.{record_of, version_of};
ghost use Rattle.ice_journal.specs.Ranges.{IsRecord};
ghost use Rattle.ice_defs.specs.Steps.{sides_after, with_mark};
ghost use Rattle.ice_journal_laws.specs.Fields.{multipliers_after};
ghost use Rattle.ice_check_records.specs.Logs.{IsWalkOf, start_side, CanStart, IsStepOf, HasSameWalk, PassesThere, FailsThere, GoesOn, BreaksOff};
ghost use Rattle.ice_journal_laws.specs.Stepping.{rule_of_fault};

use crate::steps_in::{misstates, step_in};
use ice_best::Fixings;
use ice_bound::{Desk, Multipliers};
use ice_defs::{Group, Mark};
use ice_journal::{Line, Version};
use ice_journal_laws::Rule;
use ice_refute::{Step, StepFault, Walk};
use ice_trade::Exchange;
use ice_tree::{AllWeights, Assignment, Bounds, Tree};
use std::alloc::{AllocError, Global};

/// What a log is walked with: the weights of its group, the side that it begins with, where the
/// walk has come, and the multipliers of the leaf before.
pub(crate) struct LogWalk {
    pub(crate) weights: AllWeights,
    start: Fixings,
    walk: Walk,
    desk: Desk,
    before: Multipliers,
}

// By hand, so that each exit that drops one has one call to prove, and not all its parts.
impl Drop for LogWalk {
    fn drop(self) {
        let LogWalk {
            weights: _,
            start: _,
            walk: _,
            desk: _,
            before: _,
        } = self;
    }
}

/// The rule of a step's fault.
fn rule_of(fault: StepFault) -> Rule
    ensures { result ≡ rule_of_fault fault }
{
    match fault {
        StepFault::Fixed => Rule::Fixed,
        StepFault::Sign => Rule::Sign,
        StepFault::Above { .. } => Rule::Above,
        StepFault::NotDead => Rule::Alive,
    }
}

impl LogWalk {
    /// No log yet, at the lower values of the exchange, with the memory for all its logs.
    pub(crate) fn new(alloc: Global, exchange: &Exchange) -> Result<LogWalk, AllocError>
        ensures { IfOk result (IsWalkOf (trees_of exchange.now) (exact_of exchange.now)) }
    {
        let trees = exchange.trees();
        let exact = exchange.exact();
        let mut weights = AllWeights::new(alloc, trees)?;
        weights.fill_lower(exchange.bounds());
        Ok(LogWalk {
            weights,
            start: Fixings::free(alloc, trees)?,
            walk: Walk::new(alloc, trees)?,
            desk: Desk::new(alloc, trees, exact)?,
            before: Multipliers::zero(exact.len() as u8),
        })
    }

    /// Changes the weights to those of a group at these bounds, where the final sets are these if
    /// they matter.
    pub(crate) fn weigh(
        &mut self,
        exchange: &Exchange,
        bounds: &[Bounds],
        group: Group,
        final_sets: &Assignment,
    )
        requires lawful { IsExchange exchange.now }
        requires walk { IsWalkOf (trees_of exchange.now) (exact_of exchange.now) self.old }
        requires bounds { AreBoundsOf (trees_of exchange.now) bounds.now }
        requires room { HasSetPerTree (trees_of exchange.now) final_sets.now }
        ensures walk { IsWalkOf (trees_of exchange.now) (exact_of exchange.now) self.new }
        ensures weights { self.new.weights
            ≡ group_weights exchange.now.settings.weight bounds.now final_sets.now group }
    {
        match group {
            Group::Rival => self.weights.fill_perturbed(bounds, final_sets),
            Group::Provisional => self
                .weights
                .fill_weighted(bounds, exchange.settings().weight),
            Group::Assign | Group::Final | Group::Without { .. } => {
                self.weights.fill_lower(bounds);
            }
        }
    }

    /// Begins the log of a group.
    pub(crate) fn begin(&mut self, group: Group)
        requires few { length self.old.start ≤ 40 }
        requires nodes { nodes_of self.old.start ≡ self.old.walk.nodes }
        requires starts { CanStart self.old.start group }
        ensures sides { self.new.walk.sides ≡ start_side self.old.start group ∷ [] }
        ensures before { self.new.before ≡ replicate (length self.old.before) (pos 0) }
        ensures same { HasSameWalk self.old self.new }
    {
        match group {
            Group::Without { bidder } => self.begin_without(bidder),
            _ => self.walk.begin(&self.start),
        }
        self.before = Multipliers::zero(self.before.len());
    }

    /// Leaves the side without this bidder as the one open side.
    fn begin_without(&mut self, bidder: u8)
        requires few { length self.old.start ≤ 40 }
        requires nodes { nodes_of self.old.start ≡ self.old.walk.nodes }
        requires starts { CanStart self.old.start (Group.Without bidder) }
        ensures sides { self.new.walk.sides ≡ with_mark self.old.start bidder 0 Mark.Never ∷ [] }
        ensures before { self.new.before ≡ self.old.before }
        ensures same { HasSameWalk self.old self.new }
    {
        self.start.mark(bidder, 0, Mark::Never);
        self.walk.begin(&self.start);
        self.start.mark(bidder, 0, Mark::Free);
    }

    /// Whether the log has closed all its sides.
    pub(crate) fn is_closed(&self) -> bool
        ensures { IsTrue result ↔ (self.now.walk.sides ≡ []) }
    {
        self.walk.is_closed()
    }

    /// Walks a step.
    fn step(&mut self, trees: &[Tree], target: i128, step: Step) -> Result<(), Rule>
        requires walk { IsWalkOf trees.now self.old.desk.room self.old }
        requires few { length trees.now ≤ 40 }
        requires opened { 0 < length self.old.walk.sides }
        requires goods { CountsGoods (length self.old.before) (step_of step) }
        // Where it passes
        ensures passes { OnOk result (PassesThere trees.now target self.old (step_of step)) }
        ensures sides { OnOk result
            (self.new.walk.sides ≡ sides_after self.old.walk.sides (step_of step)) }
        ensures before { OnOk result
            (self.new.before ≡ multipliers_after self.old.before (step_of step)) }
        // Where it fails
        ensures fault { IfErr result (FailsThere trees.now target self.old (step_of step)) }
        // Either way
        ensures same { HasSameWalk self.old self.new }
        ensures goods { length self.new.before ≡ length self.old.before }
    {
        if let Err(fault) = self
            .walk
            .step(trees, &self.weights, target, &step, &mut self.desk)
        {
            return Err(rule_of(fault));
        }
        if let Step::Leaf { m } = step {
            self.before = m;
        }
        Ok(())
    }

    /// Takes the next record of the log, which states this step.
    fn take_step(
        &mut self,
        trees: &[Tree],
        target: i128,
        version: Version,
        line: &Line,
        step: Step,
    ) -> Result<(), Rule>
        requires walk { IsWalkOf trees.now self.old.desk.room self.old }
        requires few { length trees.now ≤ 40 }
        requires opened { 0 < length self.old.walk.sides }
        requires stated { IsStepOf (Some step) (version_of version) self.old.before
            (record_of line.now) }
        ensures passes { OnOk result
            (GoesOn trees.now target (version_of version) self.old (record_of line.now) self.new) }
        ensures fails { IfErr result
            (BreaksOff trees.now target (version_of version) self.old (record_of line.now)) }
        // Either way
        ensures walk { IsWalkOf trees.now self.old.desk.room self.new }
        ensures weights { self.new.weights ≡ self.old.weights }
    {
        if misstates(version, &self.before, line) {
            return Err(Rule::Near);
        }
        self.step(trees, target, step)
    }

    /// Takes the next record of the log, of a journal of this version, where no feasible sets are
    /// to be worth more than the target. It answers the first test that the record fails.
    pub(crate) fn take(
        &mut self,
        trees: &[Tree],
        target: i128,
        version: Version,
        line: &Line,
    ) -> Result<(), Rule>
        requires lawful { IsRecord (record_of line.now) }
        requires walk { IsWalkOf trees.now self.old.desk.room self.old }
        requires few { length trees.now ≤ 40 }
        requires opened { 0 < length self.old.walk.sides }
        ensures passes { OnOk result
            (GoesOn trees.now target (version_of version) self.old (record_of line.now) self.new) }
        ensures fails { IfErr result
            (BreaksOff trees.now target (version_of version) self.old (record_of line.now)) }
        // Either way
        ensures walk { IsWalkOf trees.now self.old.desk.room self.new }
        ensures weights { self.new.weights ≡ self.old.weights }
    {
        match step_in(version, &self.before, line) {
            Some(step) => self.take_step(trees, target, version, line, step),
            None => Err(Rule::Order),
        }
    }
}
