//! A walk through a log, step by step.
ghost use Rattle.std.specs.Prelude.{◌≡◌, ◌<◌, ◌≤◌, ◌↔◌, [], ◌∷◌, length, sum, IsTrue, IfOk, OnOk, IfErr, OnErr};
ghost use Rattle.ice_defs.specs.Bound.{Multipliers};
ghost use Rattle.ice_defs.specs.Steps.{leaf, sides_after};
ghost use Rattle.ice_defs.specs.Conditions.{AreWeightsOf};
ghost use Rattle.ice_refute.specs.Code.{step_of, CountsGoods};
ghost use Rattle.ice_refute.specs.Passing.{PassesAt, HasFault};
ghost use Rattle.ice_refute.specs.Waiting.{nodes_of, first_side};

use crate::fault::StepFault;
use crate::judge::judge;
use crate::sides::{advance, leave};
use crate::step::Step;
use ice_best::Fixings;
use ice_bound::{Desk, copy_fixings};
use ice_tree::{AllWeights, Tree};
use std::alloc::{AllocError, Global};
use std::marker::Model;

/// A walk through the steps of a log, which need not lie in memory. It is seen as the list of its
/// open sides, the next one first, and the numbers of nodes of the trees that it is made for. At
/// most 2,001 sides are ever open.
#[derive(Drop)]
pub struct Walk {
    marks: Fixings,
    branches: Vec<(u8, u16)>,
    is_open: bool,
}

impl Model for Walk {
    ghost use Rattle.std.specs.Prelude.{◌≤◌, sum, vec_capacity};
    ghost use Rattle.ice_refute.specs.Waiting.{WalkView, open_sides, nodes_of, AreKept};

    ghost Value = { WalkView };

    ghost view = { λ w. record { sides = open_sides w.is_open w.marks w.branches.items; nodes = nodes_of w.marks } };

    ghost invariant = { λ w. record { kept : AreKept w.marks w.branches.items; few : sum (nodes_of w.marks) ≤ 2000; room : 2000 ≤ vec_capacity w.branches } };
}

impl Walk {
    /// A walk for these trees, with no open side. The trees have at most 2,000 nodes together.
    /// Takes all the memory that the walk needs.
    pub fn new(alloc: Global, trees: &[Tree]) -> Result<Walk, AllocError>
        requires { sum (nodes_of trees.now) ≤ 2000 }
        ensures closed { IfOk result (λ walk. walk.sides ≡ []) }
        ensures nodes { IfOk result (λ walk. walk.nodes ≡ nodes_of trees.now) }
    {
        let marks = Fixings::free(alloc, trees)?;
        let branches = Vec::with_capacity(alloc, 2000)?;
        Ok(Walk {
            marks,
            branches,
            is_open: false,
        })
    }

    /// Leaves the start as the one open side. Takes no memory.
    pub fn begin(&mut self, start: &Fixings)
        requires few { length start.now ≤ 40 }
        requires nodes { nodes_of start.now ≡ self.old.nodes }
        ensures side { self.new.sides ≡ start.now ∷ [] }
        ensures nodes { self.new.nodes ≡ self.old.nodes }
    {
        self.branches.clear();
        copy_fixings(&mut self.marks, start);
        self.is_open = true;
    }

    /// Takes the next step, at the first open side. A branch that passes puts its Must side and
    /// then its Never side in the place of that side; a leaf or a dead step that passes takes it
    /// away. A step at fault changes nothing.
    ///
    /// A side is open, a leaf has one multiplier per good, and weights are at most 100,000,000,000
    /// in size. Takes no memory.
    pub fn step(
        &mut self,
        trees: &[Tree],
        weights: &AllWeights,
        target: i128,
        step: &Step,
        desk: &mut Desk,
    ) -> Result<(), StepFault>
        requires few { length trees.now ≤ 40 }
        requires weights { AreWeightsOf trees.now weights.now }
        requires nodes { self.old.nodes ≡ nodes_of trees.now }
        requires opened { 0 < length self.old.sides }
        requires goods { CountsGoods (length desk.old.room) (step_of step.now) }
        // What comes of it
        ensures ok { OnOk result (PassesAt trees.now desk.old.room weights.now target
            (first_side self.old.sides) (step_of step.now)) }
        ensures sides { OnOk result (self.new.sides
            ≡ sides_after self.old.sides (step_of step.now)) }
        ensures fault { IfErr result (HasFault trees.now desk.old.room weights.now target
            (first_side self.old.sides) (step_of step.now)) }
        ensures few { OnOk result (length self.new.sides ≤ 2001) }
        ensures unchanged { OnErr result (self.new ≡ self.old) }
        // Either way
        ensures nodes { self.new.nodes ≡ self.old.nodes }
        ensures exact { desk.new.room ≡ desk.old.room }
        ensures marks { desk.new.marks ≡ desk.old.marks }
    {
        judge(trees, weights, target, step, &self.marks, &mut desk.room)?;
        self.is_open = advance(step, &mut self.marks, &mut self.branches);
        Ok(())
    }

    /// The first open side.
    pub fn side(&self) -> &Fixings
        requires { 0 < length self.now.sides }
        ensures side { result.now ≡ first_side self.now.sides }
        ensures nodes { nodes_of result.now ≡ self.now.nodes }
    {
        &self.marks
    }

    /// Takes the first open side away, as a leaf does that passes. Takes no memory.
    pub fn leave(&mut self)
        requires { 0 < length self.old.sides }
        ensures sides { (m : Multipliers) → self.new.sides ≡ sides_after self.old.sides (leaf m) }
        ensures few { length self.new.sides ≤ 2001 }
        ensures nodes { self.new.nodes ≡ self.old.nodes }
    {
        self.is_open = leave(&mut self.marks, &mut self.branches);
    }

    /// Whether no side is open.
    pub fn is_closed(&self) -> bool
        ensures { IsTrue result ↔ (self.now.sides ≡ []) }
    {
        !self.is_open
    }
}
