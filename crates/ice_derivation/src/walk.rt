//! A walk through logs whose leaves have tolls on derived goods.
ghost use Rattle.std.specs.Prelude.{◌≡◌, ◌<◌, ◌≤◌, ◌↔◌, [], length, sum, slice_set, slice_index_or, pos, IsTrue, IfOk, IfErr, IfSome, IfNone, OnOk, OnErr};
ghost use Rattle.ice_defs.specs.Conditions.{AreWeightsOf};
ghost use Rattle.ice_defs.specs.Steps.{leaf, sides_after};
ghost use Rattle.ice_refute.specs.Code.{step_of, CountsGoods};
ghost use Rattle.ice_refute.specs.Passing.{PassesAt, HasFault};
ghost use Rattle.ice_refute.specs.Waiting.{nodes_of, first_side};
ghost use Rattle.ice_derived.specs.Ranges.{IsLimit, IsToll};
ghost use Rattle.ice_derived.specs.Weighing.{weights_in};
ghost use Rattle.ice_derivation.specs.Numbers.{changed, IsNoChange, HasNoChange, AreTolls};
ghost use Rattle.ice_derivation.specs.Walks.{new_walk, begun, stepped, with_one, PassesIn, FailsLeaf};

use crate::fault::Fault;
use ice_best::Fixings;
use ice_bound::Desk;
use ice_derived::{Amounts, DerivedGoods, Rates, TollRoom, Weighing, take_leaf};
use ice_journal::Numbered;
use ice_refute::{Step, StepFault, Walk};
use ice_tree::{AllWeights, Tree};
use std::alloc::{AllocError, Global};
use std::marker::Model;

/// A walk through the steps of logs, one log after another, with the derived goods that leaves may
/// have tolls on. It is seen as these, the numbers of the leaf before, which are a multiplier for
/// each good and then a toll for each derived good, and the open sides, the next one first.
#[derive(Drop)]
pub struct TollWalk {
    derived: DerivedGoods,
    rates: Rates,
    walk: Walk,
    desk: Desk,
    toll_room: TollRoom,
}

impl Model for TollWalk {
    ghost use Rattle.std.specs.Prelude.{◌≡◌, ◌++◌, length};
    ghost use Rattle.ice_derivation.specs.Walks.{WalkView};

    ghost Value = { WalkView };

    ghost view = { λ w. record { derived = w.derived.goods; most = w.derived.most; nodes = w.walk.nodes; exact = w.desk.room; numbers = w.rates ++ w.derived.tolls; sides = w.walk.sides } };

    ghost invariant = { λ w. record { rates : length w.rates ≡ length w.desk.room; tolls : length w.derived.tolls ≡ length w.derived.goods; nodes : w.derived.nodes ≡ w.walk.nodes } };
}

impl TollWalk {
    /// No derived good yet, room for at most so many, and no log. There are at most 40 trees with
    /// at most 2,000 nodes together, one truth value for each of at most 32 goods, and at most
    /// 2,000 derived goods. Takes all the memory that the walk needs.
    pub fn new(
        alloc: Global,
        trees: &[Tree],
        exact: &[bool],
        most: u16,
    ) -> Result<TollWalk, AllocError>
        requires few { length trees.now ≤ 40 }
        requires nodes { sum (nodes_of trees.now) ≤ 2000 }
        requires goods { length exact.now ≤ 32 }
        requires most { most ≤ 2000 }
        ensures { IfOk result (λ w. w ≡ new_walk trees.now exact.now most) }
    {
        Ok(TollWalk {
            derived: DerivedGoods::with_room(alloc, trees, most)?,
            rates: Rates::zero(exact.len() as u8),
            walk: Walk::new(alloc, trees)?,
            desk: Desk::new(alloc, trees, exact)?,
            toll_room: TollRoom::new(),
        })
    }

    /// The number at this place of the leaf before, and None past the last one.
    pub fn number(&self, place: u16) -> Option<i64>
        ensures some { IfSome result (λ z. (place < length self.now.numbers)
            × (z ≡ slice_index_or self.now.numbers place (pos 0))) }
        ensures none { IfNone result (length self.now.numbers ≤ place) }
    {
        let goods = u16::from(self.rates.len());
        if place < goods {
            Some(self.rates.get(place as u8))
        } else if place - goods < self.derived.len() {
            Some(self.derived.toll(place - goods))
        } else {
            None
        }
    }

    /// Changes the number at this place, if there is one.
    fn put(&mut self, place: u16, number: i64)
        requires { IsToll number }
        ensures { self.new ≡ record self.old {
          numbers = slice_set self.old.numbers place number;
        } }
    {
        let goods = u16::from(self.rates.len());
        if place < goods {
            self.rates.put(place as u8, number);
        } else if place - goods < self.derived.len() {
            self.derived.put_toll(place - goods, number);
        }
    }

    /// Whether a change names a number that isn't there, or states the one that is there.
    fn has_no_change(&self, changes: &[Numbered]) -> bool
        ensures { IsTrue result ↔ HasNoChange self.now.numbers changes.now }
    {
        changes.iter().any(|change| self.is_no_change(*change))
    }

    /// Whether the change names a number that isn't there, or states the one that is there.
    fn is_no_change(&self, change: Numbered) -> bool
        ensures { IsTrue result ↔ IsNoChange self.now.numbers change }
    {
        match self.number(change.number) {
            Some(number) => number == change.amount,
            None => true,
        }
    }

    /// Makes these changes, one after another.
    fn change(&mut self, changes: &[Numbered])
        requires { AreTolls changes.now }
        ensures { self.new ≡ record self.old {
          numbers = changed self.old.numbers changes.now;
        } }
    {
        for change in changes {
            self.put(change.number, change.amount);
        }
    }

    /// Begins a log at this side, with each number 0. Takes no memory.
    pub fn begin(&mut self, start: &Fixings)
        requires few { length start.now ≤ 40 }
        requires nodes { nodes_of start.now ≡ self.old.nodes }
        ensures { self.new ≡ begun self.old start.now }
    {
        self.walk.begin(start);
        self.rates = Rates::zero(self.rates.len());
        self.derived.clear_tolls();
    }

    /// Takes a leaf at the first open side, which changes these numbers of the leaf before. At the
    /// fault `Near` nothing changes, and at another one only numbers do.
    ///
    /// A side is open, changes are at most 2^62 in size, and weights at most 100,000,000,000. Takes
    /// no memory.
    pub fn leaf(
        &mut self,
        trees: &[Tree],
        weighing: &Weighing,
        target: i128,
        changes: &[Numbered],
    ) -> Result<(), Fault>
        requires few { length trees.now ≤ 40 }
        requires weights { AreWeightsOf trees.now (weights_in weighing.now) }
        requires nodes { self.old.nodes ≡ nodes_of trees.now }
        requires opened { 0 < length self.old.sides }
        requires range { AreTolls changes.now }
        // Where it passes
        ensures near { OnOk result (¬ HasNoChange self.old.numbers changes.now) }
        ensures passes { OnOk result (PassesIn trees.now (weights_in weighing.now) target self.old
            (leaf (changed self.old.numbers changes.now))) }
        ensures walk { OnOk result
            (self.new ≡ stepped self.old (leaf (changed self.old.numbers changes.now))) }
        // Where it fails
        ensures fault { IfErr result
            (FailsLeaf trees.now (weights_in weighing.now) target self.old changes.now) }
        ensures same { OnErr result
            (self.new ≡ record self.old { numbers = self.new.numbers }) }
        ensures numbers { length self.new.numbers ≡ length self.old.numbers }
    {
        if self.has_no_change(changes) {
            return Err(Fault::Near);
        }
        self.change(changes);
        take_leaf(
            &mut self.walk,
            trees,
            weighing,
            &self.derived,
            target,
            &self.rates,
            &self.desk.room,
            &mut self.toll_room,
        )?;
        Ok(())
    }

    /// Takes a step by goods alone at the first open side, as `Walk` does: a branch, a dead step,
    /// or a leaf of multipliers in 64ths. The numbers of the leaf before stay. At fault nothing
    /// changes.
    ///
    /// A side is open, a leaf has one multiplier per good, and weights are at most 100,000,000,000
    /// in size. Takes no memory.
    pub fn step(
        &mut self,
        trees: &[Tree],
        weights: &AllWeights,
        target: i128,
        step: &Step,
    ) -> Result<(), StepFault>
        requires few { length trees.now ≤ 40 }
        requires weights { AreWeightsOf trees.now weights.now }
        requires nodes { self.old.nodes ≡ nodes_of trees.now }
        requires opened { 0 < length self.old.sides }
        requires goods { CountsGoods (length self.old.exact) (step_of step.now) }
        ensures passes { OnOk result (PassesAt trees.now self.old.exact weights.now target
            (first_side self.old.sides) (step_of step.now)) }
        ensures walk { OnOk result (self.new
            ≡ record self.old { sides = sides_after self.old.sides (step_of step.now) }) }
        ensures fault { IfErr result (HasFault trees.now self.old.exact weights.now target
            (first_side self.old.sides) (step_of step.now)) }
        ensures unchanged { OnErr result (self.new ≡ self.old) }
    {
        self.walk.step(trees, weights, target, step, &mut self.desk)
    }

    /// Whether the log has closed all its sides.
    pub fn is_closed(&self) -> bool
        ensures { IsTrue result ↔ (self.now.sides ≡ []) }
    {
        self.walk.is_closed()
    }

    /// Whether as many derived goods stand as may stand.
    pub fn is_full(&self) -> bool
        ensures { IsTrue result ↔ (self.now.most ≤ length self.now.derived) }
    {
        self.derived.len() == self.derived.most()
    }

    /// The derived good stands from here on, with toll 0. There is room for it. Takes no memory.
    pub(crate) fn push(&mut self, amounts: &Amounts, limit: i64)
        requires nodes { nodes_of amounts.now ≡ self.old.nodes }
        requires room { length self.old.derived < self.old.most }
        requires limit { IsLimit limit }
        ensures { self.new ≡ with_one self.old (record { amounts = amounts.now; limit = limit }) }
    {
        self.derived.push(amounts, limit);
    }
}
