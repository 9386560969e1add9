//! The sets that a journal states.
ghost use Rattle.std.specs.Prelude.{◌≡◌, ◌<◌, ◌≤◌, ℕ, [], length, IfOk, IsTrue, ◌↔◌};
ghost use Rattle.ice_defs.specs.Exchange.{trees_of};
ghost use Rattle.ice_defs.specs.Lawful.{IsExchange};
ghost use Rattle.ice_defs.specs.Conditions.{AreWeightsOf};
ghost use Rattle.ice_check_records.specs.Stating.{next_tree, with_next, SatisfiesNext, IsBalance};
ghost use Rattle.ice_tree.specs.Alike.{HasSetPerTree};
ghost use Rattle.ice_defs.specs.Set.{IsSatisfied};
ghost use Rattle.ice_defs.specs.Trade.{total_value, tree_of, set_of};

use ice_trade::Exchange;
use ice_tree::{AllWeights, Assignment, NodeSet, Tree};
use std::alloc::{AllocError, Global};
use std::marker::Model;
use std::mem;

/// An exchange, and the sets that are stated for its first bidders.
pub(crate) struct Stated {
    exchange: Exchange,
    sets: Assignment,
    taken: u8,
}

// By hand, so that each exit that drops one has one call to prove, and not all its parts.
impl Drop for Stated {
    fn drop(self) {
        let Stated {
            exchange: _,
            sets: _,
            taken: _,
        } = self;
    }
}

impl Model for Stated {
    ghost use Rattle.std.specs.Prelude.{take};
    ghost use Rattle.ice_check_records.specs.Stating.{Stating, AreStated};

    ghost Value = { Stating };

    ghost view = { λ a. record { exchange = a.exchange; sets = take a.taken a.sets } };

    ghost invariant = { λ a. AreStated a.exchange a.sets a.taken };
}

impl Stated {
    /// No set yet, with the memory for all.
    pub(crate) fn new(alloc: Global, exchange: Exchange) -> Result<Stated, AllocError>
        ensures made { IfOk result (λ s. s ≡ record { exchange = exchange; sets = [] }) }
        ensures few { IfOk result (λ _. length (trees_of exchange) ≤ 40) }
    {
        let sets = Assignment::empty(alloc, exchange.trees())?;
        Ok(Stated {
            exchange,
            sets,
            taken: 0,
        })
    }

    /// The tree of the bidder whose set comes next.
    pub(crate) fn tree(&self) -> &Tree
        requires { length self.now.sets < length (trees_of self.now.exchange) }
        ensures { result.now ≡ next_tree self.now }
    {
        &self.exchange.trees()[self.taken as usize]
    }

    /// One more set.
    pub(crate) fn put(&mut self, set: &NodeSet)
        requires room { length self.old.sets < length (trees_of self.old.exchange) }
        requires satisfied { SatisfiesNext self.old set.now }
        ensures { self.new ≡ with_next self.old set.now }
    {
        self.sets.put(self.taken, set);
        self.taken += 1;
    }

    /// Whether each bidder has its set.
    pub(crate) fn is_full(&self) -> bool
        ensures { IsTrue result ↔ (length self.now.sets ≡ length (trees_of self.now.exchange)) }
    {
        usize::from(self.taken) == self.sets.len()
    }

    /// Whether the sets leave no good short, where each bidder has one.
    pub(crate) fn are_balanced(&self) -> bool
        requires { length self.now.sets ≡ length (trees_of self.now.exchange) }
        ensures { IsBalance self.now result }
    {
        self.exchange.feasible(&self.sets).is_ok()
    }

    /// The exchange.
    pub(crate) fn exchange(&self) -> &Exchange
        ensures { result.now ≡ self.now.exchange }
    {
        &self.exchange
    }

    /// The trees of the bidders.
    pub(crate) fn trees(&self) -> &[Tree]
        ensures value { result.now ≡ trees_of self.now.exchange }
        ensures lawful { IsExchange self.now.exchange }
    {
        self.exchange.trees()
    }

    /// The value of the sets at weights, where each bidder has one.
    pub(crate) fn value_at(&self, weights: &AllWeights) -> i128
        requires full { length self.now.sets ≡ length (trees_of self.now.exchange) }
        requires weights { AreWeightsOf (trees_of self.now.exchange) weights.now }
        ensures { result ≡ total_value self.now.sets weights.now }
    {
        self.sets.value(self.exchange.trees(), weights)
    }

    /// How many bidders have their set.
    pub(crate) fn taken(&self) -> u8
        ensures { result ≡ length self.now.sets }
    {
        self.taken
    }

    /// The sets, where each bidder has one.
    pub(crate) fn sets(&self) -> &Assignment
        requires { length self.now.sets ≡ length (trees_of self.now.exchange) }
        ensures value { result.now ≡ self.now.sets }
        ensures satisfied { (b : ℕ) → b < length self.now.sets
            → IsSatisfied (tree_of (trees_of self.now.exchange) b) (set_of self.now.sets b) }
    {
        &self.sets
    }

    /// Drops the sets.
    pub(crate) fn clear(&mut self)
        ensures { self.new ≡ record { exchange = self.old.exchange; sets = [] } }
    {
        self.taken = 0;
    }

    /// The exchange, without the sets.
    pub(crate) fn into_exchange(self) -> Exchange
        ensures { result ≡ self.exchange }
    {
        let Stated {
            exchange,
            sets: _,
            taken: _,
        } = self;
        exchange
    }

    /// Hands over the sets, of which each bidder has one, for room for new ones.
    pub(crate) fn hand_over(&mut self, sets: &mut Assignment)
        requires full { length self.old.sets ≡ length (trees_of self.old.exchange) }
        requires room { HasSetPerTree (trees_of self.old.exchange) sets.old }
        ensures left { self.new ≡ record { exchange = self.old.exchange; sets = [] } }
        ensures sets { sets.new ≡ self.old.sets }
        ensures room { HasSetPerTree (trees_of self.old.exchange) sets.new }
    {
        mem::swap(&mut self.sets, sets);
        self.taken = 0;
    }
}
