//! What a search is asked.
ghost use Rattle.std.specs.Prelude.{◌≡◌, ◌≤◌, length, IfSome};
ghost use Rattle.ice_defs.specs.Exchange.{trees_of, exact_of};
ghost use Rattle.ice_defs.specs.Trade.{IsFeasible, MeetsAll, total_value};
ghost use Rattle.ice_defs.specs.Conditions.{AreWeightsOf, AreFixingsOf};
ghost use Rattle.ice_search.specs.Instance.{instance_of, IsInstance};

use crate::candidates::is_feasible;
use ice_best::Fixings;
use ice_trade::Exchange;
use ice_tree::{AllWeights, Assignment, Tree};
use std::marker::Model;

/// What a search is asked: for the best assignment of an exchange at these weights, of those that
/// are feasible and meet the marks to start from. One of these is known, and the search begins with
/// it.
#[derive(Drop)]
pub struct Problem<'a> {
    exchange: &'a Exchange,
    weights: &'a AllWeights,
    pub(crate) start: &'a Fixings,
    pub(crate) first: &'a Assignment,
}

impl<'a> Model for Problem<'a> {
    ghost use Rattle.ice_search.specs.Instance.{Instance, instance_of, IsInstance};

    ghost Value = { Instance };

    ghost view = { λ p. instance_of p.exchange.now p.weights.now p.start.now p.first.now };

    ghost invariant = { λ p. IsInstance (instance_of p.exchange.now p.weights.now p.start.now p.first.now) };
}

impl<'a> Problem<'a> {
    /// The weights and the marks are of the exchange's trees, and the first assignment is feasible
    /// and meets the marks. Weights are at most 100,000,000,000 in size.
    pub fn new(
        exchange: &'a Exchange,
        weights: &'a AllWeights,
        start: &'a Fixings,
        first: &'a Assignment,
    ) -> Problem<'a>
        requires weights { AreWeightsOf (trees_of exchange.now) weights.now }
        requires start { AreFixingsOf (trees_of exchange.now) start.now }
        requires feasible { IsFeasible (trees_of exchange.now) (exact_of exchange.now) first.now }
        requires meets { MeetsAll first.now start.now }
        ensures { result ≡ instance_of exchange.now weights.now start.now first.now }
    {
        // The exchange is a lawful one: it has at most 40 bidders, 32 goods and 2,000 nodes.
        let _bidders = exchange.bidders();
        Problem {
            exchange,
            weights,
            start,
            first,
        }
    }

    /// The same once more.
    pub(crate) fn again(&self) -> Problem<'a>
        ensures { result ≡ self.now }
    {
        Problem {
            exchange: self.exchange,
            weights: self.weights,
            start: self.start,
            first: self.first,
        }
    }

    /// The trees.
    pub(crate) fn trees(&self) -> &'a [Tree]
        ensures { result.now ≡ self.now.trees }
    {
        self.exchange.trees()
    }

    /// The weights.
    pub(crate) fn weights(&self) -> &'a AllWeights
        ensures { result.now ≡ self.now.weights }
    {
        self.weights
    }

    /// For each good whether what is bought of it must equal what is sold.
    pub(crate) fn exact(&self) -> &'a [bool]
        ensures { result.now ≡ self.now.exact }
    {
        self.exchange.exact()
    }

    /// The number of goods. The problem is a lawful one.
    pub fn goods(&self) -> u8
        ensures lawful { IsInstance self.now }
        ensures value { result ≡ length self.now.exact }
        ensures fits { result ≤ 32 }
    {
        self.exchange.goods()
    }

    /// What the assignment is worth, where it is feasible and meets the start.
    pub(crate) fn worth(&self, sets: &Assignment) -> Option<i128>
        ensures feasible { IfSome result (λ v. IsFeasible self.now.trees self.now.exact sets.now) }
        ensures meets { IfSome result (λ v. MeetsAll sets.now self.now.start) }
        ensures value { IfSome result (λ v. total_value sets.now self.now.weights ≡ v) }
    {
        if !is_feasible(self.exchange, self.start, sets) {
            return None;
        }
        Some(sets.value(self.exchange.trees(), self.weights))
    }
}
