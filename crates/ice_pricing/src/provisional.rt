//! A provisional trade.
ghost use Rattle.std.specs.Prelude.{◌≡◌, ◌*◌, ◌^◌, ◌<◌, length, pos, neg_ℤ, ◌≤ℤ◌, ◌-ℤ◌};
ghost use Rattle.ice_defs.specs.Exchange.{trees_of};
ghost use Rattle.ice_defs.specs.Set.{value};
ghost use Rattle.ice_defs.specs.Trade.{tree_of, set_of, weights_of};
ghost use Rattle.ice_tree.specs.Alike.{HasWeightPerNode};
ghost use Rattle.ice_row_laws.specs.Laws.{AreSatisfied};
ghost use Rattle.ice_certificate.specs.Excess.{IsGreatestExcess};
ghost use Rattle.ice_pricing.specs.Provisional.{AreModest, IsProvisional, provisional_of};
ghost use Rattle.ice_pricing.specs.Priced.{HasViolation};

use ice_certificate::{Excess, Scratch, best_excess, worth_above};
use ice_terms::Prices;
use ice_trade::Exchange;
use ice_tree::{AllWeights, Assignment, NodeSet, Tree, Weights};
use std::marker::Model;

/// A provisional trade, for which prices are sought: each bidder has a tree, weighted values of its
/// nodes, and a satisfied set of its own.
#[derive(Drop)]
pub struct Provisional<'a> {
    trees: &'a [Tree],
    weights: &'a AllWeights,
    sets: &'a Assignment,
    goods: u8,
    cap: i64,
}

impl<'a> Model for Provisional<'a> {
    ghost use Rattle.ice_pricing.specs.Provisional.{ProvisionalTrade, IsProvisional};

    ghost Value = { ProvisionalTrade };

    ghost view = { λ p. record {
      trees = p.trees.now;
      weights = p.weights.now;
      sets = p.sets.now;
      goods = p.goods;
      cap = p.cap;
    } };

    ghost invariant = { λ p. IsProvisional (record {
      trees = p.trees.now;
      weights = p.weights.now;
      sets = p.sets.now;
      goods = p.goods;
      cap = p.cap;
    }) };
}

impl<'a> Provisional<'a> {
    /// The trade in which each bidder of the exchange has its set. The weights are the nodes'
    /// weighted values, in hundredths, each at most 1,000,000,000,000 in size.
    pub fn of(
        exchange: &'a Exchange,
        weights: &'a AllWeights,
        sets: &'a Assignment,
    ) -> Provisional<'a>
        requires count { length sets.now ≡ length exchange.now.bidders }
        requires satisfied { AreSatisfied (trees_of exchange.now) sets.now }
        requires nodes { HasWeightPerNode (trees_of exchange.now) weights.now }
        requires modest { AreModest weights.now }
        ensures { result ≡ provisional_of exchange.now weights.now sets.now }
    {
        let _bidders = exchange.bidders();
        Provisional {
            trees: exchange.trees(),
            weights,
            sets,
            goods: exchange.goods(),
            cap: exchange.settings().cap,
        }
    }

    /// The number of bidders, 1 to 40.
    pub fn bidders(&self) -> u8
        ensures value { result ≡ length self.now.trees }
        ensures proper { IsProvisional self.now }
    {
        self.trees.len() as u8
    }

    /// The number of goods, 1 to 32.
    pub fn goods(&self) -> u8
        ensures value { result ≡ self.now.goods }
        ensures proper { IsProvisional self.now }
    {
        self.goods
    }

    /// The greatest price of a good.
    pub fn cap(&self) -> i64
        ensures value { result ≡ self.now.cap }
        ensures proper { IsProvisional self.now }
    {
        self.cap
    }

    /// The bidder's tree.
    pub fn tree(&self, bidder: u8) -> &Tree
        requires { bidder < length self.now.trees }
        ensures value { result.now ≡ tree_of self.now.trees bidder }
        ensures proper { IsProvisional self.now }
    {
        &self.trees[bidder as usize]
    }

    /// The weighted values of the bidder's nodes.
    pub fn weights(&self, bidder: u8) -> &Weights
        requires { bidder < length self.now.trees }
        ensures value { result.now ≡ weights_of self.now.weights bidder }
        ensures proper { IsProvisional self.now }
    {
        self.weights.of(bidder)
    }

    /// The bidder's own set.
    pub fn own(&self, bidder: u8) -> &NodeSet
        requires { bidder < length self.now.trees }
        ensures value { result.now ≡ set_of self.now.sets bidder }
        ensures proper { IsProvisional self.now }
    {
        self.sets.of(bidder)
    }

    /// What a set of the bidder is worth above its own, in hundredths.
    pub fn worth_above(&self, bidder: u8, set: &NodeSet) -> i128
        requires bidder { bidder < length self.now.trees }
        requires nodes { length set.now ≡ length (tree_of self.now.trees bidder) }
        ensures value { let t = self.now in result ≡ value set.now (weights_of t.weights bidder)
            -ℤ value (set_of t.sets bidder) (weights_of t.weights bidder) }
        ensures low { neg_ℤ (pos (2 ^ 49)) ≤ℤ result }
        ensures high { result ≤ℤ pos (2 ^ 49) }
    {
        worth_above(
            self.tree(bidder),
            self.weights(bidder),
            self.own(bidder),
            set,
        )
    }

    /// By how much a best set of the bidder at the prices beats its own, in hundredths and times
    /// the prices' denominator, and such a set. Takes no memory.
    pub fn best(&self, bidder: u8, prices: &Prices, scratch: &mut Scratch) -> Excess
        requires { bidder < length self.now.trees }
        ensures greatest { let t = self.now in
            IsGreatestExcess (tree_of t.trees bidder) (weights_of t.weights bidder) prices.now
            (set_of t.sets bidder) result.set result.amount }
        ensures low { neg_ℤ (pos (400 * 2 ^ 90)) ≤ℤ result.amount }
        ensures high { result.amount ≤ℤ pos (400 * 2 ^ 90) }
    {
        best_excess(
            self.tree(bidder),
            self.weights(bidder),
            self.own(bidder),
            prices,
            scratch,
        )
    }

    /// The violation of the prices: the most by which a satisfied set of any bidder beats the
    /// bidder's own, in hundredths and times the prices' denominator. It is never below 0. Takes no
    /// memory.
    pub fn violation(&self, prices: &Prices, scratch: &mut Scratch) -> i128
        ensures violation { HasViolation self.now prices.now result }
        ensures low { pos 0 ≤ℤ result }
        ensures high { result ≤ℤ pos (400 * 2 ^ 90) }
    {
        let mut greatest = 0;
        for bidder in 0..self.bidders() {
            let amount = self.best(bidder, prices, scratch).amount;
            if amount > greatest {
                greatest = amount;
            }
        }
        greatest
    }
}
