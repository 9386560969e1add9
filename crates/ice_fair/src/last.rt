//! The last settlement of a closed session.
ghost use Rattle.std.specs.Prelude.{◌≡◌, ◌<◌, ◌≤◌, length, map, IfOk, IfErr};
ghost use Rattle.std.specs.List.{AllByRecursion};
ghost use Rattle.ice_fair.specs.Lasts.{IsLast, IsShortPayment, last_at, nums_of, trade_of};
ghost use Rattle.ice_fair.specs.Trades.{num_at, AreNumbers};
ghost use Rattle.ice_defs.specs.PricingRun.{num_over};
ghost use Rattle.ice_fair_laws.specs.Fair.{paid_of};
ghost use Rattle.ice_fair_laws.specs.Laws.{IsPaidTrade};
ghost use Rattle.ice_fair_laws.specs.Run.{IsCutDen};
ghost use Rattle.ice_fair_laws.specs.Whole.{ArePaidOver};
ghost use Rattle.ice_price.specs.Ends.{IsPriced, IsPriceEnd};
ghost use Rattle.ice_pricing.specs.Bounding.{AreBoundsOf};

use crate::low::low_bounds;
use ice_frac::Frac;
use ice_price::{PriceEnd, Pricing, price};
use ice_pricing::{Provisional, weighted_values};
use ice_trade::Exchange;
use ice_tree::{AllWeights, Assignment, Bounds};
use std::alloc::{AllocError, Global};
use std::marker::Model;

/// The last settlement of a closed session: the final sets of an exchange's bidders at low bounds,
/// and what each bidder pays.
pub struct Last {
    exchange: Exchange,
    bounds: Vec<Bounds>,
    sets: Assignment,
    weights: AllWeights,
    payments: Vec<Frac>,
    nums: Vec<i128>,
    cut: u16,
}

impl Model for Last {
    ghost use Rattle.std.specs.Prelude.{length};
    ghost use Rattle.ice_defs.specs.Exchange.{trees_of, exact_of};
    ghost use Rattle.ice_fair.specs.Lasts.{LastTrade};
    ghost use Rattle.ice_fair.specs.Kept.{IsKept};

    ghost Value = { LastTrade };

    ghost view = { λ l. record {
      exchange = l.exchange;
      paid = record {
        trees = trees_of l.exchange;
        weights = l.weights;
        sets = l.sets;
        goods = length (exact_of l.exchange);
        cap = l.exchange.settings.cap;
        payments = l.payments.items;
      };
      cut = l.cut;
    } };

    ghost invariant = { λ l. IsKept (record {
      exchange = l.exchange;
      paid = record {
        trees = trees_of l.exchange;
        weights = l.weights;
        sets = l.sets;
        goods = length (exact_of l.exchange);
        cap = l.exchange.settings.cap;
        payments = l.payments.items;
      };
      cut = l.cut;
    }) l.bounds.items l.nums.items };
}

// By hand, so that each exit that drops one has one call to prove, and not all its parts.
impl Drop for Last {
    fn drop(self) {
        let Last {
            exchange: _,
            bounds: _,
            sets: _,
            weights: _,
            payments: _,
            nums: _,
            cut: _,
        } = self;
    }
}

/// A payment of an exchange's bidder over a multiple of its denominator.
fn num_of(payment: &Frac, cut: u16) -> i128
    requires short { IsShortPayment payment.now }
    requires positive { 0 < cut }
    requires few { cut ≤ 1000 }
    ensures { result ≡ num_over cut payment.now }
{
    payment.num() * (u128::from(cut) / payment.den()) as i128
}

/// All payments over a multiple of their denominators.
fn nums_of(alloc: Global, payments: &[Frac], cut: u16) -> Result<Vec<i128>, AllocError>
    requires short { AllByRecursion IsShortPayment payments.now }
    requires positive { 0 < cut }
    requires few { cut ≤ 1000 }
    ensures { IfOk result (λ nums. nums.items ≡ map (num_over cut) payments.now) }
{
    let mut nums = Vec::new(alloc);
    for payment in payments {
        nums.push(num_of(payment, cut))?;
    }
    Ok(nums)
}

impl Last {
    /// The last settlement of a session of this exchange: the bounds, from which the upper values
    /// are left out, the final sets, satisfied ones, and what each bidder pays. The denominators of
    /// the payments divide that of the cut, which is at most 1,000; their numerators are at most
    /// 10^18 in size.
    pub fn new(
        alloc: Global,
        exchange: Exchange,
        bounds: &[Bounds],
        sets: Assignment,
        cut: u16,
        payments: Vec<Frac>,
    ) -> Result<Last, AllocError>
        requires bounds { AreBoundsOf exchange bounds.now }
        requires count { length sets ≡ length exchange.bidders }
        requires paid { IsPaidTrade (paid_of exchange bounds.now sets payments.items) }
        requires cut { IsCutDen (paid_of exchange bounds.now sets payments.items) cut }
        requires few { cut ≤ 1000 }
        requires short { AllByRecursion IsShortPayment payments.items }
        ensures { IfOk result (λ last. last ≡ last_at exchange bounds.now sets payments.items cut) }
    {
        // The exchange is a lawful one.
        let _bidders = exchange.bidders();
        let low = low_bounds(alloc, &exchange, bounds)?;
        let weights = weighted_values(alloc, &exchange, &low)?;
        let nums = nums_of(alloc, &payments, cut)?;
        Ok(Last {
            exchange,
            bounds: low,
            sets,
            weights,
            payments,
            nums,
            cut,
        })
    }

    /// The exchange.
    pub fn exchange(&self) -> &Exchange
        ensures value { result.now ≡ self.now.exchange }
        ensures lawful { IsLast self.now }
    {
        &self.exchange
    }

    /// The bidders' final sets, with the weighted values of their nodes at low bounds.
    pub fn trade(&self) -> Provisional<'_>
        ensures value { result ≡ trade_of self.now.paid }
        ensures lawful { IsLast self.now }
    {
        Provisional::of(&self.exchange, &self.weights, &self.sets)
    }

    /// The denominator of the cut, 1 to 1,000, which those of the payments divide.
    pub fn cut(&self) -> u16
        ensures value { result ≡ self.now.cut }
        ensures lawful { IsLast self.now }
    {
        self.cut
    }

    /// What each bidder pays, over the denominator of the cut: at most 10^21 in size.
    pub fn nums(&self) -> &[i128]
        ensures value { result.now ≡ nums_of self.now }
        ensures numbers { AreNumbers (trade_of self.now.paid) self.now.cut result.now }
        ensures over { ArePaidOver self.now.paid self.now.cut (num_at result.now) }
    {
        &self.nums
    }

    /// What each bidder pays, in lowest terms.
    pub fn payments(&self) -> &[Frac]
        ensures value { result.now ≡ self.now.paid.payments }
        ensures lawful { IsLast self.now }
    {
        &self.payments
    }

    /// Accurate and balanced prices for the final sets at the low bounds.
    pub(crate) fn price(&self, alloc: Global) -> Result<Pricing, PriceEnd>
        ensures priced { IfOk result (IsPriced (trade_of self.now.paid)) }
        ensures ended { IfErr result (IsPriceEnd (trade_of self.now.paid)) }
    {
        price(alloc, &self.exchange, &self.bounds, &self.sets)
    }
}
