//! Whether prices pass all tests.
ghost use Rattle.std.specs.Prelude.{◌≡◌, length, IsTrue};
ghost use Rattle.ice_defs.specs.Exchange.{trees_of};
ghost use Rattle.ice_tree.specs.Alike.{HasWeightPerNode};
ghost use Rattle.ice_row_laws.specs.Laws.{AreSatisfied};
ghost use Rattle.ice_pricing.specs.Provisional.{AreModest, provisional_of};
ghost use Rattle.ice_pricing.specs.Priced.{IsLimited, PassesTests, AreBalanced};

use crate::certificate::Pricing;
use crate::limits::{are_lowest, are_within};
use crate::provisional::Provisional;
use ice_certificate::Scratch;
use ice_trade::Exchange;
use ice_tree::{AllWeights, Assignment};

impl Pricing {
    /// Whether the prices pass all tests for a provisional trade, as `check_pricing` tells of an
    /// exchange. Then they are accurate and balanced. Takes no memory.
    pub fn passes(&self, trade: &Provisional<'_>, scratch: &mut Scratch) -> bool
        requires goods { length self.now.prices.nums ≡ trade.now.goods }
        requires accuracy { IsLimited self.now.accuracy }
        requires balance { IsLimited self.now.balance }
        ensures yes { let p = self.now in IsTrue result
            → PassesTests trade.now p.prices p.delta p.accuracy p.balance }
        ensures no { let p = self.now in
            PassesTests trade.now p.prices p.delta p.accuracy p.balance → IsTrue result }
        ensures balanced { IsTrue result → AreBalanced trade.now self.now.prices }
    {
        let prices = &self.prices;
        if !are_within(prices, trade.cap()) || !are_lowest(prices) {
            return false;
        }
        if trade.violation(prices, scratch) != self.delta {
            return false;
        }
        self.accuracy.passes_accuracy(trade, prices, self.delta)
            && self.balance.passes_balance(trade, prices, self.delta)
    }
}

/// Whether prices pass all tests for the sets of an exchange's bidders: they are within the cap and
/// in lowest common terms, `delta` is their violation, and the certificates show that they are
/// accurate and balanced. Then they are.
///
/// There is one satisfied set a bidder, one weight a node, which is its weighted value in
/// hundredths and at most 1,000,000,000,000 in size, and one price a good. A certificate has at
/// most 200 rows of weights up to 2^32 over a denominator from 1 to 2^32. It takes no memory.
pub fn check_pricing(
    exchange: &Exchange,
    weights: &AllWeights,
    sets: &Assignment,
    pricing: &Pricing,
    scratch: &mut Scratch,
) -> bool
    requires count { length sets.now ≡ length exchange.now.bidders }
    requires satisfied { AreSatisfied (trees_of exchange.now) sets.now }
    requires nodes { HasWeightPerNode (trees_of exchange.now) weights.now }
    requires modest { AreModest weights.now }
    requires goods { length pricing.now.prices.nums ≡ length exchange.now.goods }
    requires accuracy { IsLimited pricing.now.accuracy }
    requires balance { IsLimited pricing.now.balance }
    ensures yes { let p = pricing.now in let t = provisional_of exchange.now weights.now sets.now in
        IsTrue result → PassesTests t p.prices p.delta p.accuracy p.balance }
    ensures no { let p = pricing.now in let t = provisional_of exchange.now weights.now sets.now in
        PassesTests t p.prices p.delta p.accuracy p.balance → IsTrue result }
    ensures balanced { IsTrue result
        → AreBalanced (provisional_of exchange.now weights.now sets.now) pricing.now.prices }
{
    let trade = Provisional::of(exchange, weights, sets);
    pricing.passes(&trade, scratch)
}
