//! Whether prices are fair.
ghost use Rattle.std.specs.Prelude.{◌≡◌, ◌^◌, length, IsTrue, pos, ◌≤ℤ◌};
ghost use Rattle.ice_fair.specs.Found.{PassesAll};
ghost use Rattle.ice_fair.specs.Tested.{PassesNearness, PassesPriceTests};
ghost use Rattle.ice_fair_stage.specs.Certified.{IsFairLimited};
ghost use Rattle.ice_fair_laws.specs.Fair.{AreFair};
ghost use Rattle.ice_pricing.specs.Priced.{IsLimited};

use crate::answer::Fair;
use crate::gaps::{Paid, greatest_gap, is_over_both};
use crate::last::Last;
use crate::passes::{Priced, passes};
use ice_fair_stage::FairCertificate;
use ice_frac::Frac;
use ice_pricing::{Certificate, Provisional, Scratch, are_lowest, are_within};
use ice_terms::Prices;

/// Whether prices are within the cap and in lowest common terms, have this violation, and the rows
/// show them accurate.
pub(crate) fn are_accurate(
    trade: &Provisional<'_>,
    prices: &Prices,
    violation: i128,
    accuracy: &Certificate,
    scratch: &mut Scratch,
) -> bool
    requires goods { length prices.now.nums ≡ trade.now.goods }
    requires accuracy { IsLimited accuracy.now }
    ensures yes { IsTrue result → PassesPriceTests trade.now prices.now violation accuracy.now }
    ensures no { PassesPriceTests trade.now prices.now violation accuracy.now → IsTrue result }
    ensures low { IsTrue result → pos 0 ≤ℤ violation }
    ensures high { IsTrue result → violation ≤ℤ pos (2 ^ 100) }
{
    if !are_within(prices, trade.cap()) || !are_lowest(prices) {
        return false;
    }
    if trade.violation(prices, scratch) != violation {
        return false;
    }
    accuracy.passes_accuracy(trade, prices, violation)
}

/// Whether this is the distance of the prices, and the numbers and rows show that no accurate
/// prices have a smaller one.
pub(crate) fn are_nearest(
    last: &Last,
    prices: &Prices,
    violation: i128,
    distance: &Frac,
    certificate: &FairCertificate,
) -> bool
    requires goods { length prices.now.nums ≡ last.now.paid.goods }
    requires violation { pos 0 ≤ℤ violation }
    requires violation_high { violation ≤ℤ pos (2 ^ 100) }
    requires certificate { IsFairLimited (length last.now.paid.trees) certificate.now }
    ensures yes { IsTrue result → PassesNearness last.now.paid prices.now violation
        distance.now certificate.now }
    ensures no { PassesNearness last.now.paid prices.now violation distance.now certificate.now
        → IsTrue result }
{
    let _positive = prices.den();
    let _proper = distance.den();
    let paid = Paid {
        trade: last.trade(),
        nums: last.nums(),
        cut: last.cut(),
    };
    let gap = greatest_gap(&paid, prices);
    if !is_over_both(distance, gap, paid.cut, prices) {
        return false;
    }
    let priced = Priced {
        prices,
        violation,
        gap,
    };
    passes(
        &paid,
        &priced,
        &certificate.certificate,
        &certificate.low,
        &certificate.high,
    )
}

/// Whether prices pass all tests of fair prices: they are within the cap and in lowest common
/// terms, `delta` is their violation and `distance` their distance, and the certificates show that
/// no prices have a smaller violation, and none of this violation a smaller distance. Then they are
/// fair.
///
/// There is one price a good. The accuracy certificate has at most 200 rows of weights up to 2^32
/// over a denominator from 1 to 2^32. The other one has two numbers a bidder and at most 200 rows,
/// numbers, weights and denominator up to 2^24, the last from 1 on. It takes no memory.
pub fn check_fair(last: &Last, fair: &Fair, scratch: &mut Scratch) -> bool
    requires goods { length fair.now.prices.nums ≡ last.now.paid.goods }
    requires accuracy { IsLimited fair.now.accuracy }
    requires certificate { IsFairLimited (length last.now.paid.trees) fair.now.certificate }
    ensures yes { IsTrue result → PassesAll last.now.paid fair.now }
    ensures no { PassesAll last.now.paid fair.now → IsTrue result }
    ensures fair { IsTrue result → AreFair last.now.paid fair.now.prices }
{
    let trade = last.trade();
    if !are_accurate(&trade, &fair.prices, fair.delta, &fair.accuracy, scratch) {
        return false;
    }
    are_nearest(
        last,
        &fair.prices,
        fair.delta,
        &fair.distance,
        &fair.certificate,
    )
}
