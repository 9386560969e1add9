//! What the least point of a stage's program asks for.
ghost use Rattle.std.specs.Prelude.{◌≡◌, ◌<◌, ◌≤◌, ◌^◌, length, take, IfOk, IfErr, IfSome, IfNone};
ghost use Rattle.ice_defs.specs.Fraction.{IsFraction};
ghost use Rattle.ice_defs.specs.PricingRun.{prices_of};
ghost use Rattle.ice_defs.specs.Prices.{ArePrices};
ghost use Rattle.ice_defs.specs.Program.{AreNonNegative};
ghost use Rattle.ice_defs.specs.Rows.{HasCommonDivisor};
ghost use Rattle.ice_turns.specs.Steps.{IsStep, IsStepStop};

use crate::ends::Stop;
use crate::fractions::{common_den, prices_over};
use crate::pool::PoolMember;
use crate::scan::{Scan, scan_bidders};
use ice_defs::LimitKind;
use ice_frac::Frac;
use ice_pricing::{GREATEST_WEIGHT, Provisional, Scratch};
use ice_terms::Prices;

/// What a least point asks for.
#[derive(Drop)]
pub enum Step {
    /// A set is to be added to the pool: a best one of the first bidder that has one above the
    /// excess that is allowed.
    Adds(PoolMember),
    /// No set is to be added. The point's prices, and their violation times their denominator.
    Ends(Prices, i128),
}

/// The prices of a point, over their least common denominator. None exactly where that is above
/// 2^32.
fn prices_of(trade: &Provisional<'_>, point: &[Frac]) -> Option<Prices>
    requires long { trade.now.goods < length point.now }
    requires low { AreNonNegative point.now }
    requires within { let t = trade.now in
        ArePrices t.goods t.cap (prices_of (take t.goods point.now)) }
    ensures value { IfSome result (λ p. p ≡ prices_of (take trade.now.goods point.now)) }
    ensures fits { IfSome result (λ p. p.den ≤ 2 ^ 32) }
    ensures lowest { IfSome result (λ p. ¬ HasCommonDivisor p) }
    ensures none { let p = prices_of (take trade.now.goods point.now) in
        IfNone result (2 ^ 32 < p.den) }
{
    let prices = &point[..usize::from(trade.goods())];
    let den = common_den(prices, GREATEST_WEIGHT)?;
    Some(prices_over(prices, den))
}

/// What the least point of a program over a pool asks for, where an excess up to `most` is allowed.
/// It stops where the prices' denominator is above 2^32, or where a set is to be added to 200.
pub fn next_step(
    trade: &Provisional<'_>,
    pool: &[PoolMember],
    point: &[Frac],
    most: &Frac,
    scratch: &mut Scratch,
) -> Result<Step, Stop>
    requires long { trade.now.goods < length point.now }
    requires low { AreNonNegative point.now }
    requires within { let t = trade.now in
        ArePrices t.goods t.cap (prices_of (take t.goods point.now)) }
    requires most { IsFraction most.now }
    ensures step { let p = prices_of (take trade.now.goods point.now) in
        IfOk result (IsStep trade.now (length pool.now) p most.now) }
    ensures stopped { let p = prices_of (take trade.now.goods point.now) in
        IfErr result (IsStepStop trade.now (length pool.now) p most.now) }
{
    let Some(prices) = prices_of(trade, point) else {
        return Err(Stop::AtLimit(LimitKind::Den));
    };
    match scan_bidders(trade, &prices, most, scratch) {
        Scan::Adds(_) if pool.len() >= 200 => Err(Stop::AtLimit(LimitKind::Rows)),
        Scan::Adds(member) => Ok(Step::Adds(member)),
        Scan::Ends(violation) => Ok(Step::Ends(prices, violation)),
    }
}
