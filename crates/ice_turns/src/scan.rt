//! The bidders' best sets at prices, one after another.
ghost use Rattle.std.specs.Prelude.{◌<◌, ◌^◌, IsTrue, unsigned_abs};
ghost use Rattle.ice_defs.specs.Fraction.{Below, IsFraction};
ghost use Rattle.ice_turns.specs.Scans.{IsScan};

use crate::pool::PoolMember;
use ice_frac::Frac;
use ice_pricing::{Provisional, Scratch};
use ice_terms::Prices;
use std::cmp::Ordering;

/// What a scan finds.
#[derive(Drop)]
pub(crate) enum Scan {
    /// A best set of the first bidder whose best excess is above the one that is allowed.
    Adds(PoolMember),
    /// None is, and this is the prices' violation, times their denominator.
    Ends(i128),
}

/// Whether a number over a denominator is above a fraction.
fn is_above(num: i128, den: u64, most: &Frac) -> bool
    requires sized { unsigned_abs num < 2 ^ 127 }
    requires positive { 0 < den }
    requires proper { IsFraction most.now }
    ensures yes { IsTrue result → Below most.now (record { num = num; den = den }) }
    ensures no { Below most.now (record { num = num; den = den }) → IsTrue result }
{
    let Some(fraction) = Frac::new(num, i128::from(den)) else {
        unreachable!()
    };
    match most.cmp(&fraction) {
        Ordering::Less => true,
        Ordering::Equal | Ordering::Greater => false,
    }
}

/// Looks for the first bidder with an excess above the one that is allowed.
pub(crate) fn scan_bidders(
    trade: &Provisional<'_>,
    prices: &Prices,
    most: &Frac,
    scratch: &mut Scratch,
) -> Scan
    requires { IsFraction most.now }
    ensures { IsScan trade.now prices.now most.now result }
{
    let den = prices.den() as u64;
    for bidder in 0..trade.bidders() {
        let best = trade.best(bidder, prices, scratch);
        if is_above(best.amount, den, most) {
            return Scan::Adds(PoolMember {
                bidder,
                set: best.set,
            });
        }
    }
    Scan::Ends(trade.violation(prices, scratch))
}
