//! Accurate prices that come nearest to payments, by cutting planes.
ghost use Rattle.ice_cutting_planes.specs.Works.{IsMoreWork};

use crate::cut::{Cut, Kind};
use crate::dictionary::Dictionary;
use crate::gaps::Payments;
use crate::prices::{prices_at, run_whole_stage};
use crate::stage::CutSearch;
use crate::violation::Violation;
use crate::work::{GivenUp, Work};
use ice_pricing::{Certificate, Pricing, Provisional};
use ice_terms::Prices;
use std::alloc::Global;

/// Prices that come near to payments, and what may show that no accurate prices come nearer.
#[derive(Drop)]
pub struct Nearest {
    /// The prices.
    pub prices: Prices,
    /// Their violation, in hundredths and times their denominator.
    pub delta: i128,
    /// The denominator of all weights, and weighted sets.
    pub certificate: Certificate,
    /// For each bidder, the weight of what it pays above its own set's cost.
    pub low: Vec<u64>,
    /// For each bidder, the weight of its own set's cost above what it pays.
    pub high: Vec<u64>,
}

/// The dictionary of the stage, with the sets of this certificate of accuracy.
fn third_dictionary(
    alloc: Global,
    trade: &Provisional<'_>,
    cut: u16,
    violation: &Violation,
    accuracy: &Certificate,
) -> Result<Dictionary, GivenUp> {
    let mut third = Dictionary::nearest(alloc, trade.goods(), trade.cap(), violation, cut)?;
    for row in &accuracy.rows {
        if row.bidder < trade.bidders() && row.set.len() == trade.tree(row.bidder).nodes() {
            let _is_added = third.add(alloc, Cut::of(trade, row.bidder, &row.set))?;
        }
    }
    Ok(third)
}

/// Looks for prices of a provisional trade that have the violation of this pricing, and come
/// nearest to payments: of what a bidder pays and what its own set costs, the greatest difference
/// is least. Each payment is its number over `cut`. The sets of the pricing's certificate of
/// accuracy are where it begins.
///
/// What it finds isn't promised to be so, nor to be within the limits of prices and certificates.
/// It gives up as `cut_prices` does, and what it does is added to `work`, in which no count falls.
pub fn nearest_prices(
    alloc: Global,
    trade: &Provisional<'_>,
    nums: &[i128],
    cut: u16,
    pricing: &Pricing,
    work: &mut Work,
) -> Result<Nearest, GivenUp>
    ensures { IsMoreWork work.old work.new }
{
    let violation = Violation::of_pricing(pricing);
    let payments = Payments::of(nums, &violation)?;
    let mut search = CutSearch::new(alloc, trade, Some(payments));
    let mut third = third_dictionary(alloc, trade, cut, &violation, &pricing.accuracy)?;
    let (point, certificate) = run_whole_stage(&mut search, &mut third, work)?;
    let low = third.gap_weights(alloc, trade.bidders(), Kind::Low, certificate.den)?;
    let high = third.gap_weights(alloc, trade.bidders(), Kind::High, certificate.den)?;
    let top = third.asked.highest(trade.cap(), point.den)?;
    let prices = prices_at(point, top, &mut search, &third.asked, work)?;
    let delta = violation.over(i128::from(prices.den()))?;
    Ok(Nearest {
        prices,
        delta,
        certificate,
        low,
        high,
    })
}
