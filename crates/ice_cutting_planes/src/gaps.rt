//! Gaps: what bidders pay less what their own sets cost.
ghost use Rattle.std.specs.Prelude.{◌≡◌, ◌<◌, length, IfOk};

use crate::cut::Kind;
use crate::numbers::{product, sum};
use crate::violation::Violation;
use crate::work::GivenUp;
use ice_pricing::Provisional;

/// Payments that prices are to come near, over one denominator, and what the rows of a stage
/// multiply them by.
#[derive(Clone, Copy)]
pub(crate) struct Payments<'a> {
    nums: &'a [i128],
    times: i128,
}

/// What a bidder pays, as a stage's rows have it, and its gap at prices, times their denominator.
#[derive(Clone, Copy)]
pub(crate) struct Gap {
    pub(crate) bidder: u8,
    pub(crate) paid: i128,
    amount: i128,
}

impl Gap {
    /// The size of the gap.
    pub(crate) fn size(&self) -> i128 {
        self.amount.wrapping_abs()
    }

    /// The kind of cut that keeps the gap small.
    pub(crate) fn kind(&self) -> Kind {
        if self.amount < 0 {
            Kind::High
        } else {
            Kind::Low
        }
    }
}

/// What the bidder's own set costs at a stage's prices.
fn own_cost(trade: &Provisional<'_>, bidder: u8, nums: &[i128]) -> Result<i128, GivenUp>
    requires { bidder < length trade.now.trees }
{
    let units = trade.tree(bidder).units(trade.own(bidder));
    let mut cost = 0;
    for good in 0..trade.goods() {
        let price = nums.get(usize::from(good)).copied().unwrap_or(0);
        cost = sum(cost, product(price, i128::from(units.get(good)))?)?;
    }
    Ok(cost)
}

impl<'a> Payments<'a> {
    /// The payments of the bidders, as the rows at this violation have them.
    pub(crate) fn of(nums: &'a [i128], violation: &Violation) -> Result<Payments<'a>, GivenUp> {
        Ok(Payments {
            nums,
            times: product(100, violation.den)?,
        })
    }

    /// The gap of a bidder at a stage's prices, which are `nums` over `den`.
    pub(crate) fn gap(
        &self,
        trade: &Provisional<'_>,
        bidder: u8,
        den: i128,
        nums: &[i128],
    ) -> Result<Gap, GivenUp>
        requires { bidder < length trade.now.trees }
        ensures { IfOk result (λ gap. gap.bidder ≡ bidder) }
    {
        let num = self.nums.get(usize::from(bidder)).copied().unwrap_or(0);
        let paid = product(self.times, num)?;
        let cost = own_cost(trade, bidder, nums)?;
        Ok(Gap {
            bidder,
            paid,
            amount: sum(product(paid, den)?, cost.wrapping_neg())?,
        })
    }

    /// The size of the greatest gap at a stage's prices.
    pub(crate) fn farthest(
        &self,
        trade: &Provisional<'_>,
        den: i128,
        nums: &[i128],
    ) -> Result<i128, GivenUp> {
        let mut farthest = 0;
        for bidder in 0..trade.bidders() {
            farthest = self.gap(trade, bidder, den, nums)?.size().max(farthest);
        }
        Ok(farthest)
    }
}
