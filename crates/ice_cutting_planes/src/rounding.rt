//! Prices over a long denominator, rounded where no price passes a top, and neither the violation
//! nor the greatest gap grows.
use crate::asked::Asked;
use crate::certified::GREATEST_DEN;
use crate::dictionary::Point;
use crate::nets::LongPrices;
use crate::numbers::{divisor_of, product, quotient, sum};
use crate::stage::CutSearch;
use crate::work::GivenUp;

/// Prices in hundredths over a denominator, with what bounds them.
#[derive(Drop)]
pub(crate) struct Rounding {
    /// The denominator.
    pub(crate) den: i128,
    /// The prices, times the denominator.
    pub(crate) nums: Vec<i128>,
    /// What no price is to pass, times the denominator.
    top: i128,
    /// The violation, times the denominator.
    violation: i128,
    /// The denominator of the stage's own prices.
    stage_den: i128,
    /// The greatest gap, times that denominator.
    farthest: i128,
}

/// The number, rounded down to a multiple.
fn rounded_down(number: i128, grid: i128) -> i128 {
    if grid < 1 {
        return number;
    }
    number.wrapping_sub(number % grid)
}

impl Rounding {
    /// The prices of the point at which a stage ended, of which none is to pass `top`.
    pub(crate) fn of(
        point: Point,
        top: i128,
        search: &CutSearch<'_>,
        asked: &Asked,
    ) -> Result<Rounding, GivenUp> {
        let mut nums = point.nums;
        nums.truncate(usize::from(search.trade.goods()));
        Ok(Rounding {
            den: product(point.den, asked.times)?,
            top,
            violation: product(point.den, asked.allowed)?,
            stage_den: point.den,
            farthest: search.farthest(point.den, &nums)?,
            nums,
        })
    }

    /// Whether the prices in whole units have a denominator of at most 2^32.
    pub(crate) fn fits(&self) -> Result<bool, GivenUp> {
        let whole = product(self.den, 100)?;
        let shared = divisor_of(whole, &self.nums);
        Ok(quotient(whole, shared) <= GREATEST_DEN)
    }

    /// Whether no bidder gains more than the violation, and no gap has grown past the greatest one.
    fn is_allowed(&self, search: &mut CutSearch<'_>) -> Result<bool, GivenUp> {
        if search.farthest(self.stage_den, &self.nums)? > self.farthest {
            return Ok(false);
        }
        let prices = LongPrices {
            den: self.den,
            nums: &self.nums,
        };
        let trade = search.trade;
        for bidder in 0..trade.bidders() {
            let excess = prices.excess(trade, bidder, &mut search.scratch)?;
            if excess.amount > self.violation {
                return Ok(false);
            }
        }
        Ok(true)
    }

    /// Sets the price of a good.
    fn put(&mut self, good: usize, num: i128) {
        if good < self.nums.len() {
            self.nums[good] = num;
        }
    }

    /// Rounds the price of a good to a multiple, up or else down, where that is allowed. Whether it
    /// was rounded.
    fn round(
        &mut self,
        good: usize,
        grid: i128,
        search: &mut CutSearch<'_>,
    ) -> Result<bool, GivenUp> {
        let old = self.nums.get(good).copied().unwrap_or(0);
        let down = rounded_down(old, grid);
        let up = if down == old { old } else { sum(down, grid)? };
        for num in [up, down] {
            self.put(good, num);
            if num <= self.top && self.is_allowed(search)? {
                return Ok(true);
            }
        }
        self.put(good, old);
        Ok(false)
    }

    /// Rounds the prices good by good, to whole units or else to hundredths.
    pub(crate) fn round_all(&mut self, search: &mut CutSearch<'_>) -> Result<(), GivenUp> {
        let whole = product(self.den, 100)?;
        for good in 0..self.nums.len() {
            if !self.round(good, whole, search)? {
                let _is_rounded = self.round(good, self.den, search)?;
            }
        }
        Ok(())
    }
}
