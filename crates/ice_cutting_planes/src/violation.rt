//! Violations as fractions.
use crate::dictionary::Point;
use crate::numbers::{divisor, product, quotient};
use crate::work::GivenUp;
use ice_pricing::Pricing;

/// A violation, in hundredths, over its denominator, in lowest terms.
#[derive(Clone, Copy)]
pub(crate) struct Violation {
    pub(crate) num: i128,
    pub(crate) den: i128,
}

impl Violation {
    /// The fraction of these numbers.
    fn of(num: i128, den: i128) -> Violation {
        let shared = divisor(num, den);
        Violation {
            num: quotient(num, shared),
            den: quotient(den, shared),
        }
    }

    /// The violation at the end of the first stage: the last column of its point.
    pub(crate) fn at(point: &Point) -> Violation {
        Violation::of(point.last(), point.den)
    }

    /// The violation of prices.
    pub(crate) fn of_pricing(pricing: &Pricing) -> Violation {
        Violation::of(pricing.delta, i128::from(pricing.prices.den()))
    }

    /// The violation times a denominator.
    pub(crate) fn over(&self, den: i128) -> Result<i128, GivenUp> {
        let shared = divisor(den, self.den);
        product(self.num, quotient(den, shared))
    }
}
