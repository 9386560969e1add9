//! What stages ask by the rows of sets.
use crate::numbers::product;
use crate::violation::Violation;
use crate::work::GivenUp;

/// What a stage asks by the row of a set: its units at the stage's prices, and `last` times the
/// last column, are at least `times` its worth, less `allowed`. The stage's prices are in
/// hundredths and times `times`.
#[derive(Clone, Copy)]
pub(crate) struct Asked {
    pub(crate) times: i128,
    pub(crate) allowed: i128,
    pub(crate) last: i128,
    /// By what the multiplier of the row is divided to be a weight.
    pub(crate) parts: i128,
}

impl Asked {
    /// What the stage asks that makes the violation least, which is the last column.
    pub(crate) fn accuracy() -> Asked {
        Asked {
            times: 1,
            allowed: 0,
            last: 1,
            parts: 1,
        }
    }

    /// What the stage asks that allows this violation, and makes the greatest price least, which is
    /// the last column.
    pub(crate) fn balance(violation: &Violation) -> Asked {
        Asked {
            times: violation.den,
            allowed: violation.num,
            last: 0,
            parts: 1,
        }
    }

    /// What the stage asks that allows this violation, and makes the greatest gap least, which is
    /// the last column, in hundredths and times `times`. Payments are over the denominator `cut`.
    pub(crate) fn nearest(violation: &Violation, cut: u16) -> Result<Asked, GivenUp> {
        let cut = i128::from(cut);
        Ok(Asked {
            times: product(cut, violation.den)?,
            allowed: product(cut, violation.num)?,
            last: 0,
            parts: 100,
        })
    }

    /// The cap in the stage's prices, times a denominator.
    pub(crate) fn highest(&self, cap: i64, den: i128) -> Result<i128, GivenUp> {
        let whole = product(100, i128::from(cap))?;
        product(product(whole, self.times)?, den)
    }
}
