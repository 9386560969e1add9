//! Certificates of a dictionary: the multipliers of its cuts as weights.
use crate::cut::{Cut, Kind};
use crate::dictionary::Dictionary;
use crate::equation::{Equation, Variable};
use crate::numbers::{divisor, product, quotient};
use crate::work::GivenUp;
use ice_pricing::{Certificate, CertificateRow, GREATEST_WEIGHT};
use std::alloc::Global;

/// The greatest denominator of prices and of weights, and the greatest weight.
pub(crate) const GREATEST_DEN: i128 = GREATEST_WEIGHT as i128;

/// The least common multiple of two numbers from 1 to 2^32, where it is at most 2^32 too.
fn common_multiple(den: i128, other: i128) -> Result<i128, GivenUp> {
    if other > GREATEST_DEN {
        return Err(GivenUp::Long);
    }
    let multiple = product(quotient(den, divisor(den, other)), other)?;
    if multiple > GREATEST_DEN {
        return Err(GivenUp::Long);
    }
    Ok(multiple)
}

/// The numerator of a fraction over a multiple of its denominator.
fn num_over(num: i128, den: i128, common: i128) -> Result<i128, GivenUp> {
    let shared = divisor(num, den);
    let den = quotient(den, shared);
    if den < 1 {
        return Err(GivenUp::Wide);
    }
    product(
        quotient(num, shared),
        quotient(common, divisor(common, den)),
    )
}

/// A weight from 0 to 2^32.
fn weight_of(number: i128) -> Result<u64, GivenUp> {
    if number > GREATEST_DEN {
        return Err(GivenUp::Long);
    }
    u64::try_from(number).map_err(|_| GivenUp::Wide)
}

impl Dictionary {
    /// The cut whose multiplier this equation's variable is, where that isn't 0.
    fn cut_of(&self, equation: &Equation) -> Option<&Cut> {
        match equation.variable {
            Variable::Cut(number) if equation.main != 0 => self.cuts.get(number),
            _ => None,
        }
    }

    /// The denominator of the multiplier of a cut as a weight.
    fn weight_den(&self, equation: &Equation, cut: &Cut) -> Result<i128, GivenUp> {
        product(equation.den, cut.parts(&self.asked))
    }

    /// The multiplier of a cut as a weight over a denominator.
    fn weight(&self, equation: &Equation, cut: &Cut, den: i128) -> Result<u64, GivenUp> {
        let own = self.weight_den(equation, cut)?;
        weight_of(num_over(equation.main, own, den)?)
    }

    /// The least common denominator of the cuts' multipliers as weights.
    fn common_den(&self) -> Result<i128, GivenUp> {
        let mut den = 1;
        for equation in &self.left {
            if let Some(cut) = self.cut_of(equation) {
                let own = self.weight_den(equation, cut)?;
                den = common_multiple(den, quotient(own, divisor(equation.main, own)))?;
            }
        }
        Ok(den)
    }

    /// The certificate that the multipliers of the sets make, over the denominator of all weights.
    pub(crate) fn certificate(&self, alloc: Global) -> Result<Certificate, GivenUp> {
        let den = self.common_den()?;
        let mut rows = Vec::new(alloc);
        for equation in &self.left {
            let Some(cut) = self.cut_of(equation) else {
                continue;
            };
            if cut.kind == Kind::Gain {
                rows.push(CertificateRow {
                    bidder: cut.bidder,
                    weight: self.weight(equation, cut, den)?,
                    set: cut.set,
                })?;
            }
        }
        Ok(Certificate {
            den: weight_of(den)?,
            rows,
        })
    }

    /// For each bidder the weight of its cut of this kind of gap, over a denominator.
    pub(crate) fn gap_weights(
        &self,
        alloc: Global,
        bidders: u8,
        kind: Kind,
        den: u64,
    ) -> Result<Vec<u64>, GivenUp> {
        let mut weights = vec![in alloc; 0u64; usize::from(bidders)]?;
        for equation in &self.left {
            let Some(cut) = self.cut_of(equation) else {
                continue;
            };
            let place = usize::from(cut.bidder);
            if cut.kind == kind && place < weights.len() {
                weights[place] = self.weight(equation, cut, i128::from(den))?;
            }
        }
        Ok(weights)
    }
}
