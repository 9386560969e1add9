//! Small fractions that aren't in lowest terms.
ghost use Rattle.std.specs.Prelude.{◌≡◌, ◌<◌, ◌≤◌, ◌*◌, ◌^◌, ◌*ℤ◌, pos, unsigned_abs};
ghost use Rattle.ice_defs.specs.Fraction.{Fraction, AtMost, IsFraction, Equals};
ghost use Rattle.ice_frac.specs.Lowest.{IsLowest};
ghost use Rattle.ice_threshold.specs.Limits.{IsShort};

use ice_frac::Frac;
use std::marker::Model;

/// A numerator within 2^56 in size over a denominator from 1 to 40.
#[derive(Clone, Copy)]
pub(crate) struct Ratio {
    pub(crate) num: i128,
    pub(crate) den: u64,
}

impl Model for Ratio {
    ghost Value = { Fraction };

    ghost view = { λ r. record { num = r.num; den = r.den } };

    ghost invariant = { λ r. (unsigned_abs r.num ≤ 2 ^ 56) × (0 < r.den) × (r.den ≤ 40) };

    ghost inverse = { λ v. record { num = v.num; den = v.den } };
}

/// A number times a denominator.
pub(crate) fn scaled(number: i128, den: u64) -> i128
    requires sized { unsigned_abs number ≤ 2 ^ 57 }
    requires small { den ≤ 40 }
    ensures value { result ≡ number *ℤ pos den }
    ensures size { unsigned_abs result ≤ 2 ^ 57 * 40 }
{
    number * den as i128
}

/// The greater one of two ratios: at least both, and no more than what is at least both.
pub(crate) fn greater(a: Ratio, b: Ratio) -> Ratio
    ensures left { AtMost a result }
    ensures right { AtMost b result }
    ensures proper { IsFraction result }
    ensures least { (other : Fraction) → AtMost a other → AtMost b other → AtMost result other }
{
    if scaled(a.num, b.den) < scaled(b.num, a.den) {
        b
    } else {
        a
    }
}

/// A fraction in lowest terms.
pub(crate) fn fraction(num: i128, den: u64) -> Frac
    requires sized { unsigned_abs num < 2 ^ 127 }
    requires positive { 0 < den }
    ensures equal { Equals result (record { num = num; den = den }) }
    ensures proper { IsFraction result }
    ensures lowest { IsLowest result }
    ensures num_high { unsigned_abs result.num ≤ unsigned_abs num }
    ensures den_high { result.den ≤ den }
{
    match Frac::new(num, den as i128) {
        Some(fraction) => fraction,
        None => unreachable!(),
    }
}

impl Ratio {
    /// The ratio in lowest terms.
    pub(crate) fn reduced(self) -> Frac
        ensures equal { Equals result self }
        ensures proper { IsFraction result }
        ensures small { IsShort result }
    {
        fraction(self.num, self.den)
    }
}
