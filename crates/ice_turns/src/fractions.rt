//! Fractions over one denominator.
ghost use Rattle.std.specs.Prelude.{◌≡◌, ◌<◌, ◌≤◌, ◌^◌, length, map, IfSome, IfNone, pos, neg_ℤ, ◌≤ℤ◌};
ghost use Rattle.std.specs.List.{AllByRecursion};
ghost use Rattle.ice_defs.specs.Fraction.{IsFraction, Equals};
ghost use Rattle.ice_defs.specs.PricingRun.{lcm, common_den, num_over};
ghost use Rattle.ice_frac.specs.Lowest.{IsLowest};

use arrayvec::ArrayVec;
use ice_frac::{Frac, common_divisor};
use ice_terms::Prices;

/// The least common multiple of the fraction's denominator and a number up to a limit, which is at
/// most 2^32. None exactly where it is above the limit.
fn common_multiple(fraction: &Frac, den: u64, most: u64) -> Option<u64>
    requires positive { 0 < den }
    requires fits { den ≤ most }
    requires most { most ≤ 2 ^ 32 }
    // Where there is one
    ensures value { IfSome result (λ made. made ≡ lcm fraction.now.den den) }
    ensures fits { IfSome result (λ made. made ≤ most) }
    ensures positive { IfSome result (λ made. 0 < made) }
    ensures lowest { IfSome result (λ _. IsLowest fraction.now) }
    // Where it is too great
    ensures none { IfNone result (most < lcm fraction.now.den den) }
{
    if fraction.den() > u128::from(most) {
        return None;
    }
    let other = u128::from(den);
    let multiple = fraction.den() / common_divisor(fraction.den(), other) * other;
    if multiple > u128::from(most) {
        return None;
    }
    Some(multiple as u64)
}

/// The least common denominator of fractions in lowest terms. None exactly where it is above the
/// limit, which is from 1 to 2^32.
pub fn common_den(fractions: &[Frac], most: u64) -> Option<u64>
    requires fractions { AllByRecursion IsFraction fractions.now }
    requires some { 1 ≤ most }
    requires most { most ≤ 2 ^ 32 }
    // Where there is one
    ensures value { IfSome result (λ den. den ≡ common_den fractions.now) }
    ensures fits { IfSome result (λ den. den ≤ most) }
    ensures positive { IfSome result (λ den. 0 < den) }
    ensures lowest { IfSome result (λ _. AllByRecursion IsLowest fractions.now) }
    // Where it is too great
    ensures none { IfNone result (most < common_den fractions.now) }
{
    let mut den = 1;
    for place in (0..fractions.len()).rev() {
        den = common_multiple(&fractions[place], den, most)?;
    }
    Some(den)
}

/// The numerator over a multiple of the fraction's denominator, where it is within 2^100 in size.
pub fn num_over(fraction: &Frac, den: u64) -> i128
    requires low { neg_ℤ (pos (2 ^ 100)) ≤ℤ num_over den fraction.now }
    requires high { num_over den fraction.now ≤ℤ pos (2 ^ 100) }
    ensures { result ≡ num_over den fraction.now }
{
    fraction.num() * (u128::from(den) / fraction.den()) as i128
}

/// The fraction of a number of at most 2^81 over a denominator.
pub fn over(num: i128, den: u64) -> Frac
    requires low { pos 0 ≤ℤ num }
    requires high { num ≤ℤ pos (2 ^ 81) }
    requires positive { 0 < den }
    ensures proper { IsFraction result }
    ensures equal { Equals result (record { num = num; den = den }) }
{
    match Frac::new(num, i128::from(den)) {
        Some(fraction) => fraction,
        None => unreachable!(),
    }
}

/// The prices that are these fractions, over a multiple of all their denominators.
pub(crate) fn prices_over(fractions: &[Frac], den: u64) -> Prices
    requires positive { 0 < den }
    requires fits { den ≤ 2 ^ 32 }
    requires some { 1 ≤ length fractions.now }
    requires few { length fractions.now ≤ 32 }
    requires low { AllByRecursion (λ f. pos 0 ≤ℤ num_over den f) fractions.now }
    requires high { AllByRecursion (λ f. num_over den f ≤ℤ pos (2 ^ 62)) fractions.now }
    ensures { result ≡ record { den = den; nums = map (num_over den) fractions.now } }
{
    let mut nums = ArrayVec::new();
    for fraction in fractions {
        nums.push(num_over(fraction, den) as i64);
    }
    Prices::from_terms(den, nums)
}
