//! Fractions in lowest terms.
ghost use Rattle.std.specs.Prelude.{◌≡◌, ◌≢◌, ◌⊎◌, ◌↔◌, ◌<◌, ◌*◌, ◌^◌, pos, ◌<ℤ◌, unsigned_abs, IfOk, IfSome, IsNone};
ghost use Rattle.std.specs.Result.{result_ok};
ghost use Rattle.std.specs.Ordering.{nat_cmp, MatchOrdering};
ghost use Rattle.ice_defs.specs.Fraction.{Fraction, Equals, Below, plus, minus, times, negation};
ghost use Rattle.ice_defs.specs.Frac.{lowest, add, sub, mul, div, reciprocal};
ghost use Rattle.ice_frac.specs.Lowest.{IsLowest};
ghost use Rattle.ice_frac.specs.Order.{order_of};

use crate::euclid::common_divisor;
use crate::narrow::{Wide, den_product, product, quotient, size_quotient, sum, with_sign_of};
use std::cmp::Ordering;
use std::marker::Model;

/// A fraction in lowest terms: a numerator within 2^127 - 1 in size over a denominator from 1 to
/// 2^127 - 1.
#[derive(Clone, Copy, PartialEq, Eq)]
pub struct Frac {
    num: i128,
    den: u128,
}

impl Model for Frac {
    ghost Value = { Fraction };

    ghost view = { λ f. record { num = f.num; den = f.den } };

    ghost invariant = { λ f. IsLowest (record { num = f.num; den = f.den }) };

    ghost inverse = { λ v. record { num = v.num; den = v.den } };
}

/// A numerator and a denominator in range, in lowest terms.
fn reduce(num: i128, den: u128) -> Frac
    requires sized { unsigned_abs num < 2 ^ 127 }
    requires positive { 0 < den }
    requires below { den < 2 ^ 127 }
    ensures value { result ≡ lowest num den }
    ensures lowest { IsLowest result }
{
    let shared = common_divisor(num.unsigned_abs(), den);
    Frac {
        num: quotient(num, shared),
        den: size_quotient(den, shared),
    }
}

/// The order of the products a * d and c * b, each exact at 256 bits.
fn compare_products(a: u128, d: u128, c: u128, b: u128) -> Ordering
    ensures { result ≡ nat_cmp (a * d) (c * b) }
{
    let (low, high) = a.carrying_mul(d, 0);
    let (other_low, other_high) = c.carrying_mul(b, 0);
    if high < other_high {
        return Ordering::Less;
    }
    if other_high < high {
        return Ordering::Greater;
    }
    if low < other_low {
        return Ordering::Less;
    }
    if other_low < low {
        return Ordering::Greater;
    }
    Ordering::Equal
}

impl Frac {
    /// The fraction `num / den` in lowest terms. None exactly where `den` is below 1 or `num` is
    /// the least `i128`.
    pub fn new(num: i128, den: i128) -> Option<Frac>
        ensures none { IsNone result ↔ (den <ℤ pos 1) ⊎ (num ≡ i128.MIN) }
        ensures value { IfSome result (λ r. r ≡ lowest num (unsigned_abs den)) }
        ensures equal { IfSome result
            (λ r. Equals r (record { num = num; den = unsigned_abs den })) }
        ensures lowest { IfSome result IsLowest }
    {
        if den < 1 || num == i128::MIN {
            return None;
        }
        Some(reduce(num, den as u128))
    }

    /// The numerator, which has the fraction's sign.
    pub fn num(&self) -> i128
        ensures value { result ≡ self.now.num }
        ensures lowest { IsLowest self.now }
    {
        self.num
    }

    /// The denominator, at least 1.
    pub fn den(&self) -> u128
        ensures value { result ≡ self.now.den }
        ensures lowest { IsLowest self.now }
    {
        self.den
    }

    /// The fraction of the other sign. It never refuses, since the range of numerators is the same
    /// on both sides of 0.
    pub fn negated(&self) -> Frac
        ensures value { result ≡ negation self.now }
        ensures lowest { IsLowest result }
    {
        Frac {
            num: -self.num,
            den: self.den,
        }
    }

    /// The fraction with numerator and denominator exchanged, and the same sign.
    pub fn reciprocal(&self) -> Frac
        requires { self.now.num ≢ pos 0 }
        ensures value { result ≡ reciprocal self.now }
        ensures lowest { IsLowest result }
    {
        Frac {
            num: with_sign_of(self.num, self.den),
            den: self.num.unsigned_abs(),
        }
    }

    /// The sum, exact. Wide exactly where one of the summands over the least common denominator,
    /// their sum or that denominator is out of range.
    pub fn add(&self, other: &Frac) -> Result<Frac, Wide>
        ensures exact { result_ok result ≡ add self.now other.now }
        ensures equal { IfOk result (λ r. Equals r (plus self.now other.now)) }
        ensures lowest { IfOk result IsLowest }
    {
        let shared = common_divisor(self.den, other.den);
        let left = product(self.num, size_quotient(other.den, shared) as i128)?;
        let right = product(other.num, size_quotient(self.den, shared) as i128)?;
        let num = sum(left, right)?;
        let den = den_product(self.den, size_quotient(other.den, shared))?;
        Ok(reduce(num, den))
    }

    /// The difference, exact. Wide exactly where the sum with the negated fraction is.
    pub fn sub(&self, other: &Frac) -> Result<Frac, Wide>
        ensures exact { result_ok result ≡ sub self.now other.now }
        ensures equal { IfOk result (λ r. Equals r (minus self.now other.now)) }
        ensures lowest { IfOk result IsLowest }
    {
        self.add(&other.negated())
    }

    /// The product, exact. Wide exactly where the product in lowest terms is out of range.
    pub fn mul(&self, other: &Frac) -> Result<Frac, Wide>
        ensures exact { result_ok result ≡ mul self.now other.now }
        ensures equal { IfOk result (λ r. Equals r (times self.now other.now)) }
        ensures lowest { IfOk result IsLowest }
    {
        let left = common_divisor(self.num.unsigned_abs(), other.den);
        let right = common_divisor(other.num.unsigned_abs(), self.den);
        let num = product(quotient(self.num, left), quotient(other.num, right))?;
        let den = den_product(
            size_quotient(self.den, right),
            size_quotient(other.den, left),
        )?;
        Ok(Frac { num, den })
    }

    /// The quotient by a divisor that isn't 0, exact. Wide exactly where the product with the
    /// reciprocal is.
    pub fn div(&self, other: &Frac) -> Result<Frac, Wide>
        requires { other.now.num ≢ pos 0 }
        ensures exact { result_ok result ≡ div self.now other.now }
        ensures equal { IfOk result (λ r. Equals (times r other.now) self.now) }
        ensures lowest { IfOk result IsLowest }
    {
        self.mul(&other.reciprocal())
    }

    /// The order of two fractions, exact for every pair.
    pub fn cmp(&self, other: &Frac) -> Ordering
        ensures order { result ≡ order_of self.now other.now }
        ensures ranked { MatchOrdering result (Below self.now other.now) (Equals self.now other.now)
            (Below other.now self.now) }
    {
        let left = self.num.unsigned_abs();
        let right = other.num.unsigned_abs();
        if self.num < 0 {
            if other.num < 0 {
                compare_products(right, self.den, left, other.den)
            } else {
                Ordering::Less
            }
        } else if other.num < 0 {
            Ordering::Greater
        } else {
            compare_products(left, other.den, right, self.den)
        }
    }
}
