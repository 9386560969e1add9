//! Weights of a certificate: duals times a factor, over one denominator.
ghost use Rattle.std.specs.Prelude.{◌≡◌, ◌≤◌, ◌*◌, ◌^◌, length, unsigned_abs, Any, IfOk, IfErr, IfSome, IfNone, pos, ◌≤ℤ◌, ◌<ℤ◌};
ghost use Rattle.std.specs.List.{AllByRecursion};
ghost use Rattle.ice_defs.specs.Fraction.{IsFraction, AtMost, whole_number, times};
ghost use Rattle.ice_defs.specs.Program.{AreNonNegative};
ghost use Rattle.ice_defs.specs.PricingRun.{num_over};
ghost use Rattle.ice_pricing_laws.specs.Weights.{lowest_of, weights_of_duals, nums_over, rows_with};
ghost use Rattle.ice_turns.specs.Large.{IsLarge, IsStoppedBy, AreFitting};

use crate::ends::Stop;
use crate::fractions::num_over;
use crate::pool::PoolMember;
use ice_defs::LimitKind;
use ice_frac::{Frac, Wide};
use ice_pricing::CertificateRow;
use std::alloc::{AllocError, Global};

/// A number of at most 100 * 2^32 as a fraction.
fn factor_of(factor: u64) -> Frac
    requires { factor ≤ 100 * 2 ^ 32 }
    ensures { result ≡ whole_number (pos factor) }
{
    match Frac::new(i128::from(factor), 1) {
        Some(fraction) => fraction,
        None => unreachable!(),
    }
}

/// A dual times a factor, in lowest terms. None exactly where its numerator or its denominator is
/// above the limit.
fn weight(factor: u64, dual: &Frac, most: u64) -> Option<Frac>
    requires few { factor ≤ 100 * 2 ^ 32 }
    requires most { most ≤ 2 ^ 32 }
    requires proper { IsFraction dual.now }
    requires low { AtMost (whole_number (pos 0)) dual.now }
    ensures value { IfSome result (λ w. w ≡ lowest_of (times (whole_number (pos factor)) dual.now)) }
    ensures fits { IfSome result (AreFitting most) }
    ensures none { IfNone result (IsLarge most (lowest_of (times (whole_number (pos factor)) dual.now))) }
{
    let weight = match factor_of(factor).mul(dual) {
        Ok(weight) => weight,
        Err(Wide) => return None,
    };
    if weight.num() > i128::from(most) || weight.den() > u128::from(most) {
        return None;
    }
    Some(weight)
}

/// The weights that duals make, times a factor of at most 100 * 2^32. It stops where one of them by
/// itself has a numerator or a denominator above the limit, which is at most 2^32.
pub fn weights_of(alloc: Global, factor: u64, duals: &[Frac], most: u64) -> Result<Vec<Frac>, Stop>
    requires few { factor ≤ 100 * 2 ^ 32 }
    requires most { most ≤ 2 ^ 32 }
    requires low { AreNonNegative duals.now }
    ensures value { IfOk result (λ made. made.items ≡ weights_of_duals factor duals.now) }
    ensures fits { IfOk result (λ made. AllByRecursion (AreFitting most) made.items) }
    ensures stopped { let ws = weights_of_duals factor duals.now in
        IfErr result (IsStoppedBy (Any (IsLarge most) ws)) }
{
    let mut made = Vec::new(alloc);
    for dual in duals {
        match weight(factor, dual, most) {
            Some(weight) => made.push(weight)?,
            None => return Err(Stop::AtLimit(LimitKind::Den)),
        }
    }
    Ok(made)
}

/// The numerator of a weight over a denominator. None exactly where it is above the limit.
fn numerator(weight: &Frac, den: u64, most: u64) -> Option<u64>
    requires den_fits { den ≤ 2 ^ 32 }
    requires most { most ≤ 2 ^ 32 }
    requires fits { AreFitting most weight.now }
    requires low { pos 0 ≤ℤ num_over den weight.now }
    ensures value { IfSome result (λ n. n ≡ unsigned_abs (num_over den weight.now)) }
    ensures fits { IfSome result (λ _. num_over den weight.now ≤ℤ pos most) }
    ensures none { IfNone result (pos most <ℤ num_over den weight.now) }
{
    let number = num_over(weight, den);
    if number > i128::from(most) {
        return None;
    }
    Some(number as u64)
}

/// The numerators of weights over a denominator. It stops where one of them is above the limit,
/// which is at most 2^32.
pub fn numerators(alloc: Global, weights: &[Frac], den: u64, most: u64) -> Result<Vec<u64>, Stop>
    requires den_fits { den ≤ 2 ^ 32 }
    requires most { most ≤ 2 ^ 32 }
    requires fits { AllByRecursion (AreFitting most) weights.now }
    requires low { AllByRecursion (λ w. pos 0 ≤ℤ num_over den w) weights.now }
    ensures value { IfOk result (λ made. made.items ≡ nums_over den weights.now) }
    ensures fits { IfOk result (λ _.
        AllByRecursion (λ w. num_over den w ≤ℤ pos most) weights.now) }
    ensures stopped { IfErr result (IsStoppedBy (Any (λ w. pos most <ℤ num_over den w) weights.now)) }
{
    let mut made = Vec::new(alloc);
    for weight in weights {
        match numerator(weight, den, most) {
            Some(number) => made.push(number)?,
            None => return Err(Stop::AtLimit(LimitKind::Den)),
        }
    }
    Ok(made)
}

/// The rows of a pool's members with these weights, one a member, those of weight 0 left out.
pub fn member_rows(
    alloc: Global,
    pool: &[PoolMember],
    weights: &[u64],
) -> Result<Vec<CertificateRow>, AllocError>
    requires { length weights.now ≡ length pool.now }
    ensures { IfOk result (λ made. made.items ≡ rows_with pool.now weights.now) }
{
    let mut made = Vec::new(alloc);
    for place in 0..pool.len() {
        let member = &pool[place];
        let weight = weights[place];
        if weight > 0 {
            made.push(CertificateRow {
                bidder: member.bidder,
                weight,
                set: member.set,
            })?;
        }
    }
    Ok(made)
}
