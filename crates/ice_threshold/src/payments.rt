//! The payments of a settlement that closes.
ghost use Rattle.std.specs.Prelude.{◌≡◌, ◌<◌, ◌≤◌, ◌*◌, ◌^◌, pos, ◌≤ℤ◌, length, All, IfOk, unsigned_abs};
ghost use Rattle.ice_defs.specs.Sum.{sum_over};
ghost use Rattle.ice_defs.specs.Fraction.{IsFraction, Equals, whole_number, minus, sum_of};
ghost use Rattle.ice_defs.specs.Threshold.{IsThreshold, ArePayments, IsSurplus};
ghost use Rattle.ice_defs.specs.Cut.{IsCut, cut_sum};
ghost use Rattle.ice_threshold.specs.CutOff.{cut_num, IsCutDown, AreCutDown, IsPaid, ArePaid};
ghost use Rattle.ice_threshold.specs.Limits.{IsVickreyLimit, IsValueLimit, IsShort, AreShort};
ghost use Rattle.ice_frac.specs.Lowest.{IsLowest};

use crate::cut::least_cut;
use crate::ratio::{Ratio, fraction, scaled};
use ice_frac::Frac;
use std::alloc::{AllocError, Global};

/// What the bidders of a settlement pay, as exact fractions in the order of the bidders.
pub struct Payments {
    /// The cut off each Vickrey discount.
    pub cut: Frac,
    /// Each bidder's discount.
    pub discounts: Vec<Frac>,
    /// Each bidder's value less its discount: what it pays, or is paid where this is below 0.
    pub payments: Vec<Frac>,
    /// What the discounts leave of the total.
    pub surplus: Frac,
}

// By hand, so that each exit that drops one has one call to prove, and not all its parts.
impl Drop for Payments {
    fn drop(self) {
        let Payments {
            cut: _,
            discounts: _,
            payments: _,
            surplus: _,
        } = self;
    }
}

/// What the cut `num / den` leaves of a Vickrey discount, over `den`.
fn cut_off(vickrey: i128, num: i128, den: u64) -> i128
    requires limited { IsVickreyLimit vickrey }
    requires sized { unsigned_abs num ≤ 2 ^ 56 }
    requires small { den ≤ 40 }
    ensures value { result ≡ cut_num num den vickrey }
    ensures low { pos 0 ≤ℤ result }
    ensures high { result ≤ℤ pos (2 ^ 57) }
{
    let left = scaled(vickrey, den) - num;
    if left < 0 { 0 } else { left }
}

/// What the cut `num / den` leaves of all Vickrey discounts, over `den`.
fn sum_cut_off(vickrey: &[i128], num: i128, den: u64) -> i128
    requires few { length vickrey.now ≤ 40 }
    requires limited { All IsVickreyLimit vickrey.now }
    requires sized { unsigned_abs num ≤ 2 ^ 56 }
    requires small { den ≤ 40 }
    ensures value { result ≡ sum_over (cut_num num den) vickrey.now }
    ensures low { pos 0 ≤ℤ result }
    ensures high { result ≤ℤ pos (2 ^ 57 * 40) }
{
    let mut sum = 0;
    for discount in vickrey {
        sum += cut_off(*discount, num, den);
    }
    sum
}

/// The discount that the cut leaves of a Vickrey discount.
fn discount_at(vickrey: i128, cut: Ratio) -> Frac
    requires { IsVickreyLimit vickrey }
    ensures cut_down { IsCutDown cut result vickrey }
    ensures small { IsShort result }
{
    fraction(cut_off(vickrey, cut.num, cut.den), cut.den)
}

/// The value less the discount that the cut leaves.
fn payment_at(value: i128, vickrey: i128, cut: Ratio) -> Frac
    requires valued { IsValueLimit value }
    requires limited { IsVickreyLimit vickrey }
    ensures paid { IsPaid cut result value vickrey }
    ensures small { IsShort result }
{
    let paid = scaled(value, cut.den) - cut_off(vickrey, cut.num, cut.den);
    fraction(paid, cut.den)
}

/// What the discounts that the cut leaves leave of the total.
fn surplus_at(vickrey: &[i128], total: i128, cut: Ratio) -> Frac
    requires few { length vickrey.now ≤ 40 }
    requires limited { All IsVickreyLimit vickrey.now }
    requires low { pos 0 ≤ℤ total }
    requires high { total ≤ℤ pos (10 ^ 15 * 40) }
    ensures proper { IsFraction result }
    ensures equal { Equals result (minus (whole_number total) (cut_sum cut vickrey.now)) }
    ensures lowest { IsLowest result }
{
    let left = scaled(total, cut.den) - sum_cut_off(vickrey, cut.num, cut.den);
    fraction(left, cut.den)
}

/// The discounts that the cut leaves.
fn discounts_at(alloc: Global, vickrey: &[i128], cut: Ratio) -> Result<Vec<Frac>, AllocError>
    requires limited { All IsVickreyLimit vickrey.now }
    ensures cut_down { IfOk result (λ discounts. AreCutDown cut discounts.items vickrey.now) }
    ensures small { IfOk result (λ discounts. All IsShort discounts.items) }
{
    let mut discounts = Vec::with_capacity(alloc, vickrey.len())?;
    for discount in vickrey {
        discounts.push(discount_at(*discount, cut))?;
    }
    Ok(discounts)
}

/// The values less the discounts that the cut leaves.
fn payments_at(
    alloc: Global,
    values: &[i128],
    vickrey: &[i128],
    cut: Ratio,
) -> Result<Vec<Frac>, AllocError>
    requires same_length { length vickrey.now ≡ length values.now }
    requires valued { All IsValueLimit values.now }
    requires limited { All IsVickreyLimit vickrey.now }
    ensures paid { IfOk result (λ payments. ArePaid cut payments.items values.now vickrey.now) }
    ensures small { IfOk result (λ payments. All IsShort payments.items) }
{
    let mut payments = Vec::with_capacity(alloc, values.len())?;
    for i in 0..values.len() {
        payments.push(payment_at(values[i], vickrey[i], cut))?;
    }
    Ok(payments)
}

/// The Threshold payments for the bidders' values and Vickrey discounts, in one order: the least
/// cut at which the total pays for what is left of the Vickrey discounts, these discounts, and what
/// they make each bidder pay.
///
/// There are 1 to 40 bidders, each Vickrey discount is from 0 to 10^15, each value is within 10^15
/// in size, and the values sum to the total, which is no less than 0. Only want of memory is an
/// error.
pub fn threshold(
    alloc: Global,
    values: &[i128],
    vickrey: &[i128],
    total: i128,
) -> Result<Payments, AllocError>
    requires some { 0 < length values.now }
    requires few { length values.now ≤ 40 }
    requires same_length { length vickrey.now ≡ length values.now }
    requires limited { All IsVickreyLimit vickrey.now }
    requires valued { All IsValueLimit values.now }
    requires summed { sum_over (λ v. v) values.now ≡ total }
    requires rich { pos 0 ≤ℤ total }
    // The cut and the discounts
    ensures cut { IfOk result (λ p. IsCut vickrey.now total p.cut) }
    ensures cut_down { IfOk result (λ p. AreCutDown p.cut p.discounts.items vickrey.now) }
    ensures discounts { IfOk result (λ p. IsThreshold vickrey.now total p.discounts.items) }
    // The payments
    ensures payments { IfOk result
        (λ p. ArePayments values.now p.discounts.items p.payments.items) }
    ensures surplus { IfOk result (λ p. IsSurplus total p.discounts.items p.surplus) }
    ensures balance { IfOk result (λ p. Equals (sum_of p.payments.items) p.surplus) }
    // Their numbers are short
    ensures small { IfOk result (λ p. AreShort p.cut p.surplus p.discounts.items p.payments.items) }
{
    let cut = least_cut(vickrey, total);
    let discounts = discounts_at(alloc, vickrey, cut)?;
    let payments = payments_at(alloc, values, vickrey, cut)?;
    Ok(Payments {
        cut: cut.reduced(),
        discounts,
        payments,
        surplus: surplus_at(vickrey, total, cut),
    })
}
