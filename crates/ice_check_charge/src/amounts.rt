//! The amounts of a charge in whole numbers.
ghost use Rattle.std.specs.Prelude.{◌≡◌, ◌≤◌, ◌*◌, ◌^◌, ◌↔◌, IsTrue, false, pos, ◌-ℤ◌, ◌*ℤ◌, ◌≤ℤ◌, length, unsigned_abs};
ghost use Rattle.ice_defs.specs.Fraction.{whole_number, AtMost, Equals};
ghost use Rattle.ice_defs.specs.Sum.{sum_over};
ghost use Rattle.ice_journal.specs.Lines.{fraction_of};
ghost use Rattle.ice_threshold.specs.CutOff.{cut_num};
ghost use Rattle.ice_check_charge.specs.Tests.{vickreys_of, IsReached, IsWorth};

use ice_journal::LowestFraction;

/// By how much the total is above the value without a bidder.
pub(crate) fn vickrey(total: i64, without: i64) -> i128
    ensures value { result ≡ total -ℤ without }
    ensures size { unsigned_abs result ≤ 2 ^ 65 }
{
    i128::from(total) - i128::from(without)
}

/// A number times a denominator.
pub(crate) fn scaled(number: i128, den: u16) -> i128
    requires sized { unsigned_abs number ≤ 2 ^ 65 }
    ensures value { result ≡ number *ℤ pos den }
    ensures size { unsigned_abs result ≤ 2 ^ 81 }
{
    number * i128::from(den)
}

/// What the cut leaves of a Vickrey discount, over the cut's denominator.
pub(crate) fn cut_off(vickrey: i128, cut: &LowestFraction) -> i128
    requires sized { unsigned_abs vickrey ≤ 2 ^ 65 }
    ensures value { result ≡ cut_num cut.now.num cut.now.den vickrey }
    ensures low { pos 0 ≤ℤ result }
    ensures high { result ≤ℤ pos (2 ^ 82) }
{
    let left = scaled(vickrey, cut.den) - i128::from(cut.num);
    if left < 0 { 0 } else { left }
}

/// What the cut leaves of all Vickrey discounts, over the cut's denominator.
pub(crate) fn sum_cut_off(withouts: &[i64], total: i64, cut: &LowestFraction) -> i128
    requires few { length withouts.now ≤ 40 }
    ensures value { result
        ≡ sum_over (cut_num cut.now.num cut.now.den) (vickreys_of total withouts.now) }
    ensures low { pos 0 ≤ℤ result }
    ensures high { result ≤ℤ pos (2 ^ 82 * 40) }
{
    let mut sum = 0;
    for without in withouts {
        sum += cut_off(vickrey(total, *without), cut);
    }
    sum
}

/// Whether a Vickrey discount is at least the cut.
fn reaches(vickrey: i128, cut: &LowestFraction) -> bool
    requires sized { unsigned_abs vickrey ≤ 2 ^ 65 }
    ensures { IsTrue result ↔ AtMost (fraction_of cut.now) (whole_number vickrey) }
{
    i128::from(cut.num) <= scaled(vickrey, cut.den)
}

/// Whether some Vickrey discount is at least the cut.
pub(crate) fn is_reached(withouts: &[i64], total: i64, cut: &LowestFraction) -> bool
    ensures yes { IsTrue result → IsReached (fraction_of cut.now) total withouts.now }
    ensures no { result ≡ false → ¬ IsReached (fraction_of cut.now) total withouts.now }
{
    for without in withouts {
        if reaches(vickrey(total, *without), cut) {
            return true;
        }
    }
    false
}

/// Whether a fraction equals `num / den`.
pub(crate) fn equals(fraction: &LowestFraction, num: i128, den: u16) -> bool
    ensures { IsTrue result ↔ Equals (fraction_of fraction.now) (record { num = num; den = den }) }
{
    match num.checked_mul(i128::from(fraction.den)) {
        Some(product) => i128::from(fraction.num) * i128::from(den) == product,
        None => false,
    }
}

/// The value of a set less a discount, over the discount's denominator.
pub(crate) fn owed(worth: i128, discount: &LowestFraction) -> i128
    requires worth { IsWorth worth }
    requires den { discount.now.den ≤ 1000 }
    ensures { result ≡ worth *ℤ pos discount.now.den -ℤ discount.now.num }
{
    worth * i128::from(discount.den) - i128::from(discount.num)
}
