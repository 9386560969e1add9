//! The payments, tested against the cut and the bidders' values.
ghost use Rattle.std.specs.Prelude.{◌≡◌, ◌≤◌, ◌<◌, IsTrue, false, ◌-ℤ◌};
ghost use Rattle.std.specs.Str.{bytes_eq};
ghost use Rattle.ice_journal.specs.Lines.{record_of, fraction_of};
ghost use Rattle.ice_journal.specs.Ranges.{IsRecord};
ghost use Rattle.ice_journal_laws.specs.Tests.{IsPaymentLine};
ghost use Rattle.ice_check_charge.specs.Tests.{IsWorth, IsPaidAt};
ghost use Rattle.ice_check_charge.specs.Stated.{payment_of, payment_record};
ghost use Rattle.ice_check_charge.specs.Charging.{TakesPayment};

use crate::amounts::{cut_off, equals, owed, vickrey};
use crate::charge::Charge;
use crate::due::Due;
use crate::lines::{StatedPayment, payment_in};
use ice_journal::{Line, LowestFraction};
use ice_journal_laws::Rule;
use ice_terms::Name;

/// Whether two names are one.
fn is_named(name: &Name, other: &Name) -> bool
    ensures { result ≡ bytes_eq name.now other.now }
{
    name == other
}

/// Whether this is the discount that the cut leaves of a Vickrey discount, and this the payment
/// that the discount leaves of the value of a set: discount = max(0, vickrey - cut), and payment =
/// worth - discount, as fractions, whatever they are over.
///
/// The cut's denominator is positive, the discount's at most 1,000, and the value of a set is in
/// the range of such values. It takes no memory.
pub fn is_paid(
    cut: &LowestFraction,
    vickrey: i64,
    worth: i128,
    discount: &LowestFraction,
    payment: &LowestFraction,
) -> bool
    requires proper { 0 < cut.now.den }
    requires worth { IsWorth worth }
    requires den { discount.now.den ≤ 1000 }
    ensures yes { IsTrue result → IsPaidAt (fraction_of cut.now) vickrey worth
        (fraction_of discount.now) (fraction_of payment.now) }
    ensures no { result ≡ false → ¬ IsPaidAt (fraction_of cut.now) vickrey worth
        (fraction_of discount.now) (fraction_of payment.now) }
{
    if !equals(discount, cut_off(i128::from(vickrey), cut), cut.den) {
        return false;
    }
    let paid = owed(worth, discount);
    equals(payment, paid, discount.den)
}

/// Whether a payment is what is due at this cut.
fn is_due(cut: &LowestFraction, due: &Due<'_>, stated: &StatedPayment<'_>) -> bool
    requires proper { 0 < cut.now.den }
    requires worth { IsWorth due.now.worth }
    requires den { stated.now.discount.den ≤ 1000 }
    ensures yes { IsTrue result → IsPaymentLine (due.now.total -ℤ due.now.without) due.now.worth
        (fraction_of cut.now) (payment_of stated.now) }
    ensures no { result ≡ false → ¬ IsPaymentLine (due.now.total -ℤ due.now.without) due.now.worth
        (fraction_of cut.now) (payment_of stated.now) }
{
    if i128::from(stated.vickrey) != vickrey(due.total, due.without) {
        return false;
    }
    is_paid(
        cut,
        stated.vickrey,
        due.worth,
        &stated.discount,
        &stated.payment,
    )
}

/// A stated payment.
fn take_stated(charge: &Charge, due: &Due<'_>, stated: &StatedPayment<'_>) -> Result<(), Rule>
    requires worth { IsWorth due.now.worth }
    requires lawful { IsRecord (payment_record stated.now) }
    ensures { TakesPayment charge.now.cut due.now (payment_record stated.now) result }
{
    if !is_named(stated.name, due.name) {
        return Err(Rule::Order);
    }
    if is_due(&charge.cut(), due, stated) {
        Ok(())
    } else {
        Err(Rule::Payment)
    }
}

/// Takes the record of a bidder's payment. It fails `Order` where it is another record, or is of
/// another bidder, and `Payment` where its Vickrey discount, its discount or its payment is not
/// what is due at the charge's cut.
pub fn take_payment(charge: &Charge, due: &Due<'_>, line: &Line) -> Result<(), Rule>
    requires worth { IsWorth due.now.worth }
    requires lawful { IsRecord (record_of line.now) }
    ensures { TakesPayment charge.now.cut due.now (record_of line.now) result }
{
    match payment_in(line) {
        Some(stated) => take_stated(charge, due, &stated),
        None => Err(Rule::Order),
    }
}
