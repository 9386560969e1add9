//! The payments behind the last cut of a journal.
ghost use Rattle.std.specs.Prelude.{◌≡◌, [], ◌∷◌, ◌++◌, OnOk};
ghost use Rattle.ice_frac.specs.Lowest.{IsLowest};
ghost use Rattle.ice_journal.specs.Lines.{record_of, fraction_of};
ghost use Rattle.ice_journal.specs.Ranges.{IsRecord};
ghost use Rattle.ice_last.specs.Watching.{PaysOn};

use ice_frac::Frac;
use ice_journal::{Line, LowestFraction};
use std::alloc::AllocError;

/// The fraction that a record states.
fn fraction(stated: &LowestFraction) -> Frac
    requires { IsLowest (fraction_of stated.now) }
    ensures { result ≡ fraction_of stated.now }
{
    match Frac::new(i128::from(stated.num), i128::from(stated.den)) {
        Some(fraction) => fraction,
        None => unreachable!(),
    }
}

/// One more payment.
fn push_payment(payments: &mut Vec<Frac>, payment: &LowestFraction) -> Result<(), AllocError>
    requires { IsLowest (fraction_of payment.now) }
    ensures { OnOk result (payments.new.items
        ≡ payments.old.items ++ fraction_of payment.now ∷ []) }
{
    payments.push(fraction(payment))?;
    Ok(())
}

/// Takes what the next record says of payments: a cut begins them anew, and a payment is one more.
pub(crate) fn take_payment(payments: &mut Vec<Frac>, line: &Line) -> Result<(), AllocError>
    requires { IsRecord (record_of line.now) }
    ensures { OnOk result (PaysOn payments.old.items (record_of line.now) payments.new.items) }
{
    match line {
        Line::Threshold { .. } => {
            payments.clear();
            Ok(())
        }
        Line::Payment { payment, .. } => push_payment(payments, payment),
        _ => Ok(()),
    }
}
