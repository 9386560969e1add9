//! The records of a charge.
ghost use Rattle.std.specs.Prelude.{◌≡◌, None, MatchOption};
ghost use Rattle.ice_journal.specs.Lines.{record_of};
ghost use Rattle.ice_journal_laws.specs.Fields.{threshold_in, payment_in};
ghost use Rattle.ice_check_charge.specs.Stated.{cut_record, payment_record};

use ice_journal::{Line, LowestFraction};
use ice_terms::Name;

/// A cut and a surplus.
#[derive(Drop)]
pub(crate) struct StatedCut {
    pub(crate) cut: LowestFraction,
    pub(crate) surplus: LowestFraction,
}

/// The cut and the surplus that the record states.
pub(crate) fn threshold_in(line: &Line) -> Option<StatedCut>
    ensures { MatchOption result (threshold_in (record_of line.now) ≡ None)
        (λ x. record_of line.now ≡ cut_record x) }
{
    match line {
        Line::Threshold { cut, surplus } => Some(StatedCut {
            cut: *cut,
            surplus: *surplus,
        }),
        _ => None,
    }
}

/// A bidder's name, its Vickrey discount, its discount and its payment.
#[derive(Drop)]
pub(crate) struct StatedPayment<'a> {
    pub(crate) name: &'a Name,
    pub(crate) vickrey: i64,
    pub(crate) discount: LowestFraction,
    pub(crate) payment: LowestFraction,
}

/// The payment that the record states.
pub(crate) fn payment_in<'line>(line: &'line Line<'_>) -> Option<StatedPayment<'line>>
    ensures { MatchOption result (payment_in (record_of line.now) ≡ None)
        (λ x. record_of line.now ≡ payment_record x) }
{
    match line {
        Line::Payment {
            name,
            vickrey,
            discount,
            payment,
        } => Some(StatedPayment {
            name,
            vickrey: *vickrey,
            discount: *discount,
            payment: *payment,
        }),
        _ => None,
    }
}
