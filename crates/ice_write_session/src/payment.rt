//! What the bidders of a settlement that closes pay.
ghost use Rattle.std.specs.Prelude.{◌≡◌, ◌<◌, ◌∷◌, [], length, map};
ghost use Rattle.ice_edge.specs.Puts.{IsPut};
ghost use Rattle.ice_journal.specs.Records as line;
ghost use Rattle.ice_journal.specs.Ranges.{IsRecord};
ghost use Rattle.ice_journal.specs.Journal.{bytes_of};
ghost use Rattle.ice_journal.specs.Lines.{record_of};
ghost use Rattle.ice_journal_laws.specs.Written.{payment_record};
ghost use Rattle.ice_settled.specs.Shown.{charges_of};
ghost use Rattle.ice_write_session.specs.Payments.{payment_at};
ghost use Rattle.ice_write_session.specs.Records.{charged_records};
ghost use Rattle.ice_write_session.specs.Writable.{IsWritableCharged, IsWritablePayment};

use crate::fraction::lowest_fraction;
use crate::record::{put_end, put_line};
use ice_edge::{Sink, SinkFault};
use ice_frac::Frac;
use ice_journal::{EndWord, Line};
use ice_settled::Charged;
use ice_terms::Name;
use ice_write::put_record;

/// Puts the cut and the surplus.
fn put_threshold<K: Sink>(charged: &Charged, out: &mut K) -> Result<(), SinkFault>
    requires { IsWritableCharged charged.now }
    ensures { IsPut
        (bytes_of (line.threshold charged.now.payments.cut charged.now.payments.surplus ∷ []))
        result (K.taken out.old) (K.taken out.new) }
{
    let line = Line::Threshold {
        cut: lowest_fraction(&charged.payments.cut),
        surplus: lowest_fraction(&charged.payments.surplus),
    };
    put_line(&line, out)
}

/// The line of a payment.
fn paid_line(name: Name, vickrey: &i128, discount: &Frac, payment: &Frac) -> Line<'static>
    requires { IsWritablePayment (record {
      name = name;
      vickrey = vickrey.now;
      discount = discount.now;
      payment = payment.now;
    }) }
    ensures { record_of result ≡ payment_record (record {
      name = name;
      vickrey = vickrey.now;
      discount = discount.now;
      payment = payment.now;
    }) }
{
    Line::Payment {
        name,
        vickrey: *vickrey as i64,
        discount: lowest_fraction(discount),
        payment: lowest_fraction(payment),
    }
}

/// The line of what a bidder pays.
fn payment_line(charged: &Charged, bidder: u8) -> Line<'static>
    requires written { IsWritableCharged charged.now }
    requires bidder { bidder < length charged.now.exchange.bidders }
    ensures line { record_of result ≡ payment_record (payment_at charged.now bidder) }
    ensures record { IsRecord (record_of result) }
{
    let at = usize::from(bidder);
    paid_line(
        charged.exchange.bidder_name(bidder).copy(),
        &charged.vickreys[at],
        &charged.payments.discounts[at],
        &charged.payments.payments[at],
    )
}

/// Puts what each bidder pays, in order.
fn put_payments<K: Sink>(charged: &Charged, out: &mut K) -> Result<(), SinkFault>
    requires { IsWritableCharged charged.now }
    ensures { IsPut
        (bytes_of (map payment_record (charges_of charged.now))) result
        (K.taken out.old) (K.taken out.new) }
{
    for bidder in 0..charged.exchange.bidders() {
        put_record(&payment_line(charged, bidder), out)?;
    }
    Ok(())
}

/// Puts the cut and the surplus, and what each bidder pays.
fn put_charges<K: Sink>(charged: &Charged, out: &mut K) -> Result<(), SinkFault>
    requires { IsWritableCharged charged.now }
    ensures { IsPut (bytes_of (line.threshold charged.now.payments.cut charged.now.payments.surplus
        ∷ map payment_record (charges_of charged.now))) result
        (K.taken out.old) (K.taken out.new) }
{
    put_threshold(charged, out)?;
    put_payments(charged, out)
}

/// Puts what the settlement that closes a session has behind the groups without each bidder: the
/// cut and the surplus, what each bidder pays, and the end of the journal. All numbers are in the
/// ranges of their records. It takes no memory.
pub fn put_charged<K: Sink>(charged: &Charged, out: &mut K) -> Result<(), SinkFault>
    requires { IsWritableCharged charged.now }
    ensures { IsPut (bytes_of (charged_records charged.now)) result
        (K.taken out.old) (K.taken out.new) }
{
    put_charges(charged, out)?;
    put_end(EndWord::Closed, out)
}
