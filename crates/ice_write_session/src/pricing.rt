//! Prices with their certificates.
ghost use Rattle.std.specs.Prelude.{◌≡◌, ◌∷◌, [], map};
ghost use Rattle.std.specs.List.{AllByRecursion};
ghost use Rattle.ice_edge.specs.Puts.{IsPut};
ghost use Rattle.ice_journal.specs.Records as line;
ghost use Rattle.ice_journal.specs.Ranges.{IsDen, IsRecord, IsViolationField};
ghost use Rattle.ice_journal.specs.Journal.{bytes_of};
ghost use Rattle.ice_journal.specs.Spelling.{line_of};
ghost use Rattle.ice_journal_laws.specs.Written.{row_record};
ghost use Rattle.ice_write_session.specs.Records.{pricing_records};
ghost use Rattle.ice_write_session.specs.Writable.{IsWritableRow, IsWritableCertificate, IsWritablePricing};

use crate::record::put_line;
use ice_edge::{Sink, SinkFault};
use ice_journal::Line;
use ice_pricing::{Certificate, CertificateRow, Pricing};
use ice_terms::Prices;
use ice_write::put_record;

/// Puts the `prices` record.
fn put_prices<K: Sink>(prices: &Prices, out: &mut K) -> Result<(), SinkFault>
    ensures { IsPut (bytes_of (line.prices prices.now ∷ [])) result
        (K.taken out.old) (K.taken out.new) }
{
    // Prices are terms that a record may have.
    let _den = prices.den();
    put_line(&Line::Prices(prices.copy()), out)
}

/// Puts a row of a certificate.
fn put_row<K: Sink>(row: &CertificateRow, out: &mut K) -> Result<(), SinkFault>
    requires { IsWritableRow row.now }
    ensures { IsPut (line_of (row_record row.now)) result (K.taken out.old) (K.taken out.new) }
{
    let line = Line::Row {
        bidder: row.bidder,
        weight: row.weight,
        set: row.set,
    };
    put_record(&line, out)
}

/// Puts rows.
fn put_each_row<K: Sink>(rows: &[CertificateRow], out: &mut K) -> Result<(), SinkFault>
    requires { AllByRecursion IsWritableRow rows.now }
    ensures { IsPut (bytes_of (map row_record rows.now)) result
        (K.taken out.old) (K.taken out.new) }
{
    for row in rows {
        put_row(row, out)?;
    }
    Ok(())
}

/// Puts the `row` records of a certificate, whose numbers are in their ranges. It takes no memory.
pub fn put_rows<K: Sink>(certificate: &Certificate, out: &mut K) -> Result<(), SinkFault>
    requires { AllByRecursion IsWritableRow certificate.now.rows }
    ensures { IsPut (bytes_of (map row_record certificate.now.rows)) result
        (K.taken out.old) (K.taken out.new) }
{
    put_each_row(&certificate.rows, out)
}

fn den_of(certificate: &Certificate) -> u64
    ensures { result ≡ certificate.now.den }
{
    certificate.den
}

/// Puts the violation, and the denominator of its certificate.
fn put_violation<K: Sink>(
    violation: &i128,
    accuracy: &Certificate,
    out: &mut K,
) -> Result<(), SinkFault>
    requires violation { IsViolationField violation.now }
    requires den { IsDen accuracy.now.den }
    ensures { IsPut (bytes_of (line.accuracy violation.now accuracy.now.den ∷ [])) result
        (K.taken out.old) (K.taken out.new) }
{
    let line = Line::Accuracy {
        violation: *violation,
        den: den_of(accuracy),
    };
    put_line(&line, out)
}

/// Puts the denominator of the certificate of the greatest price.
fn put_balance_den<K: Sink>(balance: &Certificate, out: &mut K) -> Result<(), SinkFault>
    requires { IsDen balance.now.den }
    ensures { IsPut (bytes_of (line.balance balance.now.den ∷ [])) result
        (K.taken out.old) (K.taken out.new) }
{
    let line = Line::Balance {
        den: den_of(balance),
    };
    put_line(&line, out)
}

/// Puts prices, their violation, and the certificate of it, whose numbers are in the ranges of
/// their records. It takes no memory.
pub fn put_accuracy<K: Sink>(
    prices: &Prices,
    violation: &i128,
    accuracy: &Certificate,
    out: &mut K,
) -> Result<(), SinkFault>
    requires violation { IsViolationField violation.now }
    requires certificate { IsWritableCertificate accuracy.now }
    ensures { IsPut (bytes_of (line.prices prices.now
        ∷ line.accuracy violation.now accuracy.now.den
        ∷ map row_record accuracy.now.rows)) result (K.taken out.old) (K.taken out.new) }
{
    put_prices(prices, out)?;
    put_violation(violation, accuracy, out)?;
    put_rows(accuracy, out)
}

/// Puts the certificate of the greatest price.
fn put_balance<K: Sink>(balance: &Certificate, out: &mut K) -> Result<(), SinkFault>
    requires { IsWritableCertificate balance.now }
    ensures { IsPut (bytes_of (line.balance balance.now.den ∷ map row_record balance.now.rows))
        result (K.taken out.old) (K.taken out.new) }
{
    put_balance_den(balance, out)?;
    put_rows(balance, out)
}

/// Puts prices with their certificates, whose numbers are in the ranges of their records; those of
/// prices always are. It takes no memory.
pub fn put_pricing<K: Sink>(pricing: &Pricing, out: &mut K) -> Result<(), SinkFault>
    requires { IsWritablePricing pricing.now }
    ensures put { IsPut (bytes_of (pricing_records pricing.now)) result
        (K.taken out.old) (K.taken out.new) }
    ensures prices { IsRecord (line.prices pricing.now.prices) }
{
    // Prices are terms that a record may have.
    let _den = pricing.prices.den();
    put_accuracy(&pricing.prices, &pricing.delta, &pricing.accuracy, out)?;
    put_balance(&pricing.balance, out)
}
