//! The lines of a distance, and of the certificate that shows it.
ghost use Rattle.std.specs.Prelude.{◌≡◌};
ghost use Rattle.ice_edge.specs.Puts.{IsPut};
ghost use Rattle.ice_write_fair.specs.Lines.{distance_line, fairness_line, certificate_lines};
ghost use Rattle.ice_write_fair.specs.Writable.{IsWritableFairCertificate};

use crate::holds::put_holds;
use crate::lines::{write_distance, write_fairness};
use ice_edge::{Sink, SinkFault};
use ice_fair::FairCertificate;
use ice_frac::Frac;
use ice_line::LineWriter;
use ice_pricing::Certificate;
use ice_write_session::put_rows;

/// Puts a distance.
pub(crate) fn put_distance<K: Sink>(distance: &Frac, out: &mut K) -> Result<(), SinkFault>
    ensures { IsPut (distance_line distance.now) result (K.taken out.old) (K.taken out.new) }
{
    let mut writer = LineWriter::new();
    out.put(write_distance(distance, &mut writer))
}

/// Puts the denominator of a certificate.
fn put_den<K: Sink>(certificate: &FairCertificate, out: &mut K) -> Result<(), SinkFault>
    ensures { IsPut (fairness_line certificate.now.den) result
        (K.taken out.old) (K.taken out.new) }
{
    let mut writer = LineWriter::new();
    out.put(write_fairness(certificate.certificate.den, &mut writer))
}

fn low_of(certificate: &FairCertificate) -> &[u64]
    ensures { result.now ≡ certificate.now.low }
{
    &certificate.low
}

fn high_of(certificate: &FairCertificate) -> &[u64]
    ensures { result.now ≡ certificate.now.high }
{
    &certificate.high
}

fn rows_of(certificate: &FairCertificate) -> &Certificate
    ensures { result.now.rows ≡ certificate.now.rows }
{
    &certificate.certificate
}

/// Puts a certificate: its denominator, the bidders' numbers and its rows.
pub(crate) fn put_certificate<K: Sink>(
    certificate: &FairCertificate,
    out: &mut K,
) -> Result<(), SinkFault>
    requires { IsWritableFairCertificate certificate.now }
    ensures { IsPut (certificate_lines certificate.now) result (K.taken out.old) (K.taken out.new) }
{
    put_den(certificate, out)?;
    put_holds(low_of(certificate), high_of(certificate), out)?;
    put_rows(rows_of(certificate), out)
}
