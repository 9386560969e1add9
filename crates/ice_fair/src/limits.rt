//! Whether a certificate of fair prices is within its limits.
ghost use Rattle.std.specs.Prelude.{◌≤◌, ◌^◌, IsTrue};
ghost use Rattle.std.specs.List.{AllByRecursion};
ghost use Rattle.ice_fair_stage.specs.Certified.{IsFairLimited};

use ice_fair_stage::{FairCertificate, GREATEST_FAIR_NUMBER};
use ice_pricing::CertificateRow;

/// Whether no number is above 2^24.
fn are_small(numbers: &[u64]) -> bool
    ensures yes { IsTrue result → AllByRecursion (λ n. n ≤ 2 ^ 24) numbers.now }
    ensures no { AllByRecursion (λ n. n ≤ 2 ^ 24) numbers.now → IsTrue result }
{
    for number in numbers {
        if *number > GREATEST_FAIR_NUMBER {
            return false;
        }
    }
    true
}

/// Whether no row has a weight above 2^24.
fn have_small_weights(rows: &[CertificateRow]) -> bool
    ensures yes { IsTrue result → AllByRecursion (λ row. row.weight ≤ 2 ^ 24) rows.now }
    ensures no { AllByRecursion (λ row. row.weight ≤ 2 ^ 24) rows.now → IsTrue result }
{
    for row in rows {
        if row.weight > GREATEST_FAIR_NUMBER {
            return false;
        }
    }
    true
}

/// Whether the denominator is from 1 to 2^24, there are two numbers for each of so many bidders and
/// at most 200 rows, and no number or weight is above 2^24.
pub(crate) fn is_fair_limited(certificate: &FairCertificate, bidders: u8) -> bool
    ensures yes { IsTrue result → IsFairLimited bidders certificate.now }
    ensures no { IsFairLimited bidders certificate.now → IsTrue result }
{
    let den = certificate.certificate.den;
    if den == 0 || den > GREATEST_FAIR_NUMBER || certificate.certificate.rows.len() > 200 {
        return false;
    }
    let bidders = usize::from(bidders);
    if certificate.low.len() != bidders || certificate.high.len() != bidders {
        return false;
    }
    are_small(&certificate.low)
        && are_small(&certificate.high)
        && have_small_weights(&certificate.certificate.rows)
}
