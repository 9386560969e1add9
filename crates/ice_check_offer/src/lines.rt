//! The records of an offer.
ghost use Rattle.std.specs.Prelude.{◌≡◌, ◌≤◌, ℕ, None, MatchOption, length};
ghost use Rattle.ice_journal.specs.Lines.{record_of};
ghost use Rattle.ice_journal.specs.Ranges.{IsRecord, IsSubmission};
ghost use Rattle.ice_journal.specs.Records as records;
ghost use Rattle.ice_journal_laws.specs.Fields.{is_limit, is_round_stop, prices_in, accuracy_in, balance_in, row_in, submission_in, settlement_in, verdict_in};

use arrayvec::ArrayVec;
use ice_defs::Verdict;
use ice_journal::{EndWord, Line};
use ice_pricing::CertificateRow;
use ice_terms::{Bid, Name, Prices};

/// Whether the record begins a stop in the place of the prices.
pub(crate) fn is_limit(line: &Line) -> bool
    ensures { result ≡ is_limit (record_of line.now) }
{
    matches!(line, Line::Limit { .. })
}

/// Whether the record ends the session for want of this round file.
pub(crate) fn stops_round(file: u8, line: &Line) -> bool
    ensures { result ≡ is_round_stop file (record_of line.now) }
{
    match line {
        Line::End(EndWord::Open) => true,
        Line::Refused { file: other, .. } => *other == file,
        Line::Unread { file: other } => *other == file,
        _ => false,
    }
}

/// The prices that the record states.
pub(crate) fn prices_in<'line>(line: &'line Line<'_>) -> Option<&'line Prices>
    ensures { MatchOption result ((goods : ℕ) → prices_in goods (record_of line.now) ≡ None)
        (λ prices. record_of line.now ≡ records.prices prices.now) }
{
    match line {
        Line::Prices(prices) => Some(prices),
        _ => None,
    }
}

/// A violation, and the denominator of a certificate.
#[derive(Drop)]
pub(crate) struct StatedViolation {
    pub(crate) violation: i128,
    pub(crate) den: u64,
}

/// The violation and the denominator that the record states.
pub(crate) fn accuracy_in(line: &Line) -> Option<StatedViolation>
    ensures { MatchOption result (accuracy_in (record_of line.now) ≡ None)
        (λ stated. record_of line.now ≡ records.accuracy stated.violation stated.den) }
{
    match line {
        Line::Accuracy { violation, den } => Some(StatedViolation {
            violation: *violation,
            den: *den,
        }),
        _ => None,
    }
}

/// The denominator of the balance.
pub(crate) fn balance_in(line: &Line) -> Option<u64>
    ensures { MatchOption result (balance_in (record_of line.now) ≡ None)
        (λ den. record_of line.now ≡ records.balance den) }
{
    match line {
        Line::Balance { den } => Some(*den),
        _ => None,
    }
}

/// The row that the record states.
pub(crate) fn row_in(line: &Line) -> Option<CertificateRow>
    ensures { MatchOption result (row_in (record_of line.now) ≡ None)
        (λ row. record_of line.now ≡ records.row row.bidder row.weight row.set) }
{
    match line {
        Line::Row {
            bidder,
            weight,
            set,
        } => Some(CertificateRow {
            bidder: *bidder,
            weight: *weight,
            set: *set,
        }),
        _ => None,
    }
}

/// The same values, kept in place.
fn widened(values: &[i32]) -> ArrayVec<i64, 200>
    requires { length values.now ≤ 200 }
    ensures { result.items ≡ values.now }
{
    let mut list = ArrayVec::new();
    for value in values {
        list.push(i64::from(*value));
    }
    list
}

/// The bid of this name with these values of a record.
pub fn bid_of(name: &Name, lo: &[i32], hi: &[i32]) -> Bid
    requires { IsSubmission (record { name = name.now; lo = lo.now; hi = hi.now }) }
    ensures { result ≡ record { name = name.now; lo = lo.now; hi = hi.now } }
{
    Bid::new(name.copy(), widened(lo), widened(hi))
}

/// The bid that the record states.
pub(crate) fn bid_in(line: &Line) -> Option<Bid>
    requires { IsRecord (record_of line.now) }
    ensures { MatchOption result (submission_in (record_of line.now) ≡ None)
        (λ bid. record_of line.now ≡ records.submit bid) }
{
    match line {
        Line::Submit { name, lo, hi } => Some(bid_of(name, lo, hi)),
        _ => None,
    }
}

/// The number of the settlement that the record begins.
pub(crate) fn settlement_in(line: &Line) -> Option<u8>
    ensures { MatchOption result (settlement_in (record_of line.now) ≡ None)
        (λ number. record_of line.now ≡ records.settle number) }
{
    match line {
        Line::Settle { number } => Some(*number),
        _ => None,
    }
}

/// The verdict that the record states.
pub(crate) fn verdict_in(line: &Line) -> Option<Verdict>
    ensures { MatchOption result (verdict_in (record_of line.now) ≡ None)
        (λ verdict. record_of line.now ≡ records.verdict verdict) }
{
    match line {
        Line::Verdict(verdict) => Some(*verdict),
        _ => None,
    }
}
