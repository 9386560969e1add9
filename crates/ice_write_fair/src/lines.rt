//! The lines that are no records, each written into an empty writer.
ghost use Rattle.std.specs.Prelude.{◌≡◌, ◌≤◌, [], length};
ghost use Rattle.ice_defs.specs.PricingLimit.{limit_of};
ghost use Rattle.ice_journal.specs.Spelling.{limit_word};
ghost use Rattle.ice_write_fair.specs.Lines.{distance_line, fairness_line, hold_line, limit_line};

use ice_defs::LimitKind;
use ice_fair::FairLimit;
use ice_frac::Frac;
use ice_line::LineWriter;

/// Writes the line of a distance, in lowest terms.
pub(crate) fn write_distance<'a>(distance: &Frac, to: &'a mut LineWriter) -> &'a [u8]
    requires { to.old ≡ [] }
    ensures { result.now ≡ distance_line distance.now }
{
    to.word(b"distance");
    to.fraction(distance.num(), distance.den() as i128);
    to.end()
}

/// Writes the line of the denominator of a certificate of fair prices.
pub(crate) fn write_fairness(den: u64, to: &mut LineWriter) -> &[u8]
    requires { to.old ≡ [] }
    ensures { result.now ≡ fairness_line den }
{
    to.word(b"fairness");
    to.natural(den);
    to.end()
}

/// Writes the line of a bidder's two numbers.
pub(crate) fn write_hold(bidder: u8, low: u64, high: u64, to: &mut LineWriter) -> &[u8]
    requires { to.old ≡ [] }
    ensures { result.now ≡ hold_line bidder low high }
{
    to.word(b"hold");
    to.natural(u64::from(bidder));
    to.natural(low);
    to.natural(high);
    to.end()
}

/// The word of a limit.
fn word_of(kind: LimitKind) -> &'static [u8]
    ensures word { result.now ≡ limit_word (limit_of kind) }
    ensures short { length result.now ≤ 6 }
{
    match kind {
        LimitKind::Wide => b"wide",
        LimitKind::Pivots => b"pivots",
        LimitKind::Rows => b"rows",
        LimitKind::Den => b"den",
    }
}

/// Writes the line of a limit.
pub(crate) fn write_limit<'a>(limit: &FairLimit, to: &'a mut LineWriter) -> &'a [u8]
    requires { to.old ≡ [] }
    ensures { result.now ≡ limit_line limit.now }
{
    to.word(b"limit");
    to.word(b"fairness");
    to.word(word_of(limit.kind));
    to.number(limit.delta);
    to.natural(limit.den);
    to.end()
}
