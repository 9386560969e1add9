//! The records of prices, rounds and settlements, and of ends and refusals, written into a line.
ghost use Rattle.std.specs.Prelude.{◌≡◌, ◌+◌, ◌≤◌, [], length};
ghost use Rattle.std.specs.Fmt.{signed_decimal};
ghost use Rattle.std.specs.List.{AllByRecursion};
ghost use Rattle.ice_line.specs.Writing.{with_field, with_fields};
ghost use Rattle.ice_journal.specs.Records as line;
ghost use Rattle.ice_journal.specs.Ranges.{IsValue};
ghost use Rattle.ice_journal.specs.Spelling.{text_of, end_word, stage_word, limit_word, counted_list};
ghost use Rattle.ice_journal.specs.Lines.{end_of, fraction_of};
ghost use Rattle.ice_defs.specs.PricingLimit.{stage_of, limit_of};

use crate::line::{EndWord, LowestFraction};
use crate::write_fields::{put_fraction, put_integers, put_set};
use ice_defs::{LimitKind, PricingStage, Verdict};
use ice_line::LineWriter;
use ice_set::NodeSet;
use ice_terms::{Name, Prices};

fn end_text(word: EndWord) -> &'static [u8]
    ensures text { result.now ≡ end_word (end_of word) }
    ensures short { length result.now ≤ 8 }
{
    match word {
        EndWord::Assign => b"assign",
        EndWord::Exchange => b"exchange",
        EndWord::Prices => b"prices",
        EndWord::Regret => b"regret",
        EndWord::Closed => b"closed",
        EndWord::Open => b"open",
        EndWord::Spent => b"spent",
        EndWord::Limit => b"limit",
    }
}

fn stage_text(stage: PricingStage) -> &'static [u8]
    ensures text { result.now ≡ stage_word (stage_of stage) }
    ensures short { length result.now ≤ 8 }
{
    match stage {
        PricingStage::Accuracy => b"accuracy",
        PricingStage::Balance => b"balance",
    }
}

fn limit_text(kind: LimitKind) -> &'static [u8]
    ensures text { result.now ≡ limit_word (limit_of kind) }
    ensures short { length result.now ≤ 8 }
{
    match kind {
        LimitKind::Wide => b"wide",
        LimitKind::Pivots => b"pivots",
        LimitKind::Rows => b"rows",
        LimitKind::Den => b"den",
    }
}

fn put_value(value: i32, to: &mut LineWriter)
    requires room { length to.old ≤ 8000 }
    requires value { IsValue value }
    ensures field { to.new ≡ with_field to.old (signed_decimal value) }
    ensures len { length to.new ≤ length to.old + 12 }
{
    to.integer(i64::from(value));
}

fn put_values(values: &[i32], to: &mut LineWriter)
    requires room { length to.old ≤ 3000 }
    requires count { length values.now ≤ 200 }
    requires values { AllByRecursion IsValue values.now }
    ensures fields { to.new ≡ with_fields to.old (counted_list values.now) }
    ensures len { length to.new ≤ length to.old + 2441 }
{
    to.natural(values.len() as u64);
    for value in values {
        put_value(*value, to);
    }
}

pub(crate) fn put_verdict(verdict: Verdict, to: &mut LineWriter)
    requires { to.old ≡ [] }
    ensures text { to.new ≡ text_of (line.verdict verdict) }
    ensures short { length to.new ≤ 8192 }
{
    to.word(b"verdict");
    match verdict {
        Verdict::Accepted => to.word(b"accepted"),
        Verdict::Loosened { node } => {
            to.word(b"40");
            to.natural(u64::from(node));
        }
        Verdict::Crossed { node } => {
            to.word(b"41");
            to.natural(u64::from(node));
        }
        Verdict::Mrpar => to.word(b"42"),
        Verdict::Improve => to.word(b"43"),
        Verdict::Repeated => to.word(b"44"),
        Verdict::UnknownBidder => to.word(b"45"),
        Verdict::WrongCount => to.word(b"46"),
    }
}

pub(crate) fn put_prices(prices: &Prices, to: &mut LineWriter)
    requires empty { to.old ≡ [] }
    requires count { length prices.now.nums ≤ 32 }
    ensures text { to.new ≡ text_of (line.prices prices.now) }
    ensures short { length to.new ≤ 8192 }
{
    to.word(b"prices");
    to.integer(prices.den());
    put_integers(prices.nums(), to);
}

pub(crate) fn put_accuracy(violation: i128, den: u64, to: &mut LineWriter)
    requires { to.old ≡ [] }
    ensures text { to.new ≡ text_of (line.accuracy violation den) }
    ensures short { length to.new ≤ 8192 }
{
    to.word(b"accuracy");
    to.number(violation);
    to.natural(den);
}

pub(crate) fn put_row(bidder: u8, weight: u64, set: &NodeSet, to: &mut LineWriter)
    requires { to.old ≡ [] }
    ensures text { to.new ≡ text_of (line.row bidder weight set.now) }
    ensures short { length to.new ≤ 8192 }
{
    to.word(b"row");
    to.natural(u64::from(bidder));
    to.natural(weight);
    put_set(set, to);
}

pub(crate) fn put_submission(name: &Name, lo: &[i32], hi: &[i32], to: &mut LineWriter)
    requires empty { to.old ≡ [] }
    requires lo_count { length lo.now ≤ 200 }
    requires lo { AllByRecursion IsValue lo.now }
    requires hi_count { length hi.now ≤ 200 }
    requires hi { AllByRecursion IsValue hi.now }
    ensures text { to.new ≡ text_of (line.submit (record { name = name.now; lo = lo.now; hi = hi.now })) }
    ensures short { length to.new ≤ 8192 }
{
    to.word(b"submit");
    to.word(name.bytes());
    put_values(lo, to);
    put_values(hi, to);
}

pub(crate) fn put_threshold(cut: &LowestFraction, surplus: &LowestFraction, to: &mut LineWriter)
    requires { to.old ≡ [] }
    ensures text { to.new ≡ text_of (line.threshold (fraction_of cut.now) (fraction_of surplus.now)) }
    ensures short { length to.new ≤ 8192 }
{
    to.word(b"threshold");
    put_fraction(cut, to);
    put_fraction(surplus, to);
}

pub(crate) fn put_payment(
    name: &Name,
    vickrey: i64,
    discount: &LowestFraction,
    payment: &LowestFraction,
    to: &mut LineWriter,
)
    requires { to.old ≡ [] }
    ensures text { to.new ≡ text_of (line.payment name.now vickrey (fraction_of discount.now) (fraction_of payment.now)) }
    ensures short { length to.new ≤ 8192 }
{
    to.word(b"payment");
    to.word(name.bytes());
    to.integer(vickrey);
    put_fraction(discount, to);
    put_fraction(payment, to);
}

pub(crate) fn put_spent(value: i64, bound: i128, to: &mut LineWriter)
    requires { to.old ≡ [] }
    ensures text { to.new ≡ text_of (line.spent value bound) }
    ensures short { length to.new ≤ 8192 }
{
    to.word(b"spent");
    to.integer(value);
    to.number(bound);
}

pub(crate) fn put_limit(
    stage: PricingStage,
    kind: LimitKind,
    violation: i128,
    den: u64,
    to: &mut LineWriter,
)
    requires { to.old ≡ [] }
    ensures text { to.new ≡ text_of (line.limit (stage_of stage) (limit_of kind) violation den) }
    ensures short { length to.new ≤ 8192 }
{
    to.word(b"limit");
    to.word(stage_text(stage));
    to.word(limit_text(kind));
    to.number(violation);
    to.natural(den);
}

pub(crate) fn put_pool(bidder: u8, set: &NodeSet, to: &mut LineWriter)
    requires { to.old ≡ [] }
    ensures text { to.new ≡ text_of (line.pool bidder set.now) }
    ensures short { length to.new ≤ 8192 }
{
    to.word(b"pool");
    to.natural(u64::from(bidder));
    put_set(set, to);
}

pub(crate) fn put_end(word: EndWord, to: &mut LineWriter)
    requires { to.old ≡ [] }
    ensures text { to.new ≡ text_of (line.end (end_of word)) }
    ensures short { length to.new ≤ 8192 }
{
    to.word(b"end");
    to.word(end_text(word));
}

pub(crate) fn put_refused(file: u8, number: u8, place: &[u8], to: &mut LineWriter)
    requires empty { to.old ≡ [] }
    requires short { length place.now ≤ 256 }
    ensures text { to.new ≡ text_of (line.refused file number place.now) }
    ensures short { length to.new ≤ 8192 }
{
    to.word(b"refused");
    to.natural(u64::from(file));
    to.natural(u64::from(number));
    to.word(place);
}
