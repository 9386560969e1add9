//! A record, written.
ghost use Rattle.std.specs.Prelude.{◌≡◌, ◌≤◌, [], length};
ghost use Rattle.ice_journal.specs.Ranges.{IsRecord};
ghost use Rattle.ice_journal.specs.Spelling.{text_of};
ghost use Rattle.ice_journal.specs.Lines.{record_of};

use crate::line::Line;
use crate::write_derived::*;
use crate::write_exchange::*;
use crate::write_fields::{put_integer, put_name, put_natural};
use crate::write_log::*;
use crate::write_session::*;
use ice_line::LineWriter;

/// Writes the one spelling of a record into an empty line, of at most 8,192 bytes. It takes no
/// memory.
pub fn write_record(line: &Line<'_>, to: &mut LineWriter)
    requires lawful { IsRecord (record_of line.now) }
    requires empty { to.old ≡ [] }
    ensures text { to.new ≡ text_of (record_of line.now) }
    ensures short { length to.new ≤ 8192 }
{
    match line {
        Line::Head { version, kind } => put_head(*version, *kind, to),
        Line::Settings(settings) => put_settings(settings, to),
        Line::Good(name) => put_name(b"good", name, to),
        Line::Exact(name) => put_name(b"exact", name, to),
        Line::Bidder { name, own } => put_bidder(name, own, to),
        Line::Node {
            kind,
            children,
            lo,
            hi,
        } => put_node(*kind, *children, *lo, *hi, to),
        Line::Assign => to.word(b"assign"),
        Line::Settle { number } => put_natural(b"settle", u64::from(*number), to),
        Line::Final { value } => put_integer(b"final", *value, to),
        Line::Rival { value } => put_integer(b"rival", *value, to),
        Line::Provisional { value } => put_integer(b"provisional", *value, to),
        Line::Without { bidder, value } => put_without(*bidder, *value, to),
        Line::Set(set) => put_set_record(set, to),
        Line::Branch { bidder, node } => put_branch(*bidder, *node, to),
        Line::Leaf(multipliers) => put_leaf(multipliers, to),
        Line::Dead { bidder } => put_natural(b"dead", u64::from(*bidder), to),
        Line::Near(changes) => put_near(changes, to),
        Line::Tolled(tolls) => put_tolled(tolls, to),
        Line::Derive { limit } => put_integer(b"derive", *limit, to),
        Line::Amounts { bidder, numbers } => put_amounts_record(*bidder, numbers, to),
        Line::Regret { amount } => put_integer(b"regret", *amount, to),
        Line::Prices(prices) => put_prices(prices, to),
        Line::Accuracy { violation, den } => put_accuracy(*violation, *den, to),
        Line::Balance { den } => put_natural(b"balance", *den, to),
        Line::Row {
            bidder,
            weight,
            set,
        } => put_row(*bidder, *weight, set, to),
        Line::Submit { name, lo, hi } => put_submission(name, lo, hi, to),
        Line::Verdict(verdict) => put_verdict(*verdict, to),
        Line::Threshold { cut, surplus } => put_threshold(cut, surplus, to),
        Line::Payment {
            name,
            vickrey,
            discount,
            payment,
        } => put_payment(name, *vickrey, discount, payment, to),
        Line::Spent { value, bound } => put_spent(*value, *bound, to),
        Line::Limit {
            stage,
            kind,
            violation,
            den,
        } => put_limit(*stage, *kind, *violation, *den, to),
        Line::Pool { bidder, set } => put_pool(*bidder, set, to),
        Line::End(word) => put_end(*word, to),
        Line::Refused {
            file,
            number,
            place,
        } => put_refused(*file, *number, place, to),
        Line::Unread { file } => put_natural(b"unread", u64::from(*file), to),
    }
}
