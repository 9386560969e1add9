//! The lines of a statement, put into a sink one by one.
ghost use Rattle.std.specs.Prelude.{◌≡◌, ◌++◌, ◌∷◌, [], List, codes};
ghost use Rattle.ice_edge.specs.Puts.{IsPut};
ghost use Rattle.ice_journal.specs.Records.{Record};
ghost use Rattle.ice_journal.specs.Journal.{IsJournal};
ghost use Rattle.ice_journal.specs.Spelling.{line_of};
ghost use Rattle.ice_journal.specs.Lines.{record_of};
ghost use Rattle.ice_statement_laws.specs.Statement.{Own, public_records, named, kept, offered, ended, statement_of};
ghost use Rattle.ice_statement_laws.specs.Texts.{IsOwnOf, line_text, bytes_of_lines};
ghost use Rattle.ice_statement_laws.specs.Gathering.{new_gathering, shown_if, lines_at, lines_gathered, gathered_lines};

use crate::gathering::Gathering;
use crate::lines::{write_kept, write_offered};
use ice_edge::{Sink, SinkFault};
use ice_journal::{Line, Room};
use ice_line::LineWriter;
use ice_reading::Records;
use ice_set::NodeSet;

/// Puts two pieces, one behind the other.
fn put_both<K: Sink>(one: &[u8], other: &[u8], out: &mut K) -> Result<(), SinkFault>
    ensures { IsPut (one.now ++ other.now) result (K.taken out.old) (K.taken out.new) }
{
    out.put(one)?;
    out.put(other)
}

/// Puts the line of a record, where it is the bidder's.
fn put_if<K: Sink>(own: bool, line: &Line, text: &[u8], out: &mut K) -> Result<(), SinkFault>
    requires { text.now ≡ line_of (record_of line.now) }
    ensures { IsPut (bytes_of_lines (shown_if own (record_of line.now))) result
        (K.taken out.old) (K.taken out.new) }
{
    if own { out.put(text) } else { Ok(()) }
}

/// Puts the line of a regret, and behind it the bidder's final set.
fn put_regret<K: Sink>(text: &[u8], set: &NodeSet, out: &mut K) -> Result<(), SinkFault>
    ensures { IsPut (text.now ++ line_text (kept set.now)) result
        (K.taken out.old) (K.taken out.new) }
{
    let mut writer = LineWriter::new();
    put_both(text, write_kept(set, &mut writer), out)
}

/// Puts the bidder's provisional set, and behind it the line of the prices.
fn put_prices<K: Sink>(text: &[u8], set: &NodeSet, out: &mut K) -> Result<(), SinkFault>
    ensures { IsPut (line_text (offered set.now) ++ text.now) result
        (K.taken out.old) (K.taken out.new) }
{
    let mut writer = LineWriter::new();
    put_both(write_offered(set, &mut writer), text, out)
}

/// Puts what a record, which has this line, adds to a statement.
pub(crate) fn put_added<K: Sink>(
    gathering: &Gathering<'_>,
    line: &Line,
    text: &[u8],
    out: &mut K,
) -> Result<(), SinkFault>
    requires { text.now ≡ line_of (record_of line.now) }
    ensures { IsPut (bytes_of_lines (lines_at gathering.now (record_of line.now))) result
        (K.taken out.old) (K.taken out.new) }
{
    match line {
        Line::Settings(_)
        | Line::Good(_)
        | Line::Exact(_)
        | Line::Settle { number: _ }
        | Line::Threshold { cut: _, surplus: _ } => put_if(true, line, text, out),
        Line::Bidder { name, own: _ } => put_if(gathering.has_name(name), line, text, out),
        Line::Submit { name, lo: _, hi: _ } => put_if(gathering.has_name(name), line, text, out),
        Line::Payment {
            name,
            vickrey: _,
            discount: _,
            payment: _,
        } => put_if(gathering.has_name(name), line, text, out),
        Line::Node {
            kind: _,
            children: _,
            lo: _,
            hi: _,
        } => put_if(gathering.is_own(), line, text, out),
        Line::Verdict(_) => put_if(gathering.is_own(), line, text, out),
        Line::Regret { amount: _ } => put_regret(text, gathering.kept(), out),
        Line::Prices(_) => put_prices(text, gathering.offered(), out),
        _ => Ok(()),
    }
}

/// Puts what all records of the bytes of a journal add to the statement of the bidder with this
/// name. It takes no memory.
fn put_gathered<K: Sink>(bytes: &[u8], name: &[u8], out: &mut K) -> Result<(), SinkFault>
    ensures { (journal : List Record) → IsJournal bytes.now journal
        → IsPut (bytes_of_lines (lines_gathered (new_gathering name.now) journal)) result
        (K.taken out.old) (K.taken out.new) }
{
    let mut gathering = Gathering::new(name);
    let mut records = Records::new(bytes);
    let mut room = Room::new();
    while let Some((record, line)) = records.next_with_line(&mut room) {
        put_added(&gathering, &record, line, out)?;
        gathering.take(&record);
    }
    Ok(())
}

/// Puts a name and the end of its line.
fn put_name<K: Sink>(name: &[u8], out: &mut K) -> Result<(), SinkFault>
    ensures { IsPut (name.now ++ 10 ∷ []) result (K.taken out.old) (K.taken out.new) }
{
    put_both(name, b"\n", out)
}

/// Puts the first word.
fn put_word<K: Sink>(out: &mut K) -> Result<(), SinkFault>
    ensures { IsPut (codes "statement ") result (K.taken out.old) (K.taken out.new) }
{
    out.put(b"statement ")
}

/// Puts the first line.
fn put_named<K: Sink>(name: &[u8], out: &mut K) -> Result<(), SinkFault>
    ensures { IsPut (line_text (named name.now)) result (K.taken out.old) (K.taken out.new) }
{
    put_word(out)?;
    put_name(name, out)
}

/// Puts the last line.
fn put_ended<K: Sink>(out: &mut K) -> Result<(), SinkFault>
    ensures { IsPut (line_text ended) result (K.taken out.old) (K.taken out.new) }
{
    out.put(b"end statement\n")
}

/// Puts the lines of the records and the last line.
fn put_behind_name<K: Sink>(bytes: &[u8], name: &[u8], out: &mut K) -> Result<(), SinkFault>
    ensures { (journal : List Record) → IsJournal bytes.now journal
        → IsPut (bytes_of_lines (lines_gathered (new_gathering name.now) journal) ++ line_text ended) result
        (K.taken out.old) (K.taken out.new) }
{
    put_gathered(bytes, name, out)?;
    put_ended(out)
}

/// Puts all lines.
fn put_lines<K: Sink>(bytes: &[u8], name: &[u8], out: &mut K) -> Result<(), SinkFault>
    ensures { (journal : List Record) → IsJournal bytes.now journal
        → IsPut (bytes_of_lines (gathered_lines name.now journal)) result
        (K.taken out.old) (K.taken out.new) }
{
    put_named(name, out)?;
    put_behind_name(bytes, name, out)
}

/// Puts the statement of the bidder with this name, where the bytes are a closed journal that
/// passes every test. It takes no memory.
pub fn put_statement<K: Sink>(bytes: &[u8], name: &[u8], out: &mut K) -> Result<(), SinkFault>
    ensures { (journal : List Record) (own : Own) → IsJournal bytes.now journal → IsOwnOf journal name.now own
        → IsPut (statement_of (public_records journal) own) result (K.taken out.old) (K.taken out.new) }
{
    put_lines(bytes, name, out)
}
