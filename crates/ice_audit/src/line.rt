//! The lines of a statement, read.
ghost use Rattle.std.specs.Prelude.{◌≡◌, ◌≢◌, ◌++◌, ℕ, List, codes, option_map, MatchOption};
ghost use Rattle.ice_line.specs.Reading.{Reads};
ghost use Rattle.ice_statement_laws.specs.Statement.{statement_text};
ghost use Rattle.ice_statement_laws.specs.Texts.{IsLine};
ghost use Rattle.ice_audit.specs.Lines.{line_of, FindsOwn};

use ice_journal::{Line, Room, node_bits, read_record};
use ice_set::NodeSet;
use ice_terms::Name;

/// A line of a statement.
#[derive(Drop)]
pub(crate) enum StatementLine<'room> {
    /// `statement NAME`.
    Named(Name),
    /// A record of the journal.
    Shown(Line<'room>),
    /// `kept BITS`: the bidder's final set.
    Kept(NodeSet),
    /// `offered BITS`: the bidder's provisional set.
    Offered(NodeSet),
    /// `end statement`.
    Ended,
}

/// What stands behind this word and its space.
fn behind<'a>(text: &'a [u8], word: &[u8]) -> Option<&'a [u8]>
    ensures { MatchOption result ((rest : List ℕ) → text.now ≢ word.now ++ rest)
        (λ rest. text.now ≡ word.now ++ rest.now) }
{
    text.strip_prefix(word)
}

/// The line with this name.
fn named_line(field: &[u8]) -> Option<StatementLine<'static>>
    ensures { FindsOwn (option_map line_of result) (codes "statement " ++ field.now) }
{
    match Name::from_bytes(field) {
        Some(name) => Some(StatementLine::Named(name)),
        None => None,
    }
}

/// The line of this final set.
fn kept_line(field: &[u8]) -> Option<StatementLine<'static>>
    ensures { FindsOwn (option_map line_of result) (codes "kept " ++ field.now) }
{
    match node_bits(field) {
        Some(set) => Some(StatementLine::Kept(set)),
        None => None,
    }
}

/// The line of this provisional set.
fn offered_line(field: &[u8]) -> Option<StatementLine<'static>>
    ensures { FindsOwn (option_map line_of result) (codes "offered " ++ field.now) }
{
    match node_bits(field) {
        Some(set) => Some(StatementLine::Offered(set)),
        None => None,
    }
}

/// The line that has this text and is no record, and None exactly where there is none.
fn own_line(text: &[u8]) -> Option<StatementLine<'static>>
    ensures { FindsOwn (option_map line_of result) text.now }
{
    if text == b"end statement".as_slice() {
        return Some(StatementLine::Ended);
    }
    if let Some(field) = behind(text, b"statement ") {
        return named_line(field);
    }
    if let Some(field) = behind(text, b"kept ") {
        return kept_line(field);
    }
    match behind(text, b"offered ") {
        Some(field) => offered_line(field),
        None => None,
    }
}

/// The line of the record with this text.
fn shown_line<'room>(text: &[u8], room: &'room mut Room) -> Option<StatementLine<'room>>
    requires { FindsOwn None text.now }
    ensures { Reads (option_map line_of result) IsLine statement_text text.now }
{
    match read_record(text, room) {
        Some(record) => Some(StatementLine::Shown(record)),
        None => None,
    }
}

/// The line of which this is the one spelling, and None exactly where it is the spelling of no line
/// of a statement. The text has no newline at its end.
pub(crate) fn read_line<'room>(text: &[u8], room: &'room mut Room) -> Option<StatementLine<'room>>
    ensures { Reads (option_map line_of result) IsLine statement_text text.now }
{
    match own_line(text) {
        Some(line) => Some(line),
        None => shown_line(text, room),
    }
}
