//! The records that a journal is made of, apart from those of its exchange and its logs.
ghost use Rattle.std.specs.Prelude.{◌≡◌, None, MatchOption};
ghost use Rattle.ice_journal.specs.Lines.{record_of};
ghost use Rattle.ice_journal.specs.Records as records;
ghost use Rattle.ice_journal_laws.specs.Fields.{is_assign, is_end, set_in, final_value, rival_value, provisional_value, without_value, head_value, is_spent, amount_in};
ghost use Rattle.ice_check_records.specs.Found.{IsFound, IsHeadIn};
ghost use Rattle.ice_check_records.specs.Heads.{begins_first};

use crate::head::Head;
use ice_defs::Group;
use ice_journal::{EndWord, Kind, Line, Version};
use ice_tree::NodeSet;

/// The head that the record is, of a kind that is checked.
pub(crate) fn head_in(line: &Line) -> Option<Head>
    ensures { IsHeadIn (record_of line.now) result }
{
    match line {
        Line::Head {
            version: Version::One,
            kind: Kind::Assign,
        } => Some(Head::Assign),
        Line::Head {
            version,
            kind: Kind::Regret,
        } => Some(Head::Regret(*version)),
        Line::Head {
            version,
            kind: Kind::Session,
        } => Some(Head::Session(*version)),
        _ => None,
    }
}

/// Whether the record ends the section of the exchange.
pub(crate) fn is_assign(line: &Line) -> bool
    ensures { result ≡ is_assign (record_of line.now) }
{
    matches!(line, Line::Assign)
}

/// Whether the record begins the first settlement.
pub(crate) fn begins_first(line: &Line) -> bool
    ensures { result ≡ begins_first (record_of line.now) }
{
    matches!(line, Line::Settle { number: 0 })
}

/// The set that the record states.
pub(crate) fn set_in<'line>(line: &'line Line<'_>) -> Option<&'line NodeSet>
    ensures { MatchOption result (set_in (record_of line.now) ≡ None)
        (λ set. record_of line.now ≡ records.set set.now) }
{
    match line {
        Line::Set(set) => Some(set),
        _ => None,
    }
}

/// Whether the record ends an assign journal.
pub(crate) fn ends_assign(line: &Line) -> bool
    ensures { result ≡ is_end records.assign_end (record_of line.now) }
{
    matches!(line, Line::End(EndWord::Assign))
}

/// The value in the head of the final sets.
pub(crate) fn final_in(line: &Line) -> Option<i64>
    ensures { IsFound result (final_value (record_of line.now)) }
{
    match line {
        Line::Final { value } => Some(*value),
        _ => None,
    }
}

/// The value in the head of the rival.
fn rival_in(line: &Line) -> Option<i64>
    ensures { IsFound result (rival_value (record_of line.now)) }
{
    match line {
        Line::Rival { value } => Some(*value),
        _ => None,
    }
}

/// The value in the head of the provisional sets.
fn provisional_in(line: &Line) -> Option<i64>
    ensures { IsFound result (provisional_value (record_of line.now)) }
{
    match line {
        Line::Provisional { value } => Some(*value),
        _ => None,
    }
}

/// The value in the head of the sets without this bidder.
fn without_in(bidder: u8, line: &Line) -> Option<i64>
    ensures { IsFound result (without_value bidder (record_of line.now)) }
{
    match line {
        Line::Without {
            bidder: other,
            value,
        } => { if *other == bidder { Some(*value) } else { None } }
        _ => None,
    }
}

/// The value in the head of a group.
pub(crate) fn head_value(group: Group, line: &Line) -> Option<i64>
    ensures { IsFound result (head_value group (record_of line.now)) }
{
    match group {
        Group::Assign => None,
        Group::Final => final_in(line),
        Group::Rival => rival_in(line),
        Group::Provisional => provisional_in(line),
        Group::Without { bidder } => without_in(bidder, line),
    }
}

/// Whether the record begins a stop in the place of a group.
pub(crate) fn is_spent(line: &Line) -> bool
    ensures { result ≡ is_spent (record_of line.now) }
{
    matches!(line, Line::Spent { .. })
}

/// The regret that the record states, where it states one. It takes no memory.
pub fn amount_in(line: &Line) -> Option<i64>
    ensures { MatchOption result (amount_in (record_of line.now) ≡ None)
        (λ amount. record_of line.now ≡ records.regret amount) }
{
    match line {
        Line::Regret { amount } => Some(*amount),
        _ => None,
    }
}

/// Whether the record ends a regret journal.
pub(crate) fn ends_regret(line: &Line) -> bool
    ensures { result ≡ is_end records.regret_end (record_of line.now) }
{
    matches!(line, Line::End(EndWord::Regret))
}

/// Whether the record ends a session that closed.
pub(crate) fn ends_session(line: &Line) -> bool
    ensures { result ≡ is_end records.closed_end (record_of line.now) }
{
    matches!(line, Line::End(EndWord::Closed))
}
