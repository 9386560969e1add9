//! A record, read from its text.
ghost use Rattle.std.specs.Prelude.{◌∷◌, [], codes, option_map};
ghost use Rattle.ice_line.specs.Reading.{Reads};
ghost use Rattle.ice_journal.specs.Reading.{Finds, FindsAfter};
ghost use Rattle.ice_journal.specs.Words.{word_text};
ghost use Rattle.ice_journal.specs.Ranges.{IsRecord};
ghost use Rattle.ice_journal.specs.Spelling.{fields_of, text_of};
ghost use Rattle.ice_journal.specs.Lines.{record_of};

use crate::line::{Line, Room};
use crate::records::*;
use crate::words::{Word, read_word};
use ice_line::Fields;

/// The record of a node.
fn node_record(mut fields: Fields<'_>) -> Option<Line<'static>>
    ensures { FindsAfter (codes "node" ∷ []) result fields.entry }
{
    let word = fields.next()?;
    if word == b"choose".as_slice() {
        choose_record(fields)
    } else if word == b"buy".as_slice() {
        buy_record(fields)
    } else if word == b"sell".as_slice() {
        sell_record(fields)
    } else {
        None
    }
}

/// The record of the fields behind its first word.
fn record_after<'room>(word: Word, fields: Fields<'_>, room: &'room mut Room) -> Option<Line<'room>>
    ensures { FindsAfter (word_text word ∷ []) result fields.entry }
{
    match word {
        Word::Ice => ice_record(fields),
        Word::Settings => settings_record(fields),
        Word::Good => good_record(fields),
        Word::Exact => exact_record(fields),
        Word::Bidder => bidder_record(fields),
        Word::Node => node_record(fields),
        Word::Assign => assign_record(fields),
        Word::Settle => settle_record(fields),
        Word::Final => final_record(fields),
        Word::Rival => rival_record(fields),
        Word::Provisional => provisional_record(fields),
        Word::Without => without_record(fields),
        Word::Set => set_record(fields),
        Word::Branch => branch_record(fields),
        Word::Leaf => leaf_record(fields),
        Word::Dead => dead_record(fields),
        Word::Near => near_record(fields),
        Word::Tolled => tolled_record(fields, room),
        Word::Derive => derive_record(fields),
        Word::Amounts => amounts_record(fields, room),
        Word::Regret => regret_record(fields),
        Word::Prices => prices_record(fields),
        Word::Accuracy => accuracy_record(fields),
        Word::Balance => balance_record(fields),
        Word::Row => row_record(fields),
        Word::Submit => submit_record(fields),
        Word::Verdict => verdict_record(fields),
        Word::Threshold => threshold_record(fields),
        Word::Payment => payment_record(fields),
        Word::Spent => spent_record(fields),
        Word::Limit => limit_record(fields),
        Word::Pool => pool_record(fields),
        Word::End => end_record(fields),
        Word::Refused => refused_record(fields),
        Word::Unread => unread_record(fields),
    }
}

/// The record of these fields.
fn record<'room>(mut fields: Fields<'_>, room: &'room mut Room) -> Option<Line<'room>>
    ensures { Finds (option_map record_of result) IsRecord fields_of fields.entry }
{
    let word = read_word(fields.next()?)?;
    record_after(word, fields, room)
}

/// The record of which this is the one spelling, and None exactly where it is the spelling of no
/// record. The text has no newline at its end. A list of numbers is left in the room.
pub fn read_record<'room>(text: &[u8], room: &'room mut Room) -> Option<Line<'room>>
    ensures { Reads (option_map record_of result) IsRecord text_of text.now }
{
    record(Fields::new(text), room)
}
