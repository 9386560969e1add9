//! Whether a bidder has a statement of a journal.
ghost use Rattle.std.specs.Prelude.{◌≡◌, ◌∷◌, List, true};
ghost use Rattle.ice_journal.specs.Records.{Record};
ghost use Rattle.ice_journal.specs.Journal.{IsJournal};
ghost use Rattle.ice_journal.specs.Lines.{record_of};
ghost use Rattle.ice_journal_laws.specs.Answers.{AnswersJournal};
ghost use Rattle.ice_statement.specs.Judging.{is_session, end_at, has_bidder, MayState, Finds};

use ice_check::{Answer, check};
use ice_journal::{Kind, Line, Room};
use ice_reading::{CheckEnd, JournalEnd, Records};
use std::alloc::Global;

/// Why there is no statement.
#[derive(Clone, Copy, PartialEq, Eq, Debug)]
pub enum StatementEnd {
    /// The journal is of no session, or fails a test: a session that isn't closed fails one.
    Journal(JournalEnd),
    /// The journal is closed and passes every test, and no bidder has the name.
    NoBidder,
}

/// Whether a record is a head of a session journal.
fn is_session_head(line: &Line) -> bool
    ensures { (rest : List Record) → is_session (record_of line.now ∷ rest) ≡ result }
{
    match line {
        Line::Head { version: _, kind } => matches!(kind, Kind::Session),
        _ => false,
    }
}

/// Whether the first record is such a head.
fn is_session(bytes: &[u8]) -> bool
    ensures { (journal : List Record) → IsJournal bytes.now journal → is_session journal ≡ result }
{
    match Records::new(bytes).next(&mut Room::new()) {
        Some(line) => is_session_head(&line),
        None => false,
    }
}

/// Where the search for a bidder with this name ends: at a bidder with it, or at a settlement.
fn end_at(line: &Line, name: &[u8]) -> Option<bool>
    ensures { result ≡ end_at name.now (record_of line.now) }
{
    match line {
        Line::Bidder {
            name: other,
            own: _,
        } => {
            if name == other.bytes() {
                Some(true)
            } else {
                None
            }
        }
        Line::Settle { number: _ } => Some(false),
        _ => None,
    }
}

/// Whether a bidder of the journal has this name.
fn has_bidder(bytes: &[u8], name: &[u8]) -> bool
    ensures { (journal : List Record) → IsJournal bytes.now journal
        → has_bidder name.now journal ≡ result }
{
    let mut room = Room::new();
    let mut records = Records::new(bytes);
    while let Some(line) = records.next(&mut room) {
        if let Some(found) = end_at(&line, name) {
            return found;
        }
    }
    false
}

/// What is found of a session journal that has this answer.
fn found(bytes: &[u8], name: &[u8], answer: Answer) -> Result<(), StatementEnd>
    ensures { (journal : List Record) → IsJournal bytes.now journal → is_session journal ≡ true
        → AnswersJournal journal answer → Finds name.now journal result }
{
    match answer {
        Answer::No { line, rule } => {
            Err(StatementEnd::Journal(JournalEnd::FailsTest { line, rule }))
        }
        _ => {
            if has_bidder(bytes, name) {
                Ok(())
            } else {
                Err(StatementEnd::NoBidder)
            }
        }
    }
}

/// Judges the bytes of a journal of which the bidder with this name is to have its statement.
///
/// `Grammar` or `Unended` is answered exactly where a line is no record or the last one has no
/// newline, and names the least such line. Else `OtherKind` is answered exactly where the first
/// record is no head of a session journal. Else `FailsTest` names the first failed test; a session
/// that isn't closed fails one. Else `NoBidder` is answered exactly where no bidder has the name.
/// `NoMemory` is answered where memory runs out.
pub fn judge(alloc: Global, bytes: &[u8], name: &[u8]) -> Result<(), StatementEnd>
    ensures { MayState bytes.now name.now result }
{
    let answer = match check(alloc, bytes) {
        Ok(answer) => answer,
        Err(end) => return Err(StatementEnd::Journal(JournalEnd::Unjudged(end))),
    };
    if !is_session(bytes) {
        return Err(StatementEnd::Journal(JournalEnd::Unjudged(CheckEnd::OtherKind)));
    }
    found(bytes, name, answer)
}
