//! Whether a journal may be brought to version 2.
ghost use Rattle.std.specs.Prelude.{◌≡◌, ◌∷◌, List, IsTrue};
ghost use Rattle.ice_journal.specs.Records.{Record};
ghost use Rattle.ice_journal.specs.Journal.{IsJournal};
ghost use Rattle.ice_journal.specs.Lines.{record_of};
ghost use Rattle.ice_journal_laws.specs.Answers.{HasNo, AnswersJournal};
ghost use Rattle.ice_migrate.specs.Migrating.{is_old, Judges};
ghost use Rattle.ice_migrate.specs.Found.{Tells};

use crate::behind::{FailedTest, order_fault};
use ice_check::{Answer, check};
use ice_journal::{Kind, Line, Room, Version};
use ice_reading::{CheckEnd, JournalEnd, Records, Rule};
use std::alloc::Global;

/// Whether a record is a head of a regret or a session journal in version 1.
fn is_old_head(line: &Line) -> bool
    ensures { (rest : List Record) → is_old (record_of line.now ∷ rest) ≡ result }
{
    match line {
        Line::Head {
            version: Version::One,
            kind,
        } => matches!(kind, Kind::Regret | Kind::Session),
        _ => false,
    }
}

/// Whether the first record is such a head.
fn is_old(bytes: &[u8]) -> bool
    ensures { (journal : List Record) → IsJournal bytes.now journal → is_old journal ≡ result }
{
    match Records::new(bytes).next(&mut Room::new()) {
        Some(line) => is_old_head(&line),
        None => false,
    }
}

/// The failed test of a version 1 journal whose first failed test this is: a stop is none, but a
/// record behind it may fail one.
fn failed_behind(bytes: &[u8], line: u64, rule: Rule) -> Option<FailedTest>
    ensures { (journal : List Record) → IsJournal bytes.now journal → IsTrue (is_old journal)
        → HasNo journal (record { line = line; rule = rule }) → Tells journal result }
{
    match rule {
        Rule::Closed => order_fault(bytes, line),
        _ => Some(FailedTest { line, rule }),
    }
}

/// The failed test of a version 1 journal with this answer, where there is one.
fn failed_test(bytes: &[u8], answer: Answer) -> Option<FailedTest>
    ensures { (journal : List Record) → IsJournal bytes.now journal → IsTrue (is_old journal)
        → AnswersJournal journal answer → Tells journal result }
{
    match answer {
        Answer::No { line, rule } => failed_behind(bytes, line, rule),
        _ => None,
    }
}

/// Judges the bytes of a journal that is to be brought to version 2.
///
/// `Grammar` or `Unended` is answered exactly where a line is no record or the last one has no
/// newline, and names the least such line. Else `OtherKind` is answered exactly where the first
/// record is no head of a regret or a session journal in version 1. Else `FailsTest` names the
/// first failed test; at a stop, the first record behind it that may not stand in its place, or the
/// want of one at the end. `NoMemory` is answered where memory runs out.
pub fn judge(alloc: Global, bytes: &[u8]) -> Result<(), JournalEnd>
    ensures { Judges bytes.now result }
{
    let answer = match check(alloc, bytes) {
        Ok(answer) => answer,
        Err(end) => return Err(JournalEnd::Unjudged(end)),
    };
    if !is_old(bytes) {
        return Err(JournalEnd::Unjudged(CheckEnd::OtherKind));
    }
    match failed_test(bytes, answer) {
        Some(FailedTest { line, rule }) => Err(JournalEnd::FailsTest { line, rule }),
        None => Ok(()),
    }
}
