//! Why nothing is said of a journal.
use ice_journal_laws::{CheckEnd, Rule};
use std::alloc::AllocError;

/// Why nothing is said of the bytes of a journal.
#[derive(Clone, Copy, PartialEq, Eq, Debug)]
pub enum JournalEnd {
    /// No test is reached: a line is no record, the last one has no newline, the journal is of no
    /// kind that is wanted, or memory ran out.
    Unjudged(CheckEnd),
    /// The first failed test: its line, from 1, and its rule.
    FailsTest { line: u64, rule: Rule },
}

impl From<AllocError> for JournalEnd {
    ghost use Rattle.std.specs.Prelude.{◌≡◌};
    ghost use Rattle.ice_journal_laws.specs.declared.answer.CheckEnd.TheVariants.{NoMemory};
    ghost use Rattle.ice_reading.specs.declared.end.JournalEnd.TheVariants.{Unjudged};

    ghost from_gives = { λ _ e. e ≡ Unjudged NoMemory };

    fn from(_: AllocError) -> JournalEnd {
        JournalEnd::Unjudged(CheckEnd::NoMemory)
    }
}
