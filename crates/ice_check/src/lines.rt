//! What is known of whole lines.
ghost use Rattle.std.specs.Prelude.{◌≡◌, ◌-◌, ◌↔◌, ◌^◌, suc, ℕ, List, IsTrue, IsOk, OnOk, OnErr, IfSome, option_map};
ghost use Rattle.ice_journal.specs.Lines.{record_of};
ghost use Rattle.ice_journal.specs.Ranges.{IsRecord};
ghost use Rattle.ice_check.specs.Standing.{AreRead, AreReadiness, AreStopped, ReadsOn, IsWithin, is_ready_lines};

use ice_check_records::Checker as RecordChecker;
use ice_journal::Line;
use std::alloc::AllocError;

/// What is known of the whole lines.
#[derive(Drop)]
pub(crate) enum Lines {
    /// They are the records that this checker has taken, or memory ran out at the last of them.
    Records(RecordChecker),
    /// This line is the spelling of no record, and those before it are of records.
    Grammar { line: u64 },
}

impl Lines {
    /// Takes the next line, which is that of this record, or of none.
    pub(crate) fn take(&mut self, found: &Option<Line>) -> Result<(), AllocError>
        requires lawful { IfSome found.now (λ line. IsRecord (record_of line)) }
        requires few { IsWithin (2 ^ 63 - 1) self.old }
        ensures read { OnOk result (ReadsOn self.old (option_map record_of found.now) self.new) }
        ensures within { (n : ℕ) → IsWithin n self.old → IsWithin (suc n) self.new }
        ensures stopped { OnErr result (AreStopped self.new) }
        ensures ready { IsTrue (is_ready_lines self.old) → IsOk result }
        ensures stays { IsTrue (is_ready_lines self.old) → IsTrue (is_ready_lines self.new) }
    {
        match self {
            Lines::Records(checker) => match found {
                Some(line) => checker.feed(line),
                None => {
                    let line = checker.next_line();
                    *self = Lines::Grammar { line };
                    Ok(())
                }
            },
            Lines::Grammar { .. } => Ok(()),
        }
    }

    /// Whether the next lines want no memory.
    pub(crate) fn ready(&self) -> bool
        ensures at { result ≡ is_ready_lines self.now }
        ensures of { (whole : List ℕ) → AreRead self.now whole → AreReadiness whole result }
    {
        match self {
            Lines::Records(checker) => checker.ready(),
            Lines::Grammar { .. } => true,
        }
    }

    /// Whether no memory was left for one of them.
    pub(crate) fn are_stopped(&self) -> bool
        ensures { IsTrue result ↔ AreStopped self.now }
    {
        match self {
            Lines::Records(checker) => checker.is_stopped(),
            Lines::Grammar { .. } => false,
        }
    }
}
