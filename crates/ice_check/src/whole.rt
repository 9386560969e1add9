//! The check of all bytes of a journal.
ghost use Rattle.ice_journal_laws.specs.Answers.{AnswersBytes};

use crate::checker::Checker;
use ice_journal_laws::{Answer, CheckEnd};
use std::alloc::Global;

/// Checks the bytes of a journal.
///
/// `Grammar` or `Unended` is answered exactly where a line is no record or the last one has no
/// newline, and names the least such line. Else `OtherKind` is answered exactly where there is no
/// line, or the first is no head of an assign, a regret or a session journal. Else the answer is
/// `Assign`, `Regret` or `Closed` exactly where every test passes, with the value of the sets at
/// lower bounds, with the regret of the final sets, or with the regret and the surplus of the last
/// settlement, or `No` with the first failed test. `NoMemory` is answered where memory runs out.
pub fn check(alloc: Global, bytes: &[u8]) -> Result<Answer, CheckEnd>
    ensures { AnswersBytes bytes.now result }
{
    let Ok(mut checker) = Checker::new(alloc) else {
        return Err(CheckEnd::NoMemory);
    };
    let Ok(()) = checker.feed(bytes) else {
        return Err(CheckEnd::NoMemory);
    };
    checker.finish()
}
