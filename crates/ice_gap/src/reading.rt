//! The gap that the bytes of a journal state.
ghost use Rattle.ice_gap_laws.specs.Answers.{AnswersGap};

use crate::tests::GapTests;
use ice_check_records::{CheckEnd, GapAnswer, GapChecker};
use ice_reading::read_journal;
use std::alloc::Global;

/// The gap that a journal states: the group at whose search it stops, what the sets are worth that
/// it states there, and a bound that nothing exceeds.
///
/// `Grammar` or `Unended` is answered exactly where a line is no record or the last one has no
/// newline, and names the least such line. Else `OtherKind` is answered exactly where there is no
/// line, or the first is no head of a kind that is checked. Else `Gap` is answered exactly where
/// each test passes, `No` where a test fails, and names the first one, and `NoGap` where none fails
/// before the place at which the journal states no gap. `NoMemory` is answered where memory runs
/// out.
pub fn gap(alloc: Global, bytes: &[u8]) -> Result<GapAnswer, CheckEnd>
    ensures { AnswersGap bytes.now result }
{
    let mut tests = GapTests {
        checker: GapChecker::new(alloc),
    };
    read_journal(bytes, &mut tests)?;
    tests.checker.answer()
}
