//! The replay of a settlement from the bytes of a journal.
ghost use Rattle.ice_replay.specs.Replays.{ReplaysBytes};

use crate::ending::conclude;
use crate::settlement::{Replay, ReplayEnd};
use crate::tests::WatchedTests;
use crate::watch::Watch;
use ice_check_records::Checker;
use ice_reading::{JournalEnd, read_journal};
use std::alloc::Global;

/// Replays a settlement of a session from the bytes of its journal: what the session says of the
/// settlement with this number.
///
/// `Grammar` or `Unended` is answered exactly where a line is no record or the last one has no
/// newline, and names the least such line. Else `OtherKind` is answered exactly where there is no
/// line, or the first is no head of a session. Else `FailsTest` is answered exactly where a test of
/// the checker fails, and the first one isn't that of a stop; it names that test. Else
/// `NoSettlement` is answered exactly where the session states no regret of such a settlement: what
/// stands behind a stop isn't looked at. `NoMemory` is answered where memory runs out.
pub fn replay(alloc: Global, bytes: &[u8], number: u8) -> Result<Replay, ReplayEnd>
    ensures { ReplaysBytes bytes.now number result }
{
    let mut tests = WatchedTests {
        alloc,
        number,
        checker: Checker::new(alloc),
        watch: Watch::Start,
    };
    match read_journal(bytes, &mut tests) {
        Ok(()) => {
            let WatchedTests {
                alloc: _,
                number: _,
                checker,
                watch,
            } = tests;
            conclude(watch, checker.finish())
        }
        Err(end) => Err(ReplayEnd::Journal(JournalEnd::Unjudged(end))),
    }
}
