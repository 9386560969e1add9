//! `fair`: fair prices of a closed session.
ghost use Rattle.std.specs.Prelude.{◌≡◌, ℕ, List, IfOk, IfErr, OnOk, Ok as Found};
ghost use Rattle.ice_last.specs.Lasts.{LastsBytes};
ghost use Rattle.ice_commands.specs.FairServed.{HasNoLast, IsFairFault, FairAnswers};
ghost use Rattle.ice_command_parts.specs.Keeping.{KeepsTold};
ghost use Rattle.ice_command_parts.specs.Parts.{AreFetched, Serves};
ghost use Rattle.ice_commands.specs.Unwritten.{unwritten_status, IsUnwrittenOf, IsUnwritten};

use crate::check::JOURNAL_LIMIT;
use crate::ends::unwritten_of;
use crate::fair_prices::say_fair;
use crate::unwritten::Unwritten;
use ice_command_parts::fetch;
use ice_edge::{Shelf, Sink, Status};
use ice_fair::Last;
use std::alloc::Global;

/// The last settlement in the bytes of the first file, or why there is none.
fn last_in(alloc: Global, bytes: &[u8]) -> Result<Last, Unwritten>
    ensures last { IfOk result (λ last. LastsBytes bytes.now (Found last)) }
    ensures none { IfErr result (IsUnwrittenOf HasNoLast IsFairFault bytes.now) }
{
    match ice_last::last(alloc, bytes) {
        Ok(last) => Ok(last),
        Err(end) => Err(unwritten_of(end)),
    }
}

/// The last settlement in the journal of this name, or why there is none.
fn last_of<H: Shelf>(alloc: Global, journal: &str, shelf: &mut H) -> Result<Last, Unwritten>
    ensures last { IfOk result (λ last. (bytes : List ℕ) × LastsBytes bytes (Found last)
        × AreFetched (H.told shelf.old) journal.now JOURNAL_LIMIT bytes) }
    ensures none { IfErr result (IsUnwritten HasNoLast IsFairFault journal.now
        (H.told shelf.old) (H.told shelf.new)) }
    ensures kept { OnOk result (H.told shelf.new ≡ H.told shelf.old) }
    ensures kept_without { IfErr result (λ unwritten.
        KeepsTold (H.told shelf.old) (H.told shelf.new) (unwritten_status unwritten)) }
{
    let bytes = match fetch(alloc, 1, journal, JOURNAL_LIMIT, shelf) {
        Ok(bytes) => bytes,
        Err(refusal) => return Err(Unwritten::Refused(refusal)),
    };
    last_in(alloc, &bytes)
}

/// Writes fair prices of the closed session in the journal of this name, which passes every test,
/// with what shows that they are fair; or the limit at which the search for them ended; or why
/// there is nothing to say. Nothing is put before all of it is found.
pub fn fair<H: Shelf, K: Sink>(alloc: Global, journal: &str, shelf: &mut H, out: &mut K) -> Status
    ensures served { Serves (λ call. FairAnswers call journal.now)
        (H.told shelf.old) (H.told shelf.new) (K.taken out.old) (K.taken out.new) result }
    ensures kept { KeepsTold (H.told shelf.old) (H.told shelf.new) result }
{
    match last_of(alloc, journal, shelf) {
        Ok(last) => say_fair(alloc, &last, out),
        Err(unwritten) => unwritten.say(out),
    }
}
