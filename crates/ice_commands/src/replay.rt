//! `replay`: what a session says of one settlement.
ghost use Rattle.std.specs.Prelude.{IfOk, IfErr, Ok as Found};
ghost use Rattle.ice_replay.specs.Replays.{ReplaysBytes};
ghost use Rattle.ice_command_parts.specs.Keeping.{KeepsTold};
ghost use Rattle.ice_command_parts.specs.Parts.{Serves};
ghost use Rattle.ice_commands.specs.ReplayServed.{NotReplayed, IsReplayFault, ReplayAnswers};
ghost use Rattle.ice_commands.specs.Unwritten.{IsUnwrittenOf};

use crate::check::JOURNAL_LIMIT;
use crate::ends::unwritten_of;
use crate::unwritten::Unwritten;
use ice_command_parts::{FileFault, Refusal, ended, fetch};
use ice_edge::{Shelf, Sink, Status};
use ice_replay::{Replay, ReplayEnd, put_replay};
use std::alloc::Global;

/// The replay of the settlement with this number from the bytes of the first file, or why there is
/// none.
fn replay_in(alloc: Global, bytes: &[u8], number: u8) -> Result<Replay, Unwritten>
    ensures replay { IfOk result (λ replay. ReplaysBytes bytes.now number (Found replay)) }
    ensures none { IfErr result
        (IsUnwrittenOf (NotReplayed number) (IsReplayFault number) bytes.now) }
{
    match ice_replay::replay(alloc, bytes, number) {
        Ok(replay) => Ok(replay),
        Err(ReplayEnd::Journal(end)) => Err(unwritten_of(end)),
        Err(ReplayEnd::NoSettlement) => Err(Unwritten::Refused(Refusal::File {
            file: 1,
            fault: FileFault::NoSettlement,
        })),
    }
}

/// Writes what the session in the journal of this name says of the settlement with this number.
pub fn replay<H: Shelf, K: Sink>(
    alloc: Global,
    journal: &str,
    number: u8,
    shelf: &mut H,
    out: &mut K,
) -> Status
    ensures served { Serves (λ call. ReplayAnswers call journal.now number)
        (H.told shelf.old) (H.told shelf.new) (K.taken out.old) (K.taken out.new) result }
    ensures kept { KeepsTold (H.told shelf.old) (H.told shelf.new) result }
{
    match fetch(alloc, 1, journal, JOURNAL_LIMIT, shelf) {
        Ok(bytes) => match replay_in(alloc, &bytes, number) {
            Ok(replay) => ended(put_replay(&replay, out), Status::Done),
            Err(unwritten) => unwritten.say(out),
        },
        Err(refusal) => refusal.say(out),
    }
}
