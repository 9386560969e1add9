//! `statement`: what a closed session's journal says to one of its bidders.
ghost use Rattle.std.specs.Prelude.{IfOk, IfErr};
ghost use Rattle.ice_journal_laws.specs.Answers.{OfJournal};
ghost use Rattle.ice_statement.specs.Judging.{HasStatement};
ghost use Rattle.ice_command_parts.specs.Keeping.{KeepsTold};
ghost use Rattle.ice_command_parts.specs.Parts.{Serves};
ghost use Rattle.ice_commands.specs.Unwritten.{IsUnwrittenOf};
ghost use Rattle.ice_commands.specs.StatementServed.{NotStated, IsStatementFault, StatementAnswers};

use crate::check::JOURNAL_LIMIT;
use crate::ends::unwritten_of;
use crate::unwritten::Unwritten;
use ice_command_parts::{FileFault, Refusal, ended, fetch};
use ice_edge::{Shelf, Sink, Status};
use ice_statement::{StatementEnd, judge, put_statement};
use std::alloc::Global;

/// Judges the bytes of the first file, of which the bidder of this name is to have its statement.
fn judge_bytes(alloc: Global, bytes: &[u8], name: &str) -> Result<(), Unwritten>
    ensures journal { IfOk result (λ _. OfJournal bytes.now (HasStatement name.now)) }
    ensures unstated { IfErr result
        (IsUnwrittenOf (NotStated name.now) (IsStatementFault name.now) bytes.now) }
{
    match judge(alloc, bytes, name.as_bytes()) {
        Ok(()) => Ok(()),
        Err(StatementEnd::Journal(end)) => Err(unwritten_of(end)),
        Err(StatementEnd::NoBidder) => Err(Unwritten::Refused(Refusal::File {
            file: 1,
            fault: FileFault::NoBidder,
        })),
    }
}

/// Writes the statement of the bidder of this name: what the journal of a closed session, which
/// passes every test, publishes, and what of it is the bidder's own; or why there is none. The
/// journal is judged whole before the first line is put, and then no more memory is taken.
pub fn statement<H: Shelf, K: Sink>(
    alloc: Global,
    journal: &str,
    name: &str,
    shelf: &mut H,
    out: &mut K,
) -> Status
    ensures served { Serves (λ call. StatementAnswers call journal.now name.now)
        (H.told shelf.old) (H.told shelf.new) (K.taken out.old) (K.taken out.new) result }
    ensures kept { KeepsTold (H.told shelf.old) (H.told shelf.new) result }
{
    match fetch(alloc, 1, journal, JOURNAL_LIMIT, shelf) {
        Ok(bytes) => match judge_bytes(alloc, &bytes, name) {
            Ok(()) => ended(put_statement(&bytes, name.as_bytes(), out), Status::Done),
            Err(unwritten) => unwritten.say(out),
        },
        Err(refusal) => refusal.say(out),
    }
}
