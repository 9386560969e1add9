//! `migrate`: a journal of version 1, written in version 2.
ghost use Rattle.ice_commands.specs.MigrateServed.{MigrateAnswers};
ghost use Rattle.ice_command_parts.specs.Keeping.{KeepsTold};
ghost use Rattle.ice_command_parts.specs.Parts.{Serves};

use crate::check::JOURNAL_LIMIT;
use crate::ends::unwritten_of;
use ice_command_parts::{ended, fetch};
use ice_edge::{Shelf, Sink, Status};
use ice_migrate::{judge, put_packed};
use std::alloc::Global;

/// Writes the journal of this name, of version 1, in version 2, line for line; or why it is not
/// written. It is judged whole before the first line is put, and then takes no more memory.
pub fn migrate<H: Shelf, K: Sink>(
    alloc: Global,
    journal: &str,
    shelf: &mut H,
    out: &mut K,
) -> Status
    ensures served { Serves (λ call. MigrateAnswers call journal.now)
        (H.told shelf.old) (H.told shelf.new) (K.taken out.old) (K.taken out.new) result }
    ensures kept { KeepsTold (H.told shelf.old) (H.told shelf.new) result }
{
    match fetch(alloc, 1, journal, JOURNAL_LIMIT, shelf) {
        Ok(bytes) => match judge(alloc, &bytes) {
            Ok(()) => ended(put_packed(&bytes, out), Status::Done),
            Err(end) => unwritten_of(end).say(out),
        },
        Err(refusal) => refusal.say(out),
    }
}
