//! `check`: the checker's answer on a journal.
ghost use Rattle.ice_commands.specs.CheckServed.{CheckAnswers};
ghost use Rattle.ice_command_parts.specs.Keeping.{KeepsTold};
ghost use Rattle.ice_command_parts.specs.Parts.{Serves};

use crate::answer::say_answer;
use crate::ends::refusal_of;
use ice_command_parts::fetch;
use ice_edge::{Shelf, Sink, Status};
use std::alloc::Global;

/// The most bytes of a journal.
pub const JOURNAL_LIMIT: usize = 134_217_728;

/// Writes the checker's answer on the journal of this name.
pub fn check<H: Shelf, K: Sink>(alloc: Global, journal: &str, shelf: &mut H, out: &mut K) -> Status
    ensures served { Serves (λ call. CheckAnswers call journal.now)
        (H.told shelf.old) (H.told shelf.new) (K.taken out.old) (K.taken out.new) result }
    ensures kept { KeepsTold (H.told shelf.old) (H.told shelf.new) result }
{
    match fetch(alloc, 1, journal, JOURNAL_LIMIT, shelf) {
        Ok(bytes) => match ice_check::check(alloc, &bytes) {
            Ok(answer) => say_answer(&answer, out),
            Err(end) => refusal_of(end).say(out),
        },
        Err(refusal) => refusal.say(out),
    }
}
