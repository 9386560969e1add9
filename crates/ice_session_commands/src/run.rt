//! The session of an exchange, with the bids of round files.
ghost use Rattle.std.specs.Prelude.{◌≤◌, length, map, string_bytes};
ghost use Rattle.ice_command_parts.specs.Keeping.{KeepsTold};
ghost use Rattle.ice_command_parts.specs.Parts.{Serves};
ghost use Rattle.ice_session_commands.specs.RunServed.{RunAnswers};

use crate::session::hold_session;
use crate::source::Source;
use ice_command_parts::read_exchange;
use ice_edge::{Shelf, Sink, Status};
use std::alloc::Global;

/// Writes the journal of the session of the exchange of this name, whose rounds have the bids of
/// the files of these names, at most 20. Each line is put as soon as it is known, and a round file
/// is fetched only as its round begins: where the session closes, stays open or is stopped, no
/// fetch has failed.
#[tactic(none)]
pub fn run<H: Shelf, K: Sink>(
    alloc: Global,
    exchange: &str,
    rounds: &[String],
    shelf: &mut H,
    out: &mut K,
) -> Status
    requires { length rounds.now ≤ 20 }
    ensures served { Serves (λ call. RunAnswers call exchange.now (map string_bytes rounds.now))
        (H.told shelf.old) (H.told shelf.new) (K.taken out.old) (K.taken out.new) result }
    ensures kept { KeepsTold (H.told shelf.old) (H.told shelf.new) result }
{
    match read_exchange(alloc, 1, exchange, shelf) {
        Ok(exchange) => hold_session(alloc, exchange, Source::Files(rounds), shelf, out),
        Err(refusal) => refusal.say(out),
    }
}
