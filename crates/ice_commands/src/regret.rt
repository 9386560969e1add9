//! `regret`: the regret of the best assignment at lower values, as a journal.
ghost use Rattle.ice_command_parts.specs.Keeping.{KeepsTold};
ghost use Rattle.ice_command_parts.specs.Parts.{Serves};
ghost use Rattle.ice_commands.specs.RegretServed.{RegretAnswers};

use crate::regret_journal::write_regret;
use ice_command_parts::read_exchange;
use ice_edge::{Shelf, Sink, Status};
use std::alloc::Global;

/// Writes a journal of kind regret: the exchange of this name, the best assignment at lower values,
/// and its regret.
pub fn regret<H: Shelf, K: Sink>(
    alloc: Global,
    exchange: &str,
    shelf: &mut H,
    out: &mut K,
) -> Status
    ensures served { Serves (λ call. RegretAnswers call exchange.now)
        (H.told shelf.old) (H.told shelf.new) (K.taken out.old) (K.taken out.new) result }
    ensures kept { KeepsTold (H.told shelf.old) (H.told shelf.new) result }
{
    match read_exchange(alloc, 1, exchange, shelf) {
        Ok(exchange) => write_regret(alloc, &exchange, out),
        Err(refusal) => refusal.say(out),
    }
}
