//! The session of an exchange, in which each bidder has a proxy.
ghost use Rattle.ice_command_parts.specs.Keeping.{KeepsTold};
ghost use Rattle.ice_command_parts.specs.Parts.{Serves};
ghost use Rattle.ice_session_commands.specs.SimulateServed.{SimulateAnswers};

use crate::session::hold_session;
use crate::source::Source;
use crate::truths::read_truths;
use ice_command_parts::read_exchange;
use ice_edge::{Shelf, Sink, Status};
use std::alloc::Global;

/// Writes the journal of the session of the exchange of this name, in each round of which each
/// bidder's proxy bids, in order. The proxies know the true values, which the bids of the file of
/// the second name say, and each states the bounds of the least tightening by halves around them
/// that is accepted. Both files are fetched and judged before anything is written: the exchange
/// first, and then the true values.
#[tactic(none)]
pub fn simulate<H: Shelf, K: Sink>(
    alloc: Global,
    exchange: &str,
    truths: &str,
    shelf: &mut H,
    out: &mut K,
) -> Status
    ensures served { Serves (λ call. SimulateAnswers call exchange.now truths.now)
        (H.told shelf.old) (H.told shelf.new) (K.taken out.old) (K.taken out.new) result }
    ensures kept { KeepsTold (H.told shelf.old) (H.told shelf.new) result }
{
    let exchange = match read_exchange(alloc, 1, exchange, shelf) {
        Ok(exchange) => exchange,
        Err(refusal) => return refusal.say(out),
    };
    match read_truths(alloc, &exchange, truths, shelf) {
        Ok(truths) => hold_session(alloc, exchange, Source::Proxies(&truths), shelf, out),
        Err(refusal) => refusal.say(out),
    }
}
