//! The session of an exchange, whose rounds have the bids of a source.
ghost use Rattle.std.specs.Prelude.{[], List, IfOk, IfErr};
ghost use Rattle.ice_defs.specs.Session.{Going};
ghost use Rattle.ice_edge.specs.Told.{IsLater};
ghost use Rattle.ice_session_laws.specs.Running.{IsRunning};
ghost use Rattle.ice_command_parts.specs.Journals.{WritesBehind};
ghost use Rattle.ice_command_parts.specs.Keeping.{KeepsTold};
ghost use Rattle.ice_session_commands.specs.Sources.{LeadsTo, MayBegin, IsLeft};
ghost use Rattle.ice_session_commands.specs.SessionSteps.{EndsRound, FailsInRound, Plays};

use crate::session_journal::{judge, put_begin, settled_round};
use crate::source::{Source, round_bids};
use ice_edge::{Shelf, Sink, SinkFault, Status};
use ice_round::{InRound, Ready};
use ice_terms::Bid;
use ice_trade::Exchange;
use std::alloc::Global;

/// Judges the bids, and ends the round: the session between rounds again, or how the call ends.
#[tactic(none)]
fn hold_round<K: Sink>(round: InRound, bids: &[Bid], out: &mut K) -> Result<Ready, Status>
    ensures next { IfOk result (λ next. EndsRound round bids.now next
        (K.taken out.old) (K.taken out.new)) }
    ensures ended { IfErr result (λ status. FailsInRound round bids.now
        (K.taken out.old) (K.taken out.new) status) }
{
    let mut round = round;
    match judge(&mut round, bids, out) {
        Ok(()) => Ok(round.end()),
        Err(SinkFault::Failed) => Err(Status::WriteFault),
    }
}

/// Settles, and holds rounds with the bids of the source, until the session ends, or the source has
/// no bids: it is asked only as a round begins.
#[tactic(none)]
fn hold_rounds<H: Shelf, K: Sink>(
    alloc: Global,
    ready: Ready,
    source: Source<'_>,
    shelf: &mut H,
    out: &mut K,
) -> Status
    requires { (whole : Source) × (going : List Going) × IsRunning going ready
        × IsLeft (H.told shelf.old) whole going ready source }
    ensures plays { Plays source.entry ready (H.told shelf.old) (H.told shelf.new)
        (K.taken out.old) (K.taken out.new) result }
    ensures kept { KeepsTold (H.told shelf.old) (H.told shelf.new) result }
    ensures later { IsLater (H.told shelf.old) (H.told shelf.new) }
{
    let mut ready = ready;
    let mut source = source;
    'rounds: loop {
        let round = match settled_round(ready, out) {
            Ok(round) => round,
            Err(status) => return status,
        };
        let (bids, left) = match round_bids(alloc, source, &round, shelf) {
            Ok(two) => two,
            Err(none) => return none.say(out),
        };
        match hold_round(round, &bids, out) {
            Ok(next) => {
                ready = next;
                source = left;
            }
            Err(status) => return status,
        }
    }
}

/// Writes the journal of the session of an exchange, whose rounds have the bids of the source. Each
/// line is put as soon as it is known.
#[tactic(none)]
pub fn hold_session<H: Shelf, K: Sink>(
    alloc: Global,
    exchange: Exchange,
    source: Source<'_>,
    shelf: &mut H,
    out: &mut K,
) -> Status
    requires { MayBegin source exchange }
    ensures journal { WritesBehind []
        (LeadsTo source.entry exchange (H.told shelf.old) (H.told shelf.new))
        (K.taken out.old) (K.taken out.new) result }
    ensures kept { KeepsTold (H.told shelf.old) (H.told shelf.new) result }
    ensures later { IsLater (H.told shelf.old) (H.told shelf.new) }
{
    let _bidders = exchange.bidders();
    match put_begin(&exchange, out) {
        Ok(()) => match Ready::start(alloc, exchange) {
            Ok(ready) => hold_rounds(alloc, ready, source, shelf, out),
            Err(_) => Status::NoMemory,
        },
        Err(SinkFault::Failed) => Status::WriteFault,
    }
}
