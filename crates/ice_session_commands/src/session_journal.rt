//! The journal of a session, put line by line as it is found, and in a settlement group by group.
ghost use Rattle.std.specs.Prelude.{◌≡◌, ◌-◌, ◌^◌, ◌++◌, [], false, IsTrue, List, MatchResult, length, pos, neg_ℤ};
ghost use Rattle.ice_defs.specs.Exchange.{exact_of, trees_of, IsBetween};
ghost use Rattle.ice_defs.specs.Session.{Going, closes as closing};
ghost use Rattle.ice_edge.specs.Puts.{IsPut};
ghost use Rattle.ice_journal.specs.Records as line;
ghost use Rattle.ice_journal.specs.Ranges.{IsBidderNumber, IsRecord};
ghost use Rattle.ice_journal.specs.Journal.{bytes_of};
ghost use Rattle.ice_search.specs.Results.{proved_spent};
ghost use Rattle.ice_vickrey.specs.Marginals.{proved_without};
ghost use Rattle.ice_write_session.specs.Records.{one_without, halt_records, spent_records, limit_records};
ghost use Rattle.ice_write_session.specs.Writable.{IsWritable, IsWritableHalt, IsWritableLimit};
ghost use Rattle.ice_round.specs.SessionAt.{SessionAt};
ghost use Rattle.ice_round.specs.Ends.{IsHaltedBy};
ghost use Rattle.ice_round.specs.Held.{settling_with, HasFound};
ghost use Rattle.ice_round.specs.Settling.{IsOfferOf};
ghost use Rattle.ice_session_laws.specs.Running.{IsRunning};
ghost use Rattle.ice_session_laws.specs.Written.{begun_records};
ghost use Rattle.ice_command_parts.specs.Parts.{IsSaid};
ghost use Rattle.ice_session_commands.specs.SessionSteps.{Judges, OpensRound, EndsHere, OpensBehind, EndsBehind, OpensOffering, EndsOffering};

use ice_command_parts::ended;
use ice_edge::{Sink, SinkFault, Status};
use ice_journal::{Kind, Line, Version};
use ice_price::{PriceEnd, PriceLimit};
use ice_round::{InRound, Offer, Ready, Settling};
use ice_search::{SearchEnd, Spent};
use ice_settled::Halt;
use ice_terms::Bid;
use ice_trade::Exchange;
use ice_vickrey::Marginal;
use ice_write::{put_record, put_section};
use ice_write_session::{
    put_charged, put_halt, put_judged, put_limit, put_pricing, put_provisional, put_settlement,
    put_spent, put_without,
};

/// Puts the head and the exchange.
pub fn put_begin<K: Sink>(exchange: &Exchange, out: &mut K) -> Result<(), SinkFault>
    ensures { IsPut (bytes_of (begun_records exchange.now)) result
        (K.taken out.old) (K.taken out.new) }
{
    let head = Line::Head {
        version: Version::Two,
        kind: Kind::Session,
    };
    put_record(&head, out)?;
    put_section(exchange, out)
}

/// The bound above which nothing is left.
pub fn bound_of(spent: &Spent) -> i128
    ensures value { result ≡ spent.now.bound }
    ensures fits { IsBetween (neg_ℤ (pos (2 ^ 127))) (pos (2 ^ 127 - 1)) spent.now.bound }
{
    spent.bound
}

/// Puts how far a settlement came, and what was found where the branches were spent.
pub fn put_halted<K: Sink>(halt: &Halt, spent: &Spent, out: &mut K) -> Result<(), SinkFault>
    requires halt { IsWritableHalt halt.now }
    requires spent { IsWritable (length (exact_of halt.now.exchange)) (proved_spent spent.now) }
    ensures put { IsPut
        (bytes_of (halt_records halt.now ++ spent_records halt.now.exchange spent.now)) result
        (K.taken out.old) (K.taken out.new) }
    ensures record_is { IsRecord (line.spent spent.now.value spent.now.bound) }
{
    let _bound = bound_of(spent);
    put_halt(halt, out)?;
    put_spent(&halt.exchange, spent, out)
}

/// Puts it where the branches were spent, and ends with the status that goes with it.
#[tactic(none)]
fn stop_early<K: Sink>(halt: Halt, end: SearchEnd, out: &mut K) -> Status
    requires { (s : SessionAt) × ((going : List Going) × IsRunning going s) × IsHaltedBy s halt end }
    ensures { (s : SessionAt) → IsHaltedBy s halt end
        → EndsHere s (K.taken out.old) (K.taken out.new) result }
{
    match end {
        SearchEnd::Spent(spent) => ended(put_halted(&halt, &spent, out), Status::Spent),
        SearchEnd::NoMemory => Status::NoMemory,
    }
}

/// Puts what was found where the branches were spent, behind groups that are put, and ends with the
/// status that goes with it.
fn stop_behind<K: Sink>(exchange: &Exchange, spent: &Spent, out: &mut K) -> Status
    requires { IsWritable (length (exact_of exchange.now)) (proved_spent spent.now) }
    ensures said { IsSaid (bytes_of (spent_records exchange.now spent.now)) Status.Spent
        (K.taken out.old) (K.taken out.new) result }
    ensures record_is { IsRecord (line.spent spent.now.value spent.now.bound) }
{
    ended(put_spent(exchange, spent, out), Status::Spent)
}

/// Puts how far a settlement came, and the limit of its pricing.
pub fn put_limited<K: Sink>(halt: &Halt, limit: &PriceLimit, out: &mut K) -> Result<(), SinkFault>
    requires halt { IsWritableHalt halt.now }
    requires limit { IsWritableLimit limit.now }
    ensures { IsPut (bytes_of (halt_records halt.now ++ limit_records limit.now)) result
        (K.taken out.old) (K.taken out.new) }
{
    put_halt(halt, out)?;
    put_limit(limit, out)
}

/// Puts the limit of the pricing, behind groups that are put, and ends with the status that goes
/// with it.
fn stop_limited<K: Sink>(limit: &PriceLimit, out: &mut K) -> Status
    requires { IsWritableLimit limit.now }
    ensures { IsSaid (bytes_of (limit_records limit.now)) Status.Limit
        (K.taken out.old) (K.taken out.new) result }
{
    ended(put_limit(limit, out), Status::Limit)
}

/// Puts what the bidders pay, where it is known without each of them what the market is worth, and
/// the end.
#[tactic(none)]
fn charge<K: Sink>(settling: Settling, out: &mut K) -> Status
    requires running { (going : List Going) × IsRunning going settling.session }
    requires found { (done : List Marginal) × HasFound settling done }
    requires closes { IsTrue (closing settling.session.exchange.settings settling.session.number
        settling.regret.amount) }
    requires all { length settling.discounts ≡ length (trees_of settling.session.exchange) }
    ensures { (done : List Marginal) → HasFound settling done
        → EndsBehind (settling_with settling done) (K.taken out.old) (K.taken out.new) result }
{
    match settling.pay() {
        Ok(charged) => ended(put_charged(&charged, out), Status::Done),
        Err(_) => Status::NoMemory,
    }
}

/// Puts the group without a bidder, and lets it go.
fn put_found<K: Sink>(exchange: &Exchange, marginal: Marginal, out: &mut K) -> Result<(), SinkFault>
    requires bidder { IsBidderNumber marginal.bidder }
    requires written { IsWritable (length (exact_of exchange.now)) (proved_without marginal) }
    ensures { IsPut (bytes_of (one_without exchange.now marginal.bidder marginal)) result
        (K.taken out.old) (K.taken out.new) }
{
    put_without(exchange, &marginal, out)
}

/// Closes the session: finds what the market is worth without each bidder that is left, puts each
/// group as soon as its search has ended, and then what the bidders pay. Of these groups there is
/// one at a time.
#[tactic(none)]
fn close<K: Sink>(settling: Settling, out: &mut K) -> Status
    requires running { (going : List Going) × IsRunning going settling.session }
    requires found { (done : List Marginal) × HasFound settling done }
    requires closes { IsTrue (closing settling.session.exchange.settings settling.session.number
        settling.regret.amount) }
    ensures { (done : List Marginal) → HasFound settling done
        → EndsBehind (settling_with settling done) (K.taken out.old) (K.taken out.new) result }
{
    let mut settling = settling;
    if settling.is_done() {
        return charge(settling, out);
    }
    match settling.find_without() {
        Ok(marginal) => match put_found(settling.exchange(), marginal, out) {
            Ok(()) => close(settling, out),
            Err(SinkFault::Failed) => Status::WriteFault,
        },
        Err(SearchEnd::Spent(spent)) => stop_behind(settling.exchange(), &spent, out),
        Err(SearchEnd::NoMemory) => Status::NoMemory,
    }
}

/// Prices what is offered, and opens the round: its prices are put then.
#[tactic(none)]
fn open<K: Sink>(settling: Settling, offer: Offer, out: &mut K) -> Result<InRound, Status>
    requires running { (going : List Going) × IsRunning going settling.session }
    requires found { HasFound settling [] }
    requires goes_on { closing settling.session.exchange.settings settling.session.number
        settling.regret.amount ≡ false }
    requires offer { IsOfferOf (settling_with settling []) offer }
    ensures { MatchResult result
        (λ round. OpensOffering (settling_with settling []) offer round
        (K.taken out.old) (K.taken out.new))
        (λ status. EndsOffering (settling_with settling []) offer
        (K.taken out.old) (K.taken out.new) status) }
{
    match settling.price(&offer) {
        Ok(pricing) => {
            let (round, opening) = settling.open(offer, pricing);
            let _den = opening.pricing.prices.den();
            match put_pricing(&opening.pricing, out) {
                Ok(()) => Ok(round),
                Err(SinkFault::Failed) => Err(Status::WriteFault),
            }
        }
        Err(PriceEnd::Limit(limit)) => Err(stop_limited(&limit, out)),
        Err(PriceEnd::NoMemory) => Err(Status::NoMemory),
    }
}

/// Finds the provisional sets, puts them, and opens a round.
#[tactic(none)]
fn go_on<K: Sink>(settling: Settling, out: &mut K) -> Result<InRound, Status>
    requires running { (going : List Going) × IsRunning going settling.session }
    requires found { HasFound settling [] }
    requires goes_on { closing settling.session.exchange.settings settling.session.number
        settling.regret.amount ≡ false }
    ensures { MatchResult result
        (λ round. OpensBehind (settling_with settling []) round
        (K.taken out.old) (K.taken out.new))
        (λ status. EndsBehind (settling_with settling [])
        (K.taken out.old) (K.taken out.new) status) }
{
    let offer = match settling.offer() {
        Ok(offer) => offer,
        Err(SearchEnd::Spent(spent)) => {
            return Err(stop_behind(settling.exchange(), &spent, out));
        }
        Err(SearchEnd::NoMemory) => return Err(Status::NoMemory),
    };
    match put_provisional(settling.exchange(), &offer.provisional, out) {
        Ok(()) => open(settling, offer, out),
        Err(SinkFault::Failed) => Err(Status::WriteFault),
    }
}

/// What follows the final sets and their regret, by the close test.
#[tactic(none)]
fn follow<K: Sink>(settling: Settling, out: &mut K) -> Result<InRound, Status>
    requires running { (going : List Going) × IsRunning going settling.session }
    requires found { HasFound settling [] }
    ensures { MatchResult result
        (λ round. OpensBehind (settling_with settling []) round
        (K.taken out.old) (K.taken out.new))
        (λ status. EndsBehind (settling_with settling [])
        (K.taken out.old) (K.taken out.new) status) }
{
    if settling.closes() {
        return Err(close(settling, out));
    }
    go_on(settling, out)
}

/// Settles, and puts each group as soon as it is known to be one of the settlement: the final sets
/// and their rival once both are found, and each further one behind its search. Then it puts the
/// rest: what opens the round, or how the session ends.
#[tactic(none)]
pub fn settled_round<K: Sink>(ready: Ready, out: &mut K) -> Result<InRound, Status>
    requires { (going : List Going) × IsRunning going ready }
    ensures { MatchResult result
        (λ round. OpensRound ready round (K.taken out.old) (K.taken out.new))
        (λ status. EndsHere ready (K.taken out.old) (K.taken out.new) status) }
{
    let settling = match ready.search() {
        Ok(settling) => settling,
        Err((halt, end)) => return Err(stop_early(halt, end, out)),
    };
    match put_settlement(
        settling.exchange(),
        settling.number(),
        settling.best(),
        settling.regret(),
        out,
    ) {
        Ok(()) => follow(settling, out),
        Err(SinkFault::Failed) => Err(Status::WriteFault),
    }
}

/// Judges the bids in their order, and puts each with its verdict as soon as it is judged.
#[tactic(none)]
pub fn judge<K: Sink>(round: &mut InRound, bids: &[Bid], out: &mut K) -> Result<(), SinkFault>
    ensures { Judges round.old round.new bids.now result (K.taken out.old) (K.taken out.new) }
{
    for bid in bids {
        let verdict = round.submit(bid);
        let _values = bid.lo();
        put_judged(bid, verdict, out)?;
    }
    Ok(())
}
