//! The journal of a generated session that a search or a pricing ended.
ghost use Rattle.std.specs.Prelude.{◌++◌, length, IfSome, Some};
ghost use Rattle.std.specs.List.{flat_map};
ghost use Rattle.ice_defs.specs.Exchange.{exact_of};
ghost use Rattle.ice_edge.specs.Puts.{IsPut};
ghost use Rattle.ice_journal.specs.Records as line;
ghost use Rattle.ice_journal.specs.Ranges.{IsRecord};
ghost use Rattle.ice_journal.specs.Journal.{bytes_of};
ghost use Rattle.ice_journal_laws.specs.Written.{judged_records};
ghost use Rattle.ice_search.specs.Results.{proved_spent};
ghost use Rattle.ice_write_session.specs.Records.{halt_records, spent_records, limit_records};
ghost use Rattle.ice_write_session.specs.Writable.{IsWritable, IsWritableOpening, IsWritableHalt, IsWritableLimit};
ghost use Rattle.ice_session_laws.specs.Written.{begun_records};
ghost use Rattle.ice_trial.specs.Rounds.{acceptances};
ghost use Rattle.ice_session_commands.specs.GenJournal.{first_records, trial_records};

use crate::session_journal::{bound_of, put_begin, put_halted, put_limited};
use ice_edge::{Sink, SinkFault};
use ice_price::PriceLimit;
use ice_rules::Verdict;
use ice_search::Spent;
use ice_settled::Halt;
use ice_terms::Bid;
use ice_trade::Exchange;
use ice_trial::TruthRound;
use ice_write_session::{put_judged, put_opening};

/// Puts bids that are all accepted.
fn put_accepted<K: Sink>(bids: &[Bid], out: &mut K) -> Result<(), SinkFault>
    ensures { IsPut (bytes_of (flat_map judged_records (acceptances bids.now))) result
        (K.taken out.old) (K.taken out.new) }
{
    for bid in bids {
        put_judged(bid, Verdict::Accepted, out)?;
    }
    Ok(())
}

/// Puts the settlement that opened the round of the true values, with its bids.
fn put_round<K: Sink>(exchange: &Exchange, round: &TruthRound, out: &mut K) -> Result<(), SinkFault>
    requires { IsWritableOpening (length (exact_of exchange.now)) round.now.opening }
    ensures { IsPut (bytes_of (first_records exchange.now (Some round.now))) result
        (K.taken out.old) (K.taken out.new) }
{
    put_opening(exchange, &round.opening, out)?;
    put_accepted(&round.bids, out)
}

/// Puts it, if there was one.
fn put_first<K: Sink>(
    exchange: &Exchange,
    first: &Option<TruthRound>,
    out: &mut K,
) -> Result<(), SinkFault>
    requires { IfSome first.now
        (λ r. IsWritableOpening (length (exact_of exchange.now)) r.opening) }
    ensures { IsPut (bytes_of (first_records exchange.now first.now)) result
        (K.taken out.old) (K.taken out.new) }
{
    match first {
        Some(round) => put_round(exchange, round, out),
        None => Ok(()),
    }
}

/// Puts the head, the exchange, and the round of the true values, if there was one.
fn put_trial<K: Sink>(
    exchange: &Exchange,
    first: &Option<TruthRound>,
    out: &mut K,
) -> Result<(), SinkFault>
    requires { IfSome first.now
        (λ r. IsWritableOpening (length (exact_of exchange.now)) r.opening) }
    ensures { IsPut (bytes_of (trial_records exchange.now first.now)) result
        (K.taken out.old) (K.taken out.new) }
{
    put_begin(exchange, out)?;
    put_first(exchange, first, out)
}

/// Puts the whole journal where a search spent the branches.
pub fn put_spent_trial<K: Sink>(
    first: &Option<TruthRound>,
    halt: &Halt,
    spent: &Spent,
    out: &mut K,
) -> Result<(), SinkFault>
    requires first { IfSome first.now (λ r. IsWritableOpening
        (length (exact_of halt.now.exchange)) r.opening) }
    requires halt { IsWritableHalt halt.now }
    requires spent { IsWritable (length (exact_of halt.now.exchange)) (proved_spent spent.now) }
    ensures put { IsPut (bytes_of (trial_records halt.now.exchange first.now
        ++ (halt_records halt.now ++ spent_records halt.now.exchange spent.now))) result
        (K.taken out.old) (K.taken out.new) }
    ensures record_is { IsRecord (line.spent spent.now.value spent.now.bound) }
{
    let _bound = bound_of(spent);
    put_trial(&halt.exchange, first, out)?;
    put_halted(halt, spent, out)
}

/// Puts the whole journal where the pricing of settlement 0 ended at a limit.
pub fn put_limited_trial<K: Sink>(
    halt: &Halt,
    limit: &PriceLimit,
    out: &mut K,
) -> Result<(), SinkFault>
    requires halt { IsWritableHalt halt.now }
    requires limit { IsWritableLimit limit.now }
    ensures { IsPut (bytes_of (begun_records halt.now.exchange
        ++ (halt_records halt.now ++ limit_records limit.now))) result
        (K.taken out.old) (K.taken out.new) }
{
    put_begin(&halt.exchange, out)?;
    put_limited(halt, limit, out)
}
