//! A settlement that was halted: as far as it came, and where a pricing run ended.
ghost use Rattle.std.specs.Prelude.{◌∷◌, [], IfSome, length, map};
ghost use Rattle.ice_defs.specs.Exchange.{exact_of};
ghost use Rattle.ice_defs.specs.PricingLimit.{limit_of, stage_of};
ghost use Rattle.std.specs.List.{AllByRecursion};
ghost use Rattle.ice_edge.specs.Puts.{IsPut};
ghost use Rattle.ice_journal.specs.Records as line;
ghost use Rattle.ice_journal.specs.Journal.{bytes_of};
ghost use Rattle.ice_journal.specs.Spelling.{line_of};
ghost use Rattle.ice_search.specs.Results.{proved_found};
ghost use Rattle.ice_write_session.specs.Records.{member_record, found_final, found_regret, found_provisional, halt_records, limit_records};
ghost use Rattle.ice_write_session.specs.Writable.{IsWritable, IsWritableRegret, IsWritableHalt, IsWritableMember, IsWritableLimit};

use crate::group::{put_final, put_provisional};
use crate::record::{put_end, put_line, put_settle};
use crate::regret::put_regret;
use crate::without::put_withouts;
use ice_edge::{Sink, SinkFault};
use ice_journal::{EndWord, Line};
use ice_price::{PoolMember, PriceLimit};
use ice_regret::Regret;
use ice_search::Found;
use ice_settled::Halt;
use ice_trade::Exchange;
use ice_write::put_record;

/// Puts the group of the final sets, where they were found.
fn put_found_final<K: Sink>(
    exchange: &Exchange,
    best: &Option<Found>,
    out: &mut K,
) -> Result<(), SinkFault>
    requires { IfSome best.now
        (λ best. IsWritable (length (exact_of exchange.now)) (proved_found best)) }
    ensures { IsPut (bytes_of (found_final exchange.now best.now)) result
        (K.taken out.old) (K.taken out.new) }
{
    match best {
        Some(best) => put_final(exchange, best, out),
        None => Ok(()),
    }
}

/// Puts the group of the rival and the regret, where they were found.
fn put_found_regret<K: Sink>(
    exchange: &Exchange,
    regret: &Option<Regret>,
    out: &mut K,
) -> Result<(), SinkFault>
    requires { IfSome regret.now (IsWritableRegret (length (exact_of exchange.now))) }
    ensures { IsPut (bytes_of (found_regret exchange.now regret.now)) result
        (K.taken out.old) (K.taken out.new) }
{
    match regret {
        Some(regret) => put_regret(exchange, regret, out),
        None => Ok(()),
    }
}

/// Puts the group of the provisional sets, where they were found.
fn put_found_provisional<K: Sink>(
    exchange: &Exchange,
    provisional: &Option<Found>,
    out: &mut K,
) -> Result<(), SinkFault>
    requires { IfSome provisional.now
        (λ p. IsWritable (length (exact_of exchange.now)) (proved_found p)) }
    ensures { IsPut (bytes_of (found_provisional exchange.now provisional.now)) result
        (K.taken out.old) (K.taken out.new) }
{
    match provisional {
        Some(provisional) => put_provisional(exchange, provisional, out),
        None => Ok(()),
    }
}

/// Puts a settlement as far as it came before it was halted: its number, and of the final sets,
/// their rival with the regret, the first bidders' groups and the provisional sets what was found.
/// All numbers are in the ranges of their records. It takes no memory.
pub fn put_halt<K: Sink>(halt: &Halt, out: &mut K) -> Result<(), SinkFault>
    requires { IsWritableHalt halt.now }
    ensures { IsPut (bytes_of (halt_records halt.now)) result (K.taken out.old) (K.taken out.new) }
{
    let exchange = &halt.exchange;
    put_settle(halt.number, out)?;
    put_found_final(exchange, &halt.best, out)?;
    put_found_regret(exchange, &halt.regret, out)?;
    put_withouts(exchange, &halt.marginals, out)?;
    put_found_provisional(exchange, &halt.provisional, out)
}

/// Puts the stage and the limit, with the violation and its denominator.
fn put_stage<K: Sink>(limit: &PriceLimit, out: &mut K) -> Result<(), SinkFault>
    requires { IsWritableLimit limit.now }
    ensures { IsPut
        (bytes_of (line.limit (stage_of limit.now.stage) (limit_of limit.now.kind)
        limit.now.delta limit.now.den ∷ [])) result (K.taken out.old) (K.taken out.new) }
{
    let line = Line::Limit {
        stage: limit.stage,
        kind: limit.kind,
        violation: limit.delta,
        den: limit.den,
    };
    put_line(&line, out)
}

/// Puts a set of the pool.
fn put_member<K: Sink>(member: &PoolMember, out: &mut K) -> Result<(), SinkFault>
    requires { IsWritableMember member.now }
    ensures { IsPut (line_of (member_record member.now)) result
        (K.taken out.old) (K.taken out.new) }
{
    let line = Line::Pool {
        bidder: member.bidder,
        set: member.set,
    };
    put_record(&line, out)
}

/// Puts the `pool` records of sets, whose numbers are in their ranges. It takes no memory.
pub fn put_pool<K: Sink>(pool: &[PoolMember], out: &mut K) -> Result<(), SinkFault>
    requires { AllByRecursion IsWritableMember pool.now }
    ensures { IsPut (bytes_of (map member_record pool.now)) result
        (K.taken out.old) (K.taken out.new) }
{
    for member in pool {
        put_member(member, out)?;
    }
    Ok(())
}

/// Puts the limit at which a pricing run ended, its pool, and the end. All numbers are in the
/// ranges of their records. It takes no memory.
pub fn put_limit<K: Sink>(limit: &PriceLimit, out: &mut K) -> Result<(), SinkFault>
    requires { IsWritableLimit limit.now }
    ensures { IsPut (bytes_of (limit_records limit.now)) result
        (K.taken out.old) (K.taken out.new) }
{
    put_stage(limit, out)?;
    put_pool(&limit.pool, out)?;
    put_end(EndWord::Limit, out)
}
