//! The groups of a settlement.
ghost use Rattle.std.specs.Prelude.{◌≡◌, length};
ghost use Rattle.ice_defs.specs.Exchange.{exact_of};
ghost use Rattle.ice_edge.specs.Puts.{IsPut};
ghost use Rattle.ice_journal.specs.Records as line;
ghost use Rattle.ice_journal.specs.Ranges.{IsRecord, IsTotal};
ghost use Rattle.ice_journal.specs.Journal.{bytes_of};
ghost use Rattle.ice_journal.specs.Lines.{record_of};
ghost use Rattle.ice_regret.specs.Regretted.{proved_rival};
ghost use Rattle.ice_search.specs.Results.{proved_found, proved_spent};
ghost use Rattle.ice_write_session.specs.Records.{final_records, rival_records, provisional_records, spent_group, spent_records};
ghost use Rattle.ice_write_session.specs.Writable.{IsWritable};

use crate::record::put_end;
use ice_edge::{Sink, SinkFault};
use ice_journal::{EndWord, Line};
use ice_regret::Regret;
use ice_search::{Found, Spent};
use ice_trade::Exchange;
use ice_write::put_group;

/// Puts the group of the final sets.
pub fn put_final<K: Sink>(exchange: &Exchange, found: &Found, out: &mut K) -> Result<(), SinkFault>
    requires { IsWritable (length (exact_of exchange.now)) (proved_found found.now) }
    ensures { IsPut (bytes_of (final_records exchange.now found.now)) result
        (K.taken out.old) (K.taken out.new) }
{
    let head = Line::Final {
        value: found.value as i64,
    };
    put_group(&head, &found.best, &found.log, exchange.goods(), out)
}

/// Puts the group of the rival.
pub fn put_rival<K: Sink>(
    exchange: &Exchange,
    regret: &Regret,
    out: &mut K,
) -> Result<(), SinkFault>
    requires { IsWritable (length (exact_of exchange.now)) (proved_rival regret.now) }
    ensures { IsPut (bytes_of (rival_records exchange.now regret.now)) result
        (K.taken out.old) (K.taken out.new) }
{
    let head = Line::Rival {
        value: regret.value as i64,
    };
    put_group(&head, &regret.rival, &regret.log, exchange.goods(), out)
}

/// The head of the provisional sets.
fn provisional_line(found: &Found) -> Line<'static>
    requires { IsTotal found.now.value }
    ensures line { record_of result ≡ line.provisional found.now.value }
    ensures record { IsRecord (record_of result) }
{
    Line::Provisional {
        value: found.value as i64,
    }
}

/// Puts the group of the provisional sets.
pub fn put_provisional<K: Sink>(
    exchange: &Exchange,
    found: &Found,
    out: &mut K,
) -> Result<(), SinkFault>
    requires { IsWritable (length (exact_of exchange.now)) (proved_found found.now) }
    ensures { IsPut (bytes_of (provisional_records exchange.now found.now)) result
        (K.taken out.old) (K.taken out.new) }
{
    let head = provisional_line(found);
    put_group(&head, &found.best, &found.log, exchange.goods(), out)
}

/// Puts what was found where the branches were spent.
fn put_spent_group<K: Sink>(
    exchange: &Exchange,
    spent: &Spent,
    out: &mut K,
) -> Result<(), SinkFault>
    requires { IsWritable (length (exact_of exchange.now)) (proved_spent spent.now) }
    ensures put { IsPut (bytes_of (spent_group exchange.now spent.now)) result
        (K.taken out.old) (K.taken out.new) }
    ensures record { IsRecord (line.spent spent.now.value spent.now.bound) }
{
    let head = Line::Spent {
        value: spent.value as i64,
        bound: spent.bound,
    };
    put_group(&head, &spent.found, &spent.log, exchange.goods(), out)
}

/// Puts what was found where the branches were spent, and the end.
pub fn put_spent<K: Sink>(exchange: &Exchange, spent: &Spent, out: &mut K) -> Result<(), SinkFault>
    requires { IsWritable (length (exact_of exchange.now)) (proved_spent spent.now) }
    ensures put { IsPut (bytes_of (spent_records exchange.now spent.now)) result
        (K.taken out.old) (K.taken out.new) }
    ensures record { IsRecord (line.spent spent.now.value spent.now.bound) }
{
    put_spent_group(exchange, spent, out)?;
    put_end(EndWord::Spent, out)
}
