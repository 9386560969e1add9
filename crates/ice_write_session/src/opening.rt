//! A settlement that opens a round.
ghost use Rattle.std.specs.Prelude.{length};
ghost use Rattle.ice_defs.specs.Exchange.{exact_of};
ghost use Rattle.ice_edge.specs.Puts.{IsPut};
ghost use Rattle.ice_journal.specs.Records as line;
ghost use Rattle.ice_journal.specs.Ranges.{IsRecord};
ghost use Rattle.ice_journal.specs.Journal.{bytes_of};
ghost use Rattle.ice_write_session.specs.Records.{opening_records};
ghost use Rattle.ice_write_session.specs.Writable.{IsWritableOpening};

use crate::group::put_provisional;
use crate::pricing::put_pricing;
use crate::regret::put_settlement;
use ice_edge::{Sink, SinkFault};
use ice_settled::Opening;
use ice_trade::Exchange;

/// Puts a settlement that opens a round of this exchange, before its submissions: its number, the
/// groups of the final sets and of their rival, the regret, the group of the provisional sets, and
/// the prices with their certificates. All numbers are in the ranges of their records; those of
/// prices always are. It takes no memory.
pub fn put_opening<K: Sink>(
    exchange: &Exchange,
    opening: &Opening,
    out: &mut K,
) -> Result<(), SinkFault>
    requires { IsWritableOpening (length (exact_of exchange.now)) opening.now }
    ensures put { IsPut (bytes_of (opening_records exchange.now opening.now)) result
        (K.taken out.old) (K.taken out.new) }
    ensures prices { IsRecord (line.prices opening.now.pricing.prices) }
{
    // Prices are terms that a record may have.
    let _den = opening.pricing.prices.den();
    put_settlement(
        exchange,
        opening.number,
        &opening.best,
        &opening.regret,
        out,
    )?;
    put_provisional(exchange, &opening.provisional, out)?;
    put_pricing(&opening.pricing, out)
}
