//! What a market is worth without each bidder.
ghost use Rattle.std.specs.Prelude.{length};
ghost use Rattle.ice_defs.specs.Exchange.{exact_of};
ghost use Rattle.ice_edge.specs.Puts.{IsPut};
ghost use Rattle.ice_journal.specs.Ranges.{IsBidderNumber};
ghost use Rattle.ice_journal.specs.Journal.{bytes_of};
ghost use Rattle.ice_vickrey.specs.Marginals.{proved_without};
ghost use Rattle.ice_write_session.specs.Records.{one_without, without_records};
ghost use Rattle.ice_write_session.specs.Writable.{IsWritable, AreWritableWithout};

use ice_edge::{Sink, SinkFault};
use ice_journal::Line;
use ice_trade::Exchange;
use ice_vickrey::Marginal;
use ice_write::put_group;

/// Puts the group without the bidder of this number.
fn put_numbered<K: Sink>(
    exchange: &Exchange,
    bidder: u8,
    marginal: &Marginal,
    out: &mut K,
) -> Result<(), SinkFault>
    requires bidder { IsBidderNumber bidder }
    requires written { IsWritable (length (exact_of exchange.now)) (proved_without marginal.now) }
    ensures { IsPut (bytes_of (one_without exchange.now bidder marginal.now)) result
        (K.taken out.old) (K.taken out.new) }
{
    let head = Line::Without {
        bidder,
        value: marginal.without as i64,
    };
    put_group(
        &head,
        &marginal.witness,
        &marginal.log,
        exchange.goods(),
        out,
    )
}

/// Puts the group without a bidder. All numbers are in the ranges of their records. It takes no
/// memory.
pub fn put_without<K: Sink>(
    exchange: &Exchange,
    marginal: &Marginal,
    out: &mut K,
) -> Result<(), SinkFault>
    requires bidder { IsBidderNumber marginal.now.bidder }
    requires written { IsWritable (length (exact_of exchange.now)) (proved_without marginal.now) }
    ensures { IsPut (bytes_of (one_without exchange.now marginal.now.bidder marginal.now)) result
        (K.taken out.old) (K.taken out.new) }
{
    put_numbered(exchange, marginal.bidder, marginal, out)
}

/// Puts the groups without the first bidders, in order.
pub(crate) fn put_withouts<K: Sink>(
    exchange: &Exchange,
    marginals: &[Marginal],
    out: &mut K,
) -> Result<(), SinkFault>
    requires { AreWritableWithout (length (exact_of exchange.now)) marginals.now }
    ensures { IsPut (bytes_of (without_records exchange.now marginals.now)) result
        (K.taken out.old) (K.taken out.new) }
{
    for bidder in 0..marginals.len() as u8 {
        put_numbered(exchange, bidder, &marginals[usize::from(bidder)], out)?;
    }
    Ok(())
}
