//! A settlement, put into a sink line by line.
ghost use Rattle.ice_edge.specs.Puts.{IsPut};
ghost use Rattle.ice_journal.specs.Records as line;
ghost use Rattle.ice_journal.specs.Spelling.{line_of};
ghost use Rattle.ice_replay.specs.Lines.{bidder_line, bidder_lines, opening_lines, amount_lines, price_lines, last_line, replay_lines};

use crate::lines::{write_bidder, write_final, write_regret, write_settle};
use crate::settlement::{BidderBounds, Replay};
use ice_edge::{Sink, SinkFault};
use ice_journal::Line;
use ice_line::LineWriter;
use ice_terms::Prices;
use ice_write::put_record;

/// Puts the line of a settlement's number.
fn put_settle<K: Sink>(number: u8, out: &mut K) -> Result<(), SinkFault>
    ensures { IsPut (line_of (line.settle number)) result (K.taken out.old) (K.taken out.new) }
{
    let mut writer = LineWriter::new();
    out.put(write_settle(number, &mut writer))
}

/// Puts the line of a bidder's bounds.
fn put_bidder<K: Sink>(bidder: &BidderBounds, out: &mut K) -> Result<(), SinkFault>
    ensures { IsPut (bidder_line bidder.now) result (K.taken out.old) (K.taken out.new) }
{
    let mut writer = LineWriter::new();
    out.put(write_bidder(bidder, &mut writer))
}

/// Puts the lines of the bidders' bounds.
fn put_bidders<K: Sink>(bidders: &[BidderBounds], out: &mut K) -> Result<(), SinkFault>
    ensures { IsPut (bidder_lines bidders.now) result (K.taken out.old) (K.taken out.new) }
{
    for bidder in bidders {
        put_bidder(bidder, out)?;
    }
    Ok(())
}

/// Puts the number and the bounds.
fn put_opening<K: Sink>(replay: &Replay, out: &mut K) -> Result<(), SinkFault>
    ensures { IsPut (opening_lines replay.now) result (K.taken out.old) (K.taken out.new) }
{
    put_settle(replay.number, out)?;
    put_bidders(&replay.bidders, out)
}

/// Puts the line of the final value.
fn put_final<K: Sink>(replay: &Replay, out: &mut K) -> Result<(), SinkFault>
    ensures { IsPut (line_of (line.final replay.now.final_value)) result
        (K.taken out.old) (K.taken out.new) }
{
    let mut writer = LineWriter::new();
    out.put(write_final(replay, &mut writer))
}

/// Puts the line of the regret.
fn put_regret<K: Sink>(replay: &Replay, out: &mut K) -> Result<(), SinkFault>
    ensures { IsPut (line_of (line.regret replay.now.regret)) result
        (K.taken out.old) (K.taken out.new) }
{
    let mut writer = LineWriter::new();
    out.put(write_regret(replay, &mut writer))
}

/// Puts the final value and the regret.
fn put_amounts<K: Sink>(replay: &Replay, out: &mut K) -> Result<(), SinkFault>
    ensures { IsPut (amount_lines replay.now) result (K.taken out.old) (K.taken out.new) }
{
    put_final(replay, out)?;
    put_regret(replay, out)
}

/// Puts the line of prices, where there are any.
fn put_prices<K: Sink>(prices: &Option<Prices>, out: &mut K) -> Result<(), SinkFault>
    ensures { IsPut (price_lines prices.now) result (K.taken out.old) (K.taken out.new) }
{
    match prices {
        Some(prices) => {
            // Prices are terms that a record may have.
            let _den = prices.den();
            put_record(&Line::Prices(prices.copy()), out)
        }
        None => Ok(()),
    }
}

/// Puts the last line.
fn put_end<K: Sink>(out: &mut K) -> Result<(), SinkFault>
    ensures { IsPut last_line result (K.taken out.old) (K.taken out.new) }
{
    out.put(b"end replay\n")
}

/// Puts a settlement, each line with its newline in one put: `settle N`, for each bidder `bounds
/// NAME LO HI ..` with the two values of each node, `final V`, `regret A`, the record of the prices
/// where there are any, and `end replay`. It takes no memory.
pub fn put_replay<K: Sink>(replay: &Replay, out: &mut K) -> Result<(), SinkFault>
    ensures { IsPut (replay_lines replay.now) result (K.taken out.old) (K.taken out.new) }
{
    put_opening(replay, out)?;
    put_amounts(replay, out)?;
    put_prices(&replay.prices, out)?;
    put_end(out)
}
