//! The lines of the bidders' numbers.
ghost use Rattle.std.specs.Prelude.{◌≡◌, ◌≤◌, length};
ghost use Rattle.ice_edge.specs.Puts.{IsPut};
ghost use Rattle.ice_write_fair.specs.Lines.{hold_line, hold_text, hold_lines};

use crate::lines::write_hold;
use ice_edge::{Sink, SinkFault};
use ice_line::LineWriter;

/// Puts the line of a bidder's two numbers.
fn put_line<K: Sink>(bidder: u8, low: u64, high: u64, out: &mut K) -> Result<(), SinkFault>
    ensures { IsPut (hold_line bidder low high) result (K.taken out.old) (K.taken out.new) }
{
    let mut writer = LineWriter::new();
    out.put(write_hold(bidder, low, high, &mut writer))
}

/// Puts it where one of the numbers isn't 0.
fn put_hold<K: Sink>(bidder: u8, low: u64, high: u64, out: &mut K) -> Result<(), SinkFault>
    ensures { IsPut (hold_text bidder low high) result (K.taken out.old) (K.taken out.new) }
{
    if low == 0 && high == 0 {
        return Ok(());
    }
    put_line(bidder, low, high, out)
}

/// Puts the numbers of at most 40 bidders, a line for each bidder of whom one isn't 0.
pub(crate) fn put_holds<K: Sink>(low: &[u64], high: &[u64], out: &mut K) -> Result<(), SinkFault>
    requires few { length low.now ≤ 40 }
    requires count { length high.now ≡ length low.now }
    ensures { IsPut (hold_lines 0 low.now high.now) result (K.taken out.old) (K.taken out.new) }
{
    for bidder in 0..low.len() as u8 {
        put_hold(bidder, low[bidder as usize], high[bidder as usize], out)?;
    }
    Ok(())
}
