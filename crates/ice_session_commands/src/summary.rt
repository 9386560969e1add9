//! The summary of a generated session.
ghost use Rattle.std.specs.Prelude.{◌≡◌};
ghost use Rattle.std.specs.List.{flat_map};
ghost use Rattle.ice_edge.specs.Puts.{IsPut};
ghost use Rattle.ice_session_commands.specs.GenLines.{summary_line, lines_of_summary};
ghost use Rattle.ice_session_commands.specs.GenServed.{summary_text};

use crate::summary_line::SummaryLine;
use ice_edge::{Sink, SinkFault};
use ice_trial::Summary;

/// The ten lines.
fn summary_lines(number: u32, summary: &Summary) -> [SummaryLine; 10]
    ensures { result ≡ lines_of_summary number summary.now }
{
    [
        SummaryLine::Generated(number),
        SummaryLine::Goods,
        SummaryLine::Bidders,
        SummaryLine::Nodes,
        SummaryLine::Opened(summary.opened, summary.opened_regret),
        SummaryLine::Settled(summary.settled),
        SummaryLine::Total(summary.total),
        SummaryLine::Regret(summary.regret),
        SummaryLine::Surplus(summary.surplus),
        SummaryLine::End,
    ]
}

/// Puts lines, each in one put.
fn put_lines<K: Sink>(lines: &[SummaryLine], out: &mut K) -> Result<(), SinkFault>
    ensures { IsPut (flat_map summary_line lines.now) result (K.taken out.old) (K.taken out.new) }
{
    for line in lines {
        line.put(out)?;
    }
    Ok(())
}

/// Puts the summary of the session of the exchange that was generated from this number.
pub fn put_summary<K: Sink>(number: u32, summary: &Summary, out: &mut K) -> Result<(), SinkFault>
    ensures { IsPut (summary_text number summary.now) result (K.taken out.old) (K.taken out.new) }
{
    put_lines(&summary_lines(number, summary), out)
}
