//! One record.
ghost use Rattle.ice_edge.specs.Puts.{IsPut};
ghost use Rattle.ice_journal.specs.Ranges.{IsRecord};
ghost use Rattle.ice_journal.specs.Spelling.{line_of};
ghost use Rattle.ice_journal.specs.Lines.{record_of};

use ice_edge::{Sink, SinkFault};
use ice_journal::{Line, write_record};
use ice_line::LineWriter;

/// Puts the line of a record, whose numbers are in their ranges. It takes no memory.
pub fn put_record<K: Sink>(line: &Line, out: &mut K) -> Result<(), SinkFault>
    requires { IsRecord (record_of line.now) }
    ensures { IsPut (line_of (record_of line.now)) result (K.taken out.old) (K.taken out.new) }
{
    let mut writer = LineWriter::new();
    write_record(line, &mut writer);
    out.put(writer.end())
}
