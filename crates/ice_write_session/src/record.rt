//! One record, as a list of one.
ghost use Rattle.std.specs.Prelude.{◌≤◌, ◌∷◌, []};
ghost use Rattle.ice_edge.specs.Puts.{IsPut};
ghost use Rattle.ice_journal.specs.Records as line;
ghost use Rattle.ice_journal.specs.Ranges.{IsRecord};
ghost use Rattle.ice_journal.specs.Journal.{bytes_of};
ghost use Rattle.ice_journal.specs.Lines.{record_of, end_of};

use ice_edge::{Sink, SinkFault};
use ice_journal::{EndWord, Line};
use ice_write::put_record;

/// Puts the line of a record, whose numbers are in their ranges. It takes no memory.
pub fn put_line<K: Sink>(line: &Line, out: &mut K) -> Result<(), SinkFault>
    requires { IsRecord (record_of line.now) }
    ensures { IsPut (bytes_of (record_of line.now ∷ [])) result
        (K.taken out.old) (K.taken out.new) }
{
    put_record(line, out)
}

/// Puts the number of a settlement, at most 20.
pub(crate) fn put_settle<K: Sink>(number: u8, out: &mut K) -> Result<(), SinkFault>
    requires { number ≤ 20 }
    ensures { IsPut (bytes_of (line.settle number ∷ [])) result
        (K.taken out.old) (K.taken out.new) }
{
    put_line(&Line::Settle { number }, out)
}

/// Puts the `end` record with this word. It takes no memory.
pub fn put_end<K: Sink>(word: EndWord, out: &mut K) -> Result<(), SinkFault>
    ensures { IsPut (bytes_of (line.end (end_of word) ∷ [])) result
        (K.taken out.old) (K.taken out.new) }
{
    put_line(&Line::End(word), out)
}
