//! What `best` writes where nothing is refused.
ghost use Rattle.std.specs.List.{flat_map};
ghost use Rattle.ice_edge.specs.Puts.{IsPut};
ghost use Rattle.ice_commands.specs.Bests.{lines_of, best_text};

use crate::best_set::BestSet;
use ice_edge::{Sink, SinkFault};

/// Puts the lines of the best sets, two each.
fn put_sets<K: Sink>(sets: &[BestSet], out: &mut K) -> Result<(), SinkFault>
    ensures { IsPut (flat_map lines_of sets.now) result (K.taken out.old) (K.taken out.new) }
{
    for best in sets {
        best.put(out)?;
    }
    Ok(())
}

/// Puts the lines of the best sets and the last line, each in one put.
pub fn put_best<K: Sink>(sets: &[BestSet], out: &mut K) -> Result<(), SinkFault>
    ensures { IsPut (best_text sets.now) result (K.taken out.old) (K.taken out.new) }
{
    put_sets(sets, out)?;
    out.put(b"end best\n")
}
