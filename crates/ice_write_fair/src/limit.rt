//! Where the fairness stage ended, put into a sink line by line.
ghost use Rattle.ice_edge.specs.Puts.{IsPut};
ghost use Rattle.ice_write_fair.specs.Lines.{limit_line, fair_limit_lines};
ghost use Rattle.ice_write_fair.specs.Writable.{IsWritableFairLimit};

use crate::lines::write_limit;
use ice_edge::{Sink, SinkFault};
use ice_fair::FairLimit;
use ice_journal::EndWord;
use ice_line::LineWriter;
use ice_write_session::{put_end, put_pool};

/// Puts the limit with the violation and its denominator.
fn put_stage<K: Sink>(limit: &FairLimit, out: &mut K) -> Result<(), SinkFault>
    ensures { IsPut (limit_line limit.now) result (K.taken out.old) (K.taken out.new) }
{
    let mut writer = LineWriter::new();
    out.put(write_limit(limit, &mut writer))
}

/// Puts the limit at which the fairness stage ended, each line with its newline in one put:
/// `limit fairness KIND X D`, the `pool` records and `end limit`. The numbers of the pool are in
/// the ranges of their records. It takes no memory.
pub fn put_fair_limit<K: Sink>(limit: &FairLimit, out: &mut K) -> Result<(), SinkFault>
    requires { IsWritableFairLimit limit.now }
    ensures { IsPut (fair_limit_lines limit.now) result (K.taken out.old) (K.taken out.new) }
{
    put_stage(limit, out)?;
    put_pool(&limit.pool, out)?;
    put_end(EndWord::Limit, out)
}
