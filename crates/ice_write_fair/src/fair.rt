//! Fair prices, put into a sink line by line.
ghost use Rattle.ice_edge.specs.Puts.{IsPut};
ghost use Rattle.ice_write_fair.specs.Lines.{last_line, fair_lines};
ghost use Rattle.ice_write_fair.specs.Writable.{IsWritableFair};

use crate::certificate::{put_certificate, put_distance};
use ice_edge::{Sink, SinkFault};
use ice_fair::Fair;
use ice_write_session::put_accuracy;

/// Puts the last line.
fn put_end<K: Sink>(out: &mut K) -> Result<(), SinkFault>
    ensures { IsPut last_line result (K.taken out.old) (K.taken out.new) }
{
    out.put(b"end fair\n")
}

/// Puts fair prices, each line with its newline in one put: the records of the prices, of their
/// violation and of the certificate of it, `distance N/D` in lowest terms, `fairness D`, for each
/// bidder of whom one number isn't 0 `hold B LOW HIGH`, the `row` records, and `end fair`. The
/// numbers of all records are in their ranges. It takes no memory.
pub fn put_fair<K: Sink>(fair: &Fair, out: &mut K) -> Result<(), SinkFault>
    requires { IsWritableFair fair.now }
    ensures { IsPut (fair_lines fair.now) result (K.taken out.old) (K.taken out.new) }
{
    put_accuracy(&fair.prices, &fair.delta, &fair.accuracy, out)?;
    put_distance(&fair.distance, out)?;
    put_certificate(&fair.certificate, out)?;
    put_end(out)
}
