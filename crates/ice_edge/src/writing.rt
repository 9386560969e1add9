//! A sink over any writer.
ghost use Rattle.std.specs.Prelude.{◌≡◌, OnOk, OnErr};
ghost use Rattle.ice_edge.specs.Edge.{Appends, AppendsFront};

use crate::{Sink, SinkFault};
use std::io::Write;

/// Writes the whole piece, in as many writes as that takes. A write that fails, or takes none of
/// what is left, ends it, and what was taken before is the front of the piece.
pub(crate) fn write_piece<W: Write>(to: &mut W, piece: &[u8]) -> Result<(), SinkFault>
    ensures ok { OnOk result (Appends (W.contents to.old) piece.now (W.contents to.new)) }
    ensures err { OnErr result (AppendsFront (W.contents to.old) piece.now (W.contents to.new)) }
{
    let mut taken = 0;
    while taken < piece.len() {
        match to.write(&piece[taken..]) {
            Ok(0) | Err(_) => return Err(SinkFault::Failed),
            Ok(count) => taken += count,
        }
    }
    Ok(())
}

/// A sink over a writer. What it has taken is what the writer holds, where that is known.
#[derive(Drop)]
pub struct WriterSink<W: Write> {
    to: W,
    faults: u64,
}

impl<W: Write> WriterSink<W> {
    /// A sink over this writer, which has not failed yet.
    pub fn over(to: W) -> Self
        ensures { result ≡ record { to = to; faults = 0 } }
    {
        WriterSink { to, faults: 0 }
    }
}

impl<W: Write> Sink for WriterSink<W> {
    ghost taken = { λ sink. record { written = W.contents sink.to; faults = sink.faults } };

    fn put(&mut self, piece: &[u8]) -> Result<(), SinkFault> {
        let written = write_piece(&mut self.to, piece);
        if written.is_err() {
            self.faults = self.faults.saturating_add(1);
        }
        written
    }
}
