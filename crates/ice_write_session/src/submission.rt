//! A submission of a round, with its verdict.
ghost use Rattle.std.specs.Prelude.{◌≡◌, ◌∷◌, []};
ghost use Rattle.ice_terms.specs.Bids.{AreValues};
ghost use Rattle.ice_edge.specs.Puts.{IsPut};
ghost use Rattle.ice_journal.specs.Records as line;
ghost use Rattle.ice_journal.specs.Ranges.{IsRecord, IsVerdictRecord};
ghost use Rattle.ice_journal.specs.Journal.{bytes_of};
ghost use Rattle.ice_journal_laws.specs.Written.{judged_records};

use crate::record::put_line;
use arrayvec::ArrayVec;
use ice_defs::Verdict;
use ice_edge::{Sink, SinkFault};
use ice_journal::Line;
use ice_terms::Bid;

/// The same values in 32 bits.
fn narrowed(values: &[i64]) -> ArrayVec<i32, 200>
    requires { AreValues values.now }
    ensures { result.items ≡ values.now }
{
    let mut narrow = ArrayVec::new();
    for value in values {
        narrow.push(*value as i32);
    }
    narrow
}

/// Puts a bid.
fn put_bid<K: Sink>(bid: &Bid, out: &mut K) -> Result<(), SinkFault>
    ensures put { IsPut (bytes_of (line.submit bid.now ∷ [])) result
        (K.taken out.old) (K.taken out.new) }
    ensures record { IsRecord (line.submit bid.now) }
{
    let line = Line::Submit {
        name: bid.bidder().copy(),
        lo: narrowed(bid.lo()),
        hi: narrowed(bid.hi()),
    };
    put_line(&line, out)
}

/// Puts a bid, and the verdict on it, whose node is below 200. It takes no memory.
pub fn put_judged<K: Sink>(bid: &Bid, verdict: Verdict, out: &mut K) -> Result<(), SinkFault>
    requires { IsVerdictRecord verdict }
    ensures put { IsPut (bytes_of (judged_records (record {
      submission = bid.now;
      verdict = verdict;
    }))) result (K.taken out.old) (K.taken out.new) }
    ensures submission { IsRecord (line.submit bid.now) }
{
    put_bid(bid, out)?;
    put_line(&Line::Verdict(verdict), out)
}
