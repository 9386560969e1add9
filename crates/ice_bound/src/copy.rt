//! Copies of fixings, into room that is there.
ghost use Rattle.std.specs.Prelude.{◌≡◌, ℕ, ◌<◌, ◌≤◌, length, slice_set};
ghost use Rattle.ice_defs.specs.Trade.{fixing_of};

use ice_best::{Fixing, Fixings};

/// Makes the bidder's fixing the same as another of as many nodes.
fn copy_fixing(marks: &mut Fixings, bidder: u8, from: &Fixing)
    requires bidder { bidder < length marks.old }
    requires nodes { length from.now ≡ length (fixing_of marks.old bidder) }
    ensures { marks.new ≡ slice_set marks.old bidder from.now }
{
    for node in 0..from.len() {
        marks.mark(bidder, node, from.get(node));
    }
}

/// Makes the fixings the same as others of as many nodes, for at most 40 bidders.
pub fn copy_fixings(marks: &mut Fixings, from: &Fixings)
    requires few { length from.now ≤ 40 }
    requires bidders { length from.now ≡ length marks.old }
    requires nodes { (b : ℕ) → b < length from.now → length (fixing_of from.now b) ≡ length
        (fixing_of marks.old b) }
    ensures { marks.new ≡ from.now }
{
    for bidder in 0..from.len() as u8 {
        copy_fixing(marks, bidder, from.of(bidder));
    }
}
