//! Laws of flat bids, which hold of every bidder.
ghost use Rattle.ice_xor.specs.FlatBids.{FlatBidder, KeepsWorth};
ghost use Rattle.std.specs.Prelude.{Bool, List};

/// Whatever its packages: any trade is worth to a bidder by the tree that is made of them what it
/// is worth by the packages.
pub fn worth_is_kept()
    ensures { (exact : List Bool) (b : FlatBidder) → KeepsWorth exact b }
{}
