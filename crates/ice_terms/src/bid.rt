//! The bid of one bidder in a round.
ghost use Rattle.std.specs.Prelude.{◌≡◌};
ghost use Rattle.ice_terms.specs.Bids.{AreValues, IsBid};

use crate::name::Name;
use arrayvec::ArrayVec;
use std::marker::Model;

/// A bid of a round: the name of a bidder, and at most 200 lower and 200 upper values, each at most
/// 1,000,000,000 in size. Whether the name is a bidder's, and whether the values count the nodes of
/// its tree, is judged later.
#[derive(Drop)]
pub struct Bid {
    bidder: Name,
    lo: ArrayVec<i64, 200>,
    hi: ArrayVec<i64, 200>,
}

impl Model for Bid {
    ghost use Rattle.ice_defs.specs.Round.{Submission};
    ghost use Rattle.ice_terms.specs.Bids.{IsBid};

    ghost Value = { Submission };

    ghost view = { λ b. record { name = b.bidder; lo = b.lo.items; hi = b.hi.items } };

    ghost invariant = { λ b. IsBid (record { name = b.bidder; lo = b.lo.items; hi = b.hi.items }) };
}

impl Bid {
    /// The bid of this bidder with these values. It takes no memory.
    pub fn new(bidder: Name, lo: ArrayVec<i64, 200>, hi: ArrayVec<i64, 200>) -> Bid
        requires lo { AreValues lo.items }
        requires hi { AreValues hi.items }
        ensures { result ≡ record { name = bidder; lo = lo.items; hi = hi.items } }
    {
        Bid { bidder, lo, hi }
    }

    /// The name of the bidder.
    pub fn bidder(&self) -> &Name
        ensures name { result.now ≡ self.now.name }
        ensures lawful { IsBid self.now }
    {
        &self.bidder
    }

    /// The lower values.
    pub fn lo(&self) -> &[i64]
        ensures values { result.now ≡ self.now.lo }
        ensures lawful { IsBid self.now }
    {
        self.lo.as_slice()
    }

    /// The upper values.
    pub fn hi(&self) -> &[i64]
        ensures values { result.now ≡ self.now.hi }
        ensures lawful { IsBid self.now }
    {
        self.hi.as_slice()
    }
}
