//! What a market is worth without a bidder.

use ice_refute::Log;
use ice_tree::Assignment;

/// What a market is worth without one of its bidders, at lower values, and what shows it.
pub struct Marginal {
    /// The bidder that is left out.
    pub bidder: u8,
    /// The greatest value of a feasible assignment in which the bidder has the empty set.
    pub without: i128,
    /// The bidder's Vickrey discount: what the best assignment of all is worth above that.
    pub discount: i128,
    /// A feasible assignment of that value, one set for each bidder, the empty one for the bidder
    /// that is left out.
    pub witness: Assignment,
    /// It refutes every feasible assignment without the bidder that is worth more.
    pub log: Log,
}

// By hand, so that each exit that drops one has one call to prove, and not all its parts.
impl Drop for Marginal {
    fn drop(self) {
        let Marginal {
            bidder: _,
            without: _,
            discount: _,
            witness: _,
            log: _,
        } = self;
    }
}
