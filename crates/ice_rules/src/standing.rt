//! Where a bidder stands.
use ice_terms::Prices;
use ice_tree::{Bounds, NodeSet, Tree};

/// Where a bidder stands: its tree, its bounds, its provisional set and the prices.
#[derive(Drop)]
pub struct Standing<'a> {
    /// Its tree.
    pub tree: &'a Tree,
    /// Its bounds when the round began.
    pub bounds: &'a Bounds,
    /// Its provisional set, which is satisfied.
    pub set: &'a NodeSet,
    /// The prices of the round.
    pub prices: &'a Prices,
}
