//! What is offered where a settlement goes on.

use ice_search::Found;

/// The provisional sets of a settlement that goes on.
#[derive(Drop)]
pub struct Offer {
    /// The best assignment at weighted values.
    pub provisional: Found,
    /// The branches that its search left.
    pub left: u32,
}
