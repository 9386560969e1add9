//! A part of a search whose leaves have tolls.

use crate::numbers::LeafNumbers;
use ice_defs::Mark;
use ice_search_log::Split;

/// A side of a search: the part above it with the mark that it puts, the numbers of its leaf and
/// the bound at them, and where it is split.
#[derive(Drop)]
pub struct TolledPart {
    /// The number of the part that was split into this one and its sibling; the first part's is 0.
    pub above: u32,
    /// The bidder whose node it was split at.
    pub bidder: u8,
    /// The node's number in that bidder's tree.
    pub node: u16,
    /// The mark that this part puts on the node.
    pub mark: Mark,
    /// The numbers of its leaf.
    pub m: LeafNumbers,
    /// The bound of the part at these numbers, the least that was found.
    pub key: i128,
    /// Whether the bound that a sweep of zeros gives was looked at, and is no less.
    pub swept: bool,
    /// Where it is split itself, if it is.
    pub split: Option<Split>,
}
