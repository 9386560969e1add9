//! What the payment of a bidder is tested against.
use ice_terms::Name;

/// What is due of a bidder of a closing session: its name, the total, which is the value of the
/// final sets, the value without the bidder, and the lower value of its own final set.
#[derive(Drop)]
pub struct Due<'a> {
    /// The bidder's name.
    pub name: &'a Name,
    /// The value of the final sets.
    pub total: i64,
    /// The value of the best sets in which it has nothing.
    pub without: i64,
    /// The lower value of its own final set.
    pub worth: i128,
}
