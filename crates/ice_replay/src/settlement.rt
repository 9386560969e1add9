//! What is said of one settlement of a session.
use ice_reading::JournalEnd;
use ice_terms::{Name, Prices};
use ice_tree::Bounds;

/// A bidder's name, and its bounds in a settlement.
#[derive(Drop)]
pub struct BidderBounds {
    /// The bidder's name.
    pub name: Name,
    /// Its bounds.
    pub bounds: Bounds,
}

/// A settlement of a session.
#[derive(Drop)]
pub struct Replay {
    /// Its number, from 0.
    pub number: u8,
    /// The bidders in the order of the exchange, each with its bounds.
    pub bidders: Vec<BidderBounds>,
    /// The value of its final sets, at lower values.
    pub final_value: i64,
    /// Its regret.
    pub regret: i64,
    /// Its prices, where the session states them.
    pub prices: Option<Prices>,
}

/// Why there is no replay.
#[derive(Clone, Copy, PartialEq, Eq, Debug)]
pub enum ReplayEnd {
    /// The journal is of no session, or fails a test first that isn't that of a stop.
    Journal(JournalEnd),
    /// The session states no regret of this settlement.
    NoSettlement,
}
