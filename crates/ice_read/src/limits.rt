//! Limits of the numbers and lists in files. `ice_defs` has those that the makers of trees and
//! exchanges test too.
use ice_defs::MOST_NODES;

/// The most bids of a round.
pub(crate) const MOST_BIDS: usize = 400;

/// The most lower or upper values of a bid: one for each node.
pub(crate) const MOST_VALUES: usize = MOST_NODES as usize;

/// The most units of a leaf.
pub(crate) const MOST_UNITS: u32 = 1000;

/// The most that a bidder owns of a good.
pub(crate) const MOST_OWNED: u32 = 1_000_000;

/// The greatest weight of lower bounds in provisional values.
pub(crate) const GREATEST_WEIGHT: u32 = 100;

/// The greatest regret that closes a session.
pub(crate) const GREATEST_CLOSE_REGRET: i64 = 1_000_000_000_000;

/// The greatest price that an exchange may allow.
pub(crate) const GREATEST_CAP: i64 = 1_000_000_000;

/// The most by which a submission has to improve.
pub(crate) const GREATEST_IMPROVE: i64 = 1_000_000_000;

/// The most rounds of a session.
pub(crate) const MOST_ROUNDS: u32 = 20;

/// The most branches that all searches of a session, or of a regret, may take together.
pub(crate) const MOST_BRANCHES: u32 = 50_000;

/// The most derived goods that a session may state.
pub(crate) const MOST_DERIVED: u32 = 2000;
