//! How a settlement ends.

use crate::in_round::InRound;
use ice_price::PriceLimit;
use ice_search::Spent;
use ice_settled::{Closing, Halt, Opening};

/// How a settlement ends.
#[derive(Drop)]
pub enum Settled {
    /// The close test holds: the final sets are traded.
    Closed(Closing),
    /// The close test fails: a round begins.
    Going(InRound, Opening),
    /// A search spent the branches: the first one, in the order of a settlement, whose result the
    /// halt lacks. With the halt's logs, its log has as many branch steps as branches were left.
    Spent(Halt, Spent),
    /// The pricing run ended at a limit.
    Limit(Halt, PriceLimit),
    /// No memory was left. It says nothing of the session.
    NoMemory,
}
