//! What a session holds, between rounds and in one.

use ice_trade::Exchange;
use ice_verdicts::Judge;
use std::alloc::Global;

/// An exchange, what is known of its round, the number of the settlement that comes next or that
/// opened the round, and the branches that are left.
#[derive(Drop)]
pub(crate) struct Session {
    pub(crate) alloc: Global,
    pub(crate) exchange: Exchange,
    pub(crate) judge: Judge,
    pub(crate) number: u8,
    pub(crate) branches: u32,
}
