//! Simulations: what bidders do in a session where each has a proxy that knows its true values.
#![tactic(auto)]

mod bids;
mod laws;
mod truths;

pub use bids::proxy_bids;
pub use laws::{proxy_round_ends, proxy_round_goes_on, round_stands, truths_hold};
pub use truths::{TruthFault, truth_fault};
