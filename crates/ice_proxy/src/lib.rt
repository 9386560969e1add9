//! Proxy bidders: they know true values, and tighten by halves until the bid is accepted.
#![tactic(auto)]

mod bidding;
mod laws;
mod proposal;

pub use bidding::{ProxyBid, proxy};
pub use laws::{
    first_proposal_is_old, large_improve_asks_nothing, late_proposal_is_truth, later_is_accepted,
    later_is_tighter, proposal_is_around, proxies_hold, proxies_reach_regret, proxy_attempt_is_one,
    proxy_attempt_is_there, tighter_is_accepted, widths_are_halved,
};
pub use proposal::propose;
