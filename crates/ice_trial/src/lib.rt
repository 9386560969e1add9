//! Trials: sessions in which each bidder states its true values in the first round, so that they
//! close behind it; and the laws that they rest on.
#![tactic(auto)]

mod bids;
mod generated;
mod laws;
mod round;
mod summary;
mod trial;

pub use generated::try_generated;
pub use laws::{exact_bounds_have_no_regret, truths_are_accepted};
pub use summary::Summary;
pub use trial::{TrialEnd, TruthRound, try_truths};
