//! The verdicts of a round, one submission at a time.
#![tactic(auto)]

mod judge;
mod laws;
mod verdicts;

pub use ice_rules::Verdict;
pub use judge::Judge;
pub use laws::{round_begins, round_goes_on, verdict_is_next};
