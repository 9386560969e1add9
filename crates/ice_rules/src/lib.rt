//! The activity rules: whether new bounds of a bidder are tight enough.
#![tactic(auto)]

mod gains;
mod judging;
mod laws;
mod profiles;
mod refusal;
mod rules;
mod standing;

pub use gains::loss;
pub use ice_best::Scratch;
pub use ice_defs::Verdict;
pub use judging::judge;
pub use laws::exact_bids_are_accepted;
pub use refusal::Refusal;
pub use rules::{improvement, mrpar};
pub use standing::Standing;
