//! What a journal shows that stops at a search that spent its branches, from its bytes.
#![tactic(auto)]

mod reading;
mod tests;

pub use ice_check_records::{CheckEnd, GapAnswer, Rule};
pub use reading::gap;
