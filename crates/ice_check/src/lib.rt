//! The checker of journals whose bytes come in pieces, cut anywhere. It keeps how far the tests
//! have come and the line that has begun, and no other bytes.
#![tactic(auto)]

mod begun;
mod checker;
mod laws;
mod lines;
mod whole;

pub use checker::Checker;
pub use ice_check_records::{Answer, CheckEnd, Rule};
pub use laws::{order_of_rounds_keeps_yes, records_are_short};
pub use whole::check;
