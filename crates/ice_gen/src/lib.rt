//! Generated exchanges: one for each number of 32 bits, with the true values of its bidders.
#![tactic(auto)]

mod buyer;
mod exchange;
mod growing;
mod random;
mod seller;
mod valued;

pub use exchange::{Generated, generate};
