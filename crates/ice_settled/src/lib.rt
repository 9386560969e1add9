//! What a settlement gives: the one that closes a session, one that opens a round, and what is left
//! of one that was halted.
#![tactic(auto)]

mod settled;

pub use settled::{Charged, Closing, Halt, Opening};
