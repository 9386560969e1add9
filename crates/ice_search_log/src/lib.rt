//! The log of a search, from its parts; and laws of a branch and bound search.
#![tactic(auto)]

pub mod laws;
mod part;
mod write;

pub use part::{Part, Split};
pub use write::write_log;
