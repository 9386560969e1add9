//! The log of a search whose leaves have tolls, from its parts; and a law of such parts.
#![tactic(auto)]

pub mod laws;
mod numbers;
mod part;
mod step;
mod write;

pub use numbers::LeafNumbers;
pub use part::TolledPart;
pub use step::{TolledLog, TolledStep};
pub use write::write_tolled_log;
