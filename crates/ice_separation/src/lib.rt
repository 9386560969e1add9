//! Derived goods that the shares of nodes at a dual violate, each shown by one multiplier of one
//! good. Each one that is handed out follows; which ones are found is a heuristic, of which nothing
//! is proved.
#![tactic(auto)]

mod derivation;
mod form;
mod rounding;
mod separating;

pub use derivation::Derivation;
pub use separating::{push_shown, separate};
