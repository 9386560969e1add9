//! The best set of a tree at prices: what it is worth less what its units cost.
#![tactic(auto)]

mod nets;

pub use ice_best::Scratch;
pub use nets::{BestAtPrices, best_at_prices, net};
