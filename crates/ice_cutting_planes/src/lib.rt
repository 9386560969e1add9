//! Prices by cutting planes: linear programs in whole numbers, to which the rows of sets that
//! bidders would rather have are added as they are found.
//!
//! Nothing is promised of what it finds, but that it is found, or given up, in bounded time:
//! whoever asks tests the prices and their certificates.
#![tactic(auto)]

mod asked;
mod certified;
mod cut;
mod dictionary;
mod equation;
mod gaps;
mod nearest;
mod nets;
mod numbers;
mod pivots;
mod prices;
mod rounding;
mod stage;
mod violation;
mod work;

pub use nearest::{Nearest, nearest_prices};
pub use prices::cut_prices;
pub use work::{GivenUp, Work};
