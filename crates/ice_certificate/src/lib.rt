//! The tests of certificates of prices: whether prices are accurate, and balanced, as weighted sets
//! show.
#![tactic(auto)]

mod certified;
mod gains;
mod sums;

pub use gains::{Excess, Scratch, best_excess};
pub use sums::{RowSums, units_above, worth_above};
