//! Threshold payments: one cut off all Vickrey discounts, as small as the total allows.
#![tactic(auto)]

mod cut;
mod laws;
mod payments;
mod ratio;

pub use laws::{cut_down_is_threshold, cut_is_threshold, least_passes, passing_is_least};
pub use payments::{Payments, threshold};
