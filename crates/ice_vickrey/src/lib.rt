//! Marginal economies: what a market is worth without each of its bidders, and the Vickrey
//! discounts that follow.
#![tactic(auto)]

mod economy;
mod entry;
mod hints;
mod marginal;

pub use entry::without_bidder;
pub use marginal::Marginal;
