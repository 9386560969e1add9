//! Exchanges: their makers and readers, and which assignments are feasible.
#![tactic(auto)]

mod bidders;
mod exchange;
mod faults;
mod feasible;
mod goods;
mod maker;
mod names;
mod owned;
mod sale;

pub use exchange::Exchange;
pub use faults::{MakeFault, TradeFault};
pub use ice_terms::{Name, Prices, Settings};
pub use maker::ExchangeMaker;
