//! The exact Lagrangean dual of a side, for markets of few goods, by column generation: mixes of
//! sets of the bidders, and multipliers that show no mix to be worth more. Each bidder has a key
//! column, the set whose share is what its other sets in the mix leave of one; so a basis has a
//! matrix of goods by goods alone. It guides a search and decides nothing: what it says is measured
//! and not proved.
#![tactic(auto)]

mod basis;
mod candidates;
mod charged;
mod column;
mod entering;
mod form;
mod inverse;
mod leaving;
mod market;
mod master;
mod mix;
mod nodes;
mod outcome;
mod pool;
mod pricing;
mod scale;
mod solving;
mod tableau;

pub use basis::{Basic, Basis};
pub use candidates::{Candidates, Shared};
pub use column::Column;
pub use form::Worths;
pub use leaving::{Leaving, Limit};
pub use market::Market;
pub use master::Master;
pub use mix::{NEARLY, Shares, add_share};
pub use nodes::Nodes;
pub use pool::Pool;
pub use scale::{LACK, LEAST_PIVOT, NO_GAIN, ONE, Scale, clamped, product, rounded};
pub use solving::{Aim, Dual};
