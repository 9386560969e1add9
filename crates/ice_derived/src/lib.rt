//! Derived goods: what assignments take of them is bounded, though no tree names them. A list of
//! them with tolls, the bound with these, leaves with tolls in a walk, and derived goods that one
//! leaf shows.
#![tactic(auto)]

mod amounts;
mod bounds;
mod goods;
mod leaf;
mod nets;
mod packed;
mod rates;
mod walk;

pub use amounts::Amounts;
pub use bounds::{TollRoom, Weighing, bound_with};
pub use goods::DerivedGoods;
pub use rates::Rates;
pub use walk::take_leaf;
