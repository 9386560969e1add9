//! Trees of choose nodes and leaves, sets of their nodes, bounds and weights.
#![tactic(auto)]

mod assignment;
mod bounds;
mod faults;
mod maker;
mod rows;
mod total_units;
mod tree;
mod units;
mod weights;

pub use assignment::Assignment;
pub use bounds::Bounds;
pub use faults::{BoundsFault, SatFault, TreeFault};
pub use ice_defs::{Node, NodeKind, SatRule};
pub use ice_set::NodeSet;
pub use maker::TreeMaker;
pub use total_units::{TotalUnits, is_covered};
pub use tree::Tree;
pub use units::Units;
pub use weights::{AllWeights, Weights};
