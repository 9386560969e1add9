//! Plans of a search: finished trees of splits, made on a relaxation alone, of which nothing is
//! proved but their form, and how many splits they have at most. A search that follows one spends
//! no branch on finding it.
#![tactic(auto)]

mod below;
mod counting;
mod idle;
mod making;
mod node_set;
mod parts;
mod plan;
mod prune;
mod pulling;
mod rebuilding;
mod sides;
mod walk;

pub use idle::drop_idle;
pub use making::make;
pub use plan::{Plan, Side, Split};
pub use pulling::pull;
pub use rebuilding::rebuild;
pub use sides::{Bounds, Marks, Seen, Sides, Tries};
