//! The best set of a tree: the greatest value of a satisfied set that meets a fixing, and the
//! greatest sale of a good. Net weights, by which it is also the greatest net at rates.
#![tactic(auto)]

mod best_set;
mod choice;
mod fill;
mod fixing;
mod nets;
mod rise;
mod sale;
mod table;

pub use best_set::best;
pub use fixing::{Fixing, Fixings};
pub use ice_defs::Mark;
pub use nets::{fill_net_weights, put_net_weight};
pub use sale::greatest_sale;
pub use table::{Scratch, Table};
