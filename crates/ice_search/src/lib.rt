//! Branch and bound: the best feasible assignment with a log that refutes every greater one, or
//! what was found when the branches were spent.
#![tactic(auto)]

mod begin;
mod candidates;
mod child;
mod dive;
mod entry;
mod finish;
mod frontier;
mod hints;
mod node;
mod outline;
mod parts;
mod problem;
mod progress;
mod results;
mod run;
mod sides;
mod sweep;
mod workspace;

pub use candidates::is_feasible;
pub use entry::{Known, search, search_anew, search_from};
pub use problem::Problem;
pub use results::{Found, SearchEnd, Spent};
