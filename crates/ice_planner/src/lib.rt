//! Plans of the searches of a market with few goods, made on the exact duals of its sides or from
//! the log of another search, and multipliers near these duals. Nothing of it is proved but that it
//! stays in range and ends, and that the plan of a log splits at the log's nodes.
#![tactic(auto)]

mod decided;
mod dive;
mod from_log;
mod guide;
mod marking;
mod planner;
mod planning;
mod points;
mod tally;

pub use decided::Decided;
pub use from_log::plan_of_log;
pub use guide::{Guide, Near};
pub use planning::{Outline, Sought, is_planned, plan_search};
