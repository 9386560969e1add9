//! Linear programs, solved in exact fractions by one stated path of pivots.
#![tactic(auto)]

mod choosing;
mod dictionary;
mod ends;
mod first;
mod program;
mod reading;
mod spot;
mod trace;

pub use ends::LpEnd;
pub use program::Program;
pub use reading::LpAnswer;
pub use trace::solve;
