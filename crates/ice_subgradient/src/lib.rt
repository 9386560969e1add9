//! Heuristics of a search: multipliers that make the bound of a side small, the assignments that
//! come up on the way, and trials of nodes to split a side at. What they achieve is measured and
//! not proved; what they answer is lawful.
#![tactic(auto)]

mod course;
mod descent;
mod forecasting;
mod incumbent;
mod laws;
mod level;
mod polishing;
mod trace;
mod trial;

pub use forecasting::forecast;
pub use incumbent::Incumbent;
pub use laws::offers_are_one;
pub use polishing::{Evaluated, polish, repeat};
pub use trace::Trace;
pub use trial::{Trial, most_promising};
