//! The lines of fair prices, and of where the search for them ended, put into a sink one line at a
//! time. No call takes memory.
#![tactic(auto)]

mod certificate;
mod fair;
mod holds;
mod limit;
mod lines;

pub use fair::put_fair;
pub use limit::put_fair_limit;
