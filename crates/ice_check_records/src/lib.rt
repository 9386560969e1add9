//! The checker of journals: it takes one record at a time, and answers yes or names the first
//! failed test.
#![tactic(auto)]

mod checker;
mod closed;
mod closing;
mod describing;
mod due;
mod end;
mod gap;
mod gap_checker;
mod group;
mod groups;
mod halt;
mod head;
mod lines;
mod log;
mod next;
mod opening;
mod regret;
mod stage;
mod stated;
mod steps_in;

pub use checker::Checker;
pub use closed::ClosedSession;
pub use due::DueRegret;
pub use gap_checker::GapChecker;
pub use ice_gap_laws::GapAnswer;
pub use ice_journal_laws::{Answer, CheckEnd, Rule};
pub use lines::amount_in;
