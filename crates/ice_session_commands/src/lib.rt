//! The commands that hold a session: `run`, which holds one with the bids of files, `simulate`, in
//! which each bidder has a proxy, and `gen`, which tries one of a generated exchange.
#![tactic(auto)]

pub mod generated;
pub mod run;
mod session;
mod session_journal;
pub mod simulate;
mod source;
mod summary;
mod summary_line;
mod trial_journal;
mod truths;
