//! Refutation logs: lists of branches and multipliers that prove that no feasible assignment is
//! worth more than a target.
#![tactic(auto)]

mod check;
mod fault;
mod judge;
mod laws;
mod sides;
mod step;
mod walk;

pub use check::check_log;
pub use fault::{LogFault, StepFault};
pub use laws::{
    lawful_lists_grow, limits_are_kept, logs_are_short, logs_by_refute, logs_close, logs_refute,
    logs_stay, plain_logs_pass,
};
pub use step::{Log, Step};
pub use walk::Walk;
