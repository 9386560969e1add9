//! The records of a session's settlements and submissions, put into a sink one line at a time, in
//! version 2. No call takes memory.
#![tactic(auto)]

mod fraction;
mod group;
mod halt;
mod opening;
mod payment;
mod pricing;
mod record;
mod regret;
mod submission;
mod without;

pub use group::{put_final, put_provisional, put_rival, put_spent};
pub use halt::{put_halt, put_limit, put_pool};
pub use opening::put_opening;
pub use payment::put_charged;
pub use pricing::{put_accuracy, put_pricing, put_rows};
pub use record::{put_end, put_line};
pub use regret::{put_regret, put_settlement};
pub use submission::put_judged;
pub use without::put_without;
