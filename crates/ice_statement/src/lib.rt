//! Private statements: what a closed session's journal says to one of its bidders.
#![tactic(auto)]

mod gathering;
mod judging;
mod laws;
mod lines;
mod putting;

pub use ice_reading::{CheckEnd, JournalEnd, Rule};
pub use judging::{StatementEnd, judge};
pub use laws::bytes_have_one_statement;
pub use putting::put_statement;
