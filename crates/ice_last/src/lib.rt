//! The last settlement of a closed session, from the bytes of its journal, which pass every test of
//! the checker.
#![tactic(auto)]

mod closing;
mod laws;
mod payments;
mod reading;
mod watch;

pub use ice_reading::{CheckEnd, JournalEnd, Rule};
pub use laws::bytes_have_one_last;
pub use reading::last;
