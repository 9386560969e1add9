//! Replays of single settlements: what a session journal says of one, where the journal passes the
//! tests of the checker, and the lines that say it.
#![tactic(auto)]

mod bidders;
mod ending;
mod laws;
mod lines;
mod putting;
mod reading;
mod records;
mod settlement;
mod tests;
mod watch;

pub use ice_reading::{CheckEnd, JournalEnd, Rule};
pub use laws::bytes_have_one_replay;
pub use putting::put_replay;
pub use reading::replay;
pub use settlement::{BidderBounds, Replay, ReplayEnd};
