//! Journals of version 1 brought to version 2: they are judged first, and then written line for
//! line.
#![tactic(auto)]

mod behind;
mod counts;
mod gathered;
mod judging;
mod laws;
mod packing;
mod place;
mod sort;

pub use ice_reading::{CheckEnd, JournalEnd, Rule};
pub use judging::judge;
pub use laws::bytes_have_one_judgement;
pub use packing::put_packed;
