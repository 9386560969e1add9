//! One way to read a journal to its end: who takes its records one after another, and why nothing
//! is said of one.
#![tactic(auto)]

mod end;
mod reader;
mod reading;
mod records;

pub use end::JournalEnd;
pub use ice_journal_laws::{CheckEnd, Rule};
pub use reader::Reader;
pub use reading::read_journal;
pub use records::Records;
