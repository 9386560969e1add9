//! Journals, written record by record: each line with its newline is one put of a sink. No call
//! takes memory.
#![tactic(auto)]

mod changes;
mod exchange;
mod group;
mod record;

pub use exchange::put_section;
pub use group::put_group;
pub use record::put_record;
