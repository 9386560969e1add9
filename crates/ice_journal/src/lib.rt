//! The records of journals and of files in line form, each with one spelling, read and written.
#![tactic(auto)]

mod fractions;
mod items;
mod laws;
mod limits;
mod line;
mod lines;
mod lists;
mod numbered;
mod record;
mod records;
mod rows;
mod words;
mod write;
mod write_derived;
mod write_exchange;
mod write_fields;
mod write_log;
mod write_session;

pub use items::node_bits;
pub use laws::{bytes_tell_journals, packed_journals_come_back, texts_tell_records};
pub use line::{Change, EndWord, Kind, Line, LowestFraction, Numbered, Room, Version};
pub use lines::{BadLine, next_record};
pub use record::read_record;
pub use write::write_record;
