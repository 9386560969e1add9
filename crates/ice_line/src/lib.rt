//! Lines of text: their bytes, their fields and their numbers, read and written. No call takes
//! memory.
#![tactic(auto)]

mod fields;
mod numbers;
mod reader;
mod writer;

pub use fields::Fields;
pub use numbers::{integer, natural, number};
pub use reader::{LineFault, LineReader, split_line};
pub use writer::LineWriter;
