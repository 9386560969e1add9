//! The section of a journal or file that describes its exchange, and exchange and prices files in
//! line form.
#![tactic(auto)]

mod draft;
mod exchange_file;
mod faults;
pub mod laws;
mod prices_file;
mod section;

pub use exchange_file::read_exchange_lines;
pub use faults::{LineCause, LineFileFault, SectionFault};
pub use prices_file::read_prices_lines;
pub use section::Section;
