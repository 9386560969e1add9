//! Exchange and round files in JSON.
#![tactic(auto)]

mod bidders;
mod cause;
mod choose;
mod exchange;
mod fault;
mod file;
mod goods;
mod laws;
mod leaf;
mod limits;
mod own;
pub mod parts;
mod place;
mod round;
mod settings;
mod tree;
mod values;
mod write;

pub use cause::ReadCause;
pub use exchange::read_exchange;
pub use fault::ReadFault;
pub use laws::{line_form_is_no_json, written_is_read};
pub use place::Place;
pub use round::read_round;
pub use write::write_exchange;
