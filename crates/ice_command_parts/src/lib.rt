//! What all commands share: how files are fetched and read, how one is refused, and how what is put
//! decides the status.
#![tactic(auto)]

mod files;
mod refusal;
mod say;

pub use files::{FILE_LIMIT, fetch, place_refusal, read_exchange, read_prices, read_round};
pub use refusal::{FileFault, Refusal};
pub use say::ended;
