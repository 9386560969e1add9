//! What a session that closes charges: its cut, its surplus and its payments, tested record by
//! record. It takes no memory.
#![tactic(auto)]

mod amounts;
mod charge;
mod cut;
mod due;
mod lines;
mod payment;

pub use charge::Charge;
pub use cut::take_threshold;
pub use due::Due;
pub use payment::{is_paid, take_payment};
