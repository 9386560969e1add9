//! Sessions: settlements and rounds in turn, from the opening bounds to the close.
#![tactic(auto)]

mod in_round;
mod keeping;
mod offer;
mod payments;
mod ready;
mod session;
mod settle;
mod settled;
mod settling;

pub use in_round::InRound;
pub use offer::Offer;
pub use ready::Ready;
pub use settled::Settled;
pub use settling::Settling;
