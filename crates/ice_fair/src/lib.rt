//! Fair prices: accurate ones that come as near to the payments as such prices come, and the tests
//! that show it.
#![tactic(auto)]

mod answer;
mod check;
mod ends;
mod even;
mod finding;
mod gaps;
mod held;
mod last;
mod limits;
mod low;
mod passes;

pub use answer::Fair;
pub use check::check_fair;
pub use ends::FairEnd;
pub use finding::fair;
pub use ice_fair_stage::{FairCertificate, FairLimit};
pub use last::Last;
