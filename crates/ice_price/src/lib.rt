//! Accurate, then balanced prices of a provisional trade, with the certificates that show them to
//! be so.
#![tactic(auto)]

mod ends;
mod pricing;
mod program;
mod solution;
mod stages;
mod turn;
mod weighing;

pub use ends::{PriceEnd, PriceLimit};
pub use ice_pricing::{Certificate, CertificateRow, Pricing};
pub use ice_turns::{PoolMember, RunWork};
pub use pricing::{price, run_prices};
