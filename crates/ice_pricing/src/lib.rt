//! Prices of a provisional trade: by how much they are off, and whether certificates show them
//! accurate and balanced.
#![tactic(auto)]

mod certificate;
mod check;
mod lawful;
mod limits;
mod provisional;
mod rows;
mod tally;
mod weights;

pub use certificate::{Certificate, CertificateRow, GREATEST_WEIGHT, Pricing};
pub use check::check_pricing;
pub use ice_certificate::{Excess, Scratch};
pub use lawful::are_lawful;
pub use limits::{are_lowest, are_within};
pub use provisional::Provisional;
pub use tally::Tally;
pub use weights::weighted_values;
