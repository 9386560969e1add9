//! What a settlement that goes on offers: its prices with their certificates, and the round at
//! them, tested record by record.
#![tactic(auto)]

mod broken;
mod fault;
mod lines;
mod offer;
mod place;
mod pricing;
mod rounds;
mod rows;
mod settlement;

pub use broken::broken_rule;
pub use fault::Fault;
pub use lines::bid_of;
pub use offer::Offer;
pub use place::{CertificateList, Place, Went};
pub use pricing::{are_lawful_in, count_goods};
