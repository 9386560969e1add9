//! Flat bids: packages with prices, of which a bidder takes one, or any; and the trees that say the
//! same.
#![tactic(auto)]

mod bidders;
mod building;
mod faults;
mod flat;
mod laws;
mod names;
mod packages;
mod read;
mod translation;
mod units;

pub use bidders::FlatBidder;
pub use faults::{MakerFault, TranslateFault};
pub use flat::FlatExchange;
pub use laws::worth_is_kept;
pub use packages::Package;
pub use read::read_flat;
pub use translation::translate;
pub use units::GoodUnits;
