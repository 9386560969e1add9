//! The terms of an exchange that files and journals share: names, settings and prices; and bids.
#![tactic(auto)]

mod bid;
mod name;
mod prices;
mod settings;

pub use bid::Bid;
pub use name::{Name, all_may_stand_in_name};
pub use prices::Prices;
pub use settings::Settings;
