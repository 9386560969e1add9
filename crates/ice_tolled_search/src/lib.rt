//! A search whose log closes its leaves by derived goods: from an assignment that is known, it
//! shows that none is worth more, finds one that is and shows that of it, or gives up.
#![tactic(auto)]

mod entry;
mod guide;
mod look;
mod pass;
mod stated;
mod steps;
mod sweep;

pub use entry::{TolledFound, search_with_tolls};
pub use stated::Stated;
