//! The regret of an assignment: how far it may be from the best, whatever the true values inside
//! the bounds are.
#![tactic(auto)]

mod lead;
mod lower;
mod rival;
mod ties;

pub use lead::Regret;
pub use lower::best_at_lower_values;
pub use rival::regret;
pub use ties::regret_among_ties;
