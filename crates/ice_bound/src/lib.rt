//! The multiplier bound: a number that no feasible assignment is worth more than.
#![tactic(auto)]

mod answer;
mod beside;
mod bounds;
mod copy;
mod desk;
mod direction;
mod exact;
mod found;
mod kept;
mod laws;
mod leaves;
mod marked;
mod multipliers;
mod net;
mod net_table;
mod room;

pub use answer::{Bound, NetSum};
pub use bounds::{bound, bound_here, floor_64th};
pub use copy::copy_fixings;
pub use desk::Desk;
pub use direction::Direction;
pub use kept::Kept;
pub use laws::{
    bounds_are_sound, bounds_by_are_sound, bounds_stay, charged_weights_give_nets,
    dead_sides_have_none, plain_bounds_are_bounds,
};
pub use multipliers::Multipliers;
pub use room::Room;
