//! Fractions in lowest terms over 128 bits: each operation is exact, or answers that it is too
//! wide.
#![tactic(auto)]

mod euclid;
mod fraction;
mod laws;
mod narrow;

pub use euclid::common_divisor;
pub use fraction::Frac;
pub use laws::{
    common_divisors_are_greatest, equality_laws, field_laws, lowest_is_unique, order_laws,
};
pub use narrow::Wide;
