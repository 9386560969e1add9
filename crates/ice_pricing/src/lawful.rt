//! Whether prices are within the cap and in lowest terms.
ghost use Rattle.std.specs.Prelude.{◌≡◌, IsTrue, false, pos, ◌≤ℤ◌};
ghost use Rattle.ice_pricing.specs.Lawful.{AreUnlawful};

use crate::limits::{are_lowest, are_within};
use ice_terms::Prices;

/// Whether no price is above the cap, which is from 0 to 1,000,000,000, and the denominator and all
/// numerators have no common divisor above 1.
pub fn are_lawful(prices: &Prices, cap: i64) -> bool
    requires low { pos 0 ≤ℤ cap }
    requires high { cap ≤ℤ pos 1000000000 }
    ensures yes { IsTrue result → ¬ AreUnlawful cap prices.now }
    ensures no { result ≡ false → AreUnlawful cap prices.now }
{
    let _nums = prices.nums();
    if are_within(prices, cap) {
        are_lowest(prices)
    } else {
        false
    }
}
