//! Whether prices are within the cap, and in lowest common terms.
ghost use Rattle.std.specs.Prelude.{◌≡◌, length, IsTrue, pos, ◌*ℤ◌, ◌≤ℤ◌};
ghost use Rattle.ice_defs.specs.Prices.{ArePrices};
ghost use Rattle.ice_defs.specs.Rows.{HasCommonDivisor};

use ice_frac::common_divisor;
use ice_terms::Prices;

/// The greatest numerator that a price may have.
fn greatest_num(prices: &Prices, cap: i64) -> i128
    requires low { pos 0 ≤ℤ cap }
    requires high { cap ≤ℤ pos 1000000000 }
    ensures { result ≡ cap *ℤ pos prices.now.den }
{
    i128::from(cap) * i128::from(prices.den())
}

/// Whether no price is above the cap, which is from 0 to 1,000,000,000.
pub fn are_within(prices: &Prices, cap: i64) -> bool
    requires low { pos 0 ≤ℤ cap }
    requires high { cap ≤ℤ pos 1000000000 }
    ensures yes { IsTrue result → ArePrices (length prices.now.nums) cap prices.now }
    ensures no { ArePrices (length prices.now.nums) cap prices.now → IsTrue result }
{
    let most = greatest_num(prices, cap);
    for num in prices.nums() {
        if i128::from(*num) > most {
            return false;
        }
    }
    true
}

/// Whether the greatest common divisor of the prices' denominator and all numerators is 1.
pub fn are_lowest(prices: &Prices) -> bool
    ensures yes { IsTrue result → ¬ HasCommonDivisor prices.now }
    ensures no { ¬ HasCommonDivisor prices.now → IsTrue result }
{
    let mut shared = prices.den() as u128;
    for num in prices.nums() {
        shared = common_divisor(u128::from(num.unsigned_abs()), shared);
    }
    shared == 1
}
