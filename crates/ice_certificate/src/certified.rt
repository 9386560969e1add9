//! Whether the sums of a certificate's rows pass its test.
ghost use Rattle.std.specs.Prelude.{◌≡◌, ◌≤◌, ◌<◌, ◌^◌, ◌↔◌, IsTrue, unsigned_abs, pos, neg_ℤ, ◌≤ℤ◌, ◌*ℤ◌, ◌-ℤ◌};
ghost use Rattle.std.specs.Int.{int_max};
ghost use Rattle.ice_defs.specs.Pricing.{top_of};
ghost use Rattle.ice_row_laws.specs.Sums.{SumsPassAccuracy, SumsPassBalance, wanted_in};

use crate::sums::RowSums;
use ice_frac::Frac;
use ice_terms::Prices;
use std::cmp::Ordering;

/// Whether two fractions are equal.
fn are_equal(num: i128, den: u64, other_num: i128, other_den: u64) -> bool
    requires num { unsigned_abs num < 2 ^ 127 }
    requires den { 0 < den }
    requires other_num { unsigned_abs other_num < 2 ^ 127 }
    requires other_den { 0 < other_den }
    ensures yes { IsTrue result → pos other_den *ℤ num ≡ other_num *ℤ pos den }
    ensures no { pos other_den *ℤ num ≡ other_num *ℤ pos den → IsTrue result }
{
    let Some(one) = Frac::new(num, i128::from(den)) else {
        unreachable!()
    };
    let Some(other) = Frac::new(other_num, i128::from(other_den)) else {
        unreachable!()
    };
    match one.cmp(&other) {
        Ordering::Equal => true,
        Ordering::Less | Ordering::Greater => false,
    }
}

/// Whether the product is this number.
fn is_product(product: i128, a: i128, b: u64) -> bool
    ensures { IsTrue result ↔ (a *ℤ pos b ≡ product) }
{
    match a.checked_mul(i128::from(b)) {
        Some(exact) => exact == product,
        None => false,
    }
}

/// The greater of two numbers.
fn greater(one: i128, other: i128) -> i128
    ensures { result ≡ int_max one other }
{
    one.max(other)
}

/// The greatest price, times the denominator.
fn top(prices: &Prices) -> i128
    ensures value { result ≡ top_of prices.now }
    ensures low { pos 0 ≤ℤ result }
    ensures high { result ≤ℤ pos (2 ^ 63) }
{
    let mut top = 0;
    for num in prices.nums() {
        top = greater(top, i128::from(*num));
    }
    top
}

/// The denominator of prices.
fn den_of(prices: &Prices) -> u64
    ensures value { result ≡ prices.now.den }
    ensures positive { 0 < result }
    ensures high { result ≤ 2 ^ 32 }
{
    prices.den() as u64
}

/// What wanted units cost at the cap.
fn cap_cost(cap: i64, wanted: i128) -> i128
    requires cap_low { pos 0 ≤ℤ cap }
    requires cap_high { cap ≤ℤ pos 1000000000 }
    requires low { pos 0 ≤ℤ wanted }
    requires high { wanted ≤ℤ pos (2 ^ 64) }
    ensures value { result ≡ cap *ℤ wanted }
    ensures low { pos 0 ≤ℤ result }
    ensures high { result ≤ℤ pos (2 ^ 94) }
{
    i128::from(cap) * wanted
}

/// A denominator times a number.
fn times_den(den: u64, number: i128) -> i128
    requires den { den ≤ 2 ^ 32 }
    requires low { neg_ℤ (pos (2 ^ 89)) ≤ℤ number }
    requires high { number ≤ℤ pos (2 ^ 89) }
    ensures value { result ≡ pos den *ℤ number }
    ensures low { neg_ℤ (pos (2 ^ 121)) ≤ℤ result }
    ensures high { result ≤ℤ pos (2 ^ 121) }
{
    i128::from(den) * number
}

/// A denominator times the greatest price.
fn times_top(den: u64, top: i128) -> i128
    requires den { den ≤ 2 ^ 32 }
    requires low { pos 0 ≤ℤ top }
    requires high { top ≤ℤ pos (2 ^ 63) }
    ensures value { result ≡ pos den *ℤ top }
    ensures low { pos 0 ≤ℤ result }
    ensures high { result ≤ℤ pos (2 ^ 95) }
{
    i128::from(den) * top
}

impl RowSums {
    /// What the rows are worth by weight, less what their wanted units cost at the cap, in
    /// hundredths.
    fn worth_at_cap(&self, goods: u8, cap: i64) -> i128
        requires goods { goods ≤ 32 }
        requires cap_low { pos 0 ≤ℤ cap }
        requires cap_high { cap ≤ℤ pos 1000000000 }
        ensures value { result ≡ self.now.worth -ℤ (pos 100 *ℤ (cap *ℤ wanted_in goods self.now)) }
        ensures low { neg_ℤ (pos (2 ^ 120)) ≤ℤ result }
        ensures high { result ≤ℤ pos (2 ^ 120) }
    {
        self.worth() - 100 * cap_cost(cap, self.wanted(goods))
    }

    /// What the rows' violation comes to by weight where they pass the balance test: their worth
    /// less what the certificate's denominator costs at the greatest price, in hundredths and times
    /// the prices' denominator.
    fn worth_at_top(&self, prices: &Prices, den: u64) -> i128
        requires { den ≤ 2 ^ 32 }
        ensures value { result ≡ (pos prices.now.den *ℤ self.now.worth)
            -ℤ (pos 100 *ℤ (pos den *ℤ top_of prices.now)) }
        ensures low { neg_ℤ (pos (2 ^ 122)) ≤ℤ result }
        ensures high { result ≤ℤ pos (2 ^ 122) }
    {
        times_den(den_of(prices), self.worth()) - 100 * times_top(den, top(prices))
    }

    /// Whether the sums pass the accuracy test of a certificate with the denominator `den`, from 1
    /// on: the weights sum to at most `den`, and `den` times the violation is what the rows are
    /// worth by weight, less what their wanted units cost at the cap in hundredths, times the
    /// denominator of the prices. Where these are the sums of rows, no prices of so many goods, at
    /// most 32, within the cap have a violation below `violation` over that denominator. The cap is
    /// at most 1,000,000,000. Takes no memory.
    pub fn pass_accuracy(
        &self,
        goods: u8,
        cap: i64,
        prices: &Prices,
        violation: i128,
        den: u64,
    ) -> bool
        requires goods { goods ≤ 32 }
        requires cap_low { pos 0 ≤ℤ cap }
        requires cap_high { cap ≤ℤ pos 1000000000 }
        requires violation { unsigned_abs violation < 2 ^ 127 }
        requires den { 0 < den }
        ensures yes { IsTrue result → SumsPassAccuracy goods cap prices.now violation den self.now }
        ensures no { SumsPassAccuracy goods cap prices.now violation den self.now → IsTrue result }
    {
        if self.weight() > den {
            return false;
        }
        let worth = self.worth_at_cap(goods, cap);
        are_equal(worth, den, violation, den_of(prices))
    }

    /// Whether the rows pass the balance test of a certificate with the denominator `den`, from 1
    /// to 2^32: the wanted units sum to at most `den`, and what the rows are worth by weight above
    /// the violation is `den` by the greatest price, in hundredths. Where these are the sums of
    /// rows, no prices of so many goods, at most 32, with this violation have a lower greatest
    /// price. Takes no memory.
    pub fn pass_balance(&self, goods: u8, prices: &Prices, violation: i128, den: u64) -> bool
        requires goods { goods ≤ 32 }
        requires den { 0 < den }
        requires few { den ≤ 2 ^ 32 }
        ensures yes { IsTrue result → SumsPassBalance goods prices.now violation den self.now }
        ensures no { SumsPassBalance goods prices.now violation den self.now → IsTrue result }
    {
        if self.wanted(goods) > i128::from(den) {
            return false;
        }
        let rest = self.worth_at_top(prices, den);
        is_product(rest, violation, self.weight())
    }
}
