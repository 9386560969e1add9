//! What sets cost at prices, and how far payments are from it.
ghost use Rattle.std.specs.Prelude.{◌≡◌, ◌<◌, ◌≤◌, ◌^◌, ◌*◌, ◌⊎◌, IsTrue, length, pos, neg_ℤ, ◌≤ℤ◌, ◌*ℤ◌};
ghost use Rattle.std.specs.Int.{int_max};
ghost use Rattle.ice_defs.specs.Fraction.{Equals};
ghost use Rattle.ice_defs.specs.Prices.{cost_of};
ghost use Rattle.ice_defs.specs.Set.{units};
ghost use Rattle.ice_defs.specs.Trade.{tree_of, set_of};
ghost use Rattle.ice_fair_laws.specs.Whole.{gap_num, IsGreatestGap};
ghost use Rattle.ice_fair.specs.Trades.{num_at, paid_by, AreNumbers};

use ice_frac::Frac;
use ice_pricing::Provisional;
use ice_terms::Prices;
use std::cmp::Ordering;

/// A trade with what each bidder pays, over one denominator.
#[derive(Drop)]
pub(crate) struct Paid<'a> {
    pub(crate) trade: Provisional<'a>,
    pub(crate) nums: &'a [i128],
    pub(crate) cut: u16,
}

/// What units of a good cost.
fn part(num: i128, units: i64) -> i128
    requires num_low { pos 0 ≤ℤ num }
    requires num_high { num ≤ℤ pos (2 ^ 62) }
    requires units_low { neg_ℤ (pos 200000) ≤ℤ units }
    requires units_high { units ≤ℤ pos 200000 }
    ensures value { result ≡ num *ℤ units }
    ensures low { neg_ℤ (pos (2 ^ 80)) ≤ℤ result }
    ensures high { result ≤ℤ pos (2 ^ 80) }
{
    num * i128::from(units)
}

/// What the bidder's own set costs, times the prices' denominator.
fn own_cost(trade: &Provisional<'_>, prices: &Prices, bidder: u8) -> i128
    requires bidder { bidder < length trade.now.trees }
    requires goods { length prices.now.nums ≡ trade.now.goods }
    ensures value { let t = trade.now in
        result ≡ cost_of prices.now (units (tree_of t.trees bidder) (set_of t.sets bidder)) }
    ensures low { neg_ℤ (pos (2 ^ 85)) ≤ℤ result }
    ensures high { result ≤ℤ pos (2 ^ 85) }
{
    let units = trade.tree(bidder).units(trade.own(bidder));
    let mut sum = 0;
    for good in 0..trade.goods() {
        sum += part(prices.num(good), units.get(good));
    }
    sum
}

/// A payment times the prices' denominator.
fn paid_part(num: i128, den: i64) -> i128
    requires num_low { neg_ℤ (pos (10 ^ 21)) ≤ℤ num }
    requires num_high { num ≤ℤ pos (10 ^ 21) }
    requires den_low { pos 0 ≤ℤ den }
    requires den_high { den ≤ℤ pos (2 ^ 32) }
    ensures value { result ≡ num *ℤ den }
    ensures low { neg_ℤ (pos (10 ^ 21 * 2 ^ 32)) ≤ℤ result }
    ensures high { result ≤ℤ pos (10 ^ 21 * 2 ^ 32) }
{
    num * i128::from(den)
}

/// A cost times the payments' denominator.
fn cut_part(cut: u16, cost: i128) -> i128
    requires cut { cut ≤ 1000 }
    requires low { neg_ℤ (pos (2 ^ 85)) ≤ℤ cost }
    requires high { cost ≤ℤ pos (2 ^ 85) }
    ensures value { result ≡ pos cut *ℤ cost }
    ensures low { neg_ℤ (pos (2 ^ 95)) ≤ℤ result }
    ensures high { result ≤ℤ pos (2 ^ 95) }
{
    i128::from(cut) * cost
}

/// What the bidder pays less what its own set costs, times both denominators.
fn gap(paid: &Paid<'_>, prices: &Prices, bidder: u8) -> i128
    requires numbers { AreNumbers paid.now.trade paid.now.cut paid.now.nums.now }
    requires bidder { bidder < length paid.now.trade.trees }
    requires goods { length prices.now.nums ≡ paid.now.trade.goods }
    ensures value { let p = paid.now in
        result ≡ gap_num (paid_by p.trade p.cut p.nums.now) prices.now p.cut (num_at p.nums.now) bidder }
    ensures low { neg_ℤ (pos (2 ^ 102)) ≤ℤ result }
    ensures high { result ≤ℤ pos (2 ^ 102) }
{
    let num = paid.nums[bidder as usize];
    paid_part(num, prices.den()) - cut_part(paid.cut, own_cost(&paid.trade, prices, bidder))
}

/// The size of a number.
fn size_of(number: i128) -> i128
    requires low { neg_ℤ (pos (2 ^ 102)) ≤ℤ number }
    requires high { number ≤ℤ pos (2 ^ 102) }
    ensures over { number ≤ℤ result }
    ensures under { neg_ℤ number ≤ℤ result }
    ensures is { (number ≡ result) ⊎ (neg_ℤ number ≡ result) }
    ensures low { pos 0 ≤ℤ result }
    ensures high { result ≤ℤ pos (2 ^ 102) }
{
    if number < 0 { -number } else { number }
}

/// The greater of two numbers.
fn greater(one: i128, other: i128) -> i128
    ensures { result ≡ int_max one other }
{
    one.max(other)
}

/// The greatest size of what a bidder pays less what its own set costs, times both denominators.
pub(crate) fn greatest_gap(paid: &Paid<'_>, prices: &Prices) -> i128
    requires numbers { AreNumbers paid.now.trade paid.now.cut paid.now.nums.now }
    requires goods { length prices.now.nums ≡ paid.now.trade.goods }
    ensures greatest { let p = paid.now in
        IsGreatestGap (paid_by p.trade p.cut p.nums.now) prices.now p.cut (num_at p.nums.now) result }
    ensures low { pos 0 ≤ℤ result }
    ensures high { result ≤ℤ pos (2 ^ 102) }
{
    let bidders = paid.trade.bidders();
    let mut greatest = size_of(gap(paid, prices, 0));
    for bidder in 1..bidders {
        greatest = greater(greatest, size_of(gap(paid, prices, bidder)));
    }
    greatest
}

/// Both denominators together.
fn both_dens(cut: u16, prices: &Prices) -> i128
    ensures value { result ≡ pos (cut * prices.now.den) }
    ensures high { result ≤ℤ pos (2 ^ 48) }
    ensures limits { 0 < prices.now.den }
{
    i128::from(cut) * i128::from(prices.den())
}

/// Whether a fraction is this number over both denominators.
pub(crate) fn is_over_both(fraction: &Frac, num: i128, cut: u16, prices: &Prices) -> bool
    requires low { pos 0 ≤ℤ num }
    requires high { num ≤ℤ pos (2 ^ 102) }
    requires positive { 0 < cut }
    ensures yes { IsTrue result
        → Equals fraction.now (record { num = num; den = cut * prices.now.den }) }
    ensures no { Equals fraction.now (record { num = num; den = cut * prices.now.den })
        → IsTrue result }
{
    let Some(found) = Frac::new(num, both_dens(cut, prices)) else {
        unreachable!()
    };
    match fraction.cmp(&found) {
        Ordering::Equal => true,
        Ordering::Less | Ordering::Greater => false,
    }
}

/// The greatest size of what a bidder pays less what its own set costs.
pub(crate) fn distance_of(paid: &Paid<'_>, prices: &Prices) -> Frac
    requires numbers { AreNumbers paid.now.trade paid.now.cut paid.now.nums.now }
    requires goods { length prices.now.nums ≡ paid.now.trade.goods }
{
    let gap = greatest_gap(paid, prices);
    let Some(distance) = Frac::new(gap, both_dens(paid.cut, prices)) else {
        unreachable!()
    };
    distance
}
