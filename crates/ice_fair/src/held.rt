//! What the numbers of a certificate weigh of payments and units.
ghost use Rattle.std.specs.Prelude.{ℕ, ◌≡◌, ◌<◌, ◌*◌, ◌≤◌, ◌^◌, length, slice_index_or, pos, neg_ℤ, ◌≤ℤ◌, ◌+ℤ◌, ◌*ℤ◌};
ghost use Rattle.std.specs.List.{AllByRecursion};
ghost use Rattle.ice_defs.specs.Set.{units};
ghost use Rattle.ice_defs.specs.Sum.{sum_below};
ghost use Rattle.ice_defs.specs.Trade.{tree_of, set_of};
ghost use Rattle.ice_row_laws.specs.Sizes.{IsSizedWithin};
ghost use Rattle.ice_row_laws.specs.Sums.{units_in};
ghost use Rattle.std.specs.Int.{int_max};
ghost use Rattle.ice_fair.specs.Trades.{num_at, held_by, held_units_by};

use ice_certificate::RowSums;
use ice_pricing::Provisional;

/// A number of the list, as a signed one.
fn number_at(numbers: &[u64], bidder: u8) -> i128
    requires there { bidder < length numbers.now }
    requires fits { AllByRecursion (λ n. n ≤ 2 ^ 24) numbers.now }
    ensures value { result ≡ pos (slice_index_or numbers.now bidder 0) }
    ensures low { pos 0 ≤ℤ result }
    ensures high { result ≤ℤ pos (2 ^ 24) }
{
    i128::from(numbers[bidder as usize])
}

/// What a bidder's two numbers weigh together.
fn held_of(low: &[u64], high: &[u64], bidder: u8) -> i128
    requires low_there { bidder < length low.now }
    requires high_there { bidder < length high.now }
    requires low_fits { AllByRecursion (λ n. n ≤ 2 ^ 24) low.now }
    requires high_fits { AllByRecursion (λ n. n ≤ 2 ^ 24) high.now }
    ensures value { result ≡ held_by low.now high.now bidder }
    ensures low { neg_ℤ (pos (2 ^ 24)) ≤ℤ result }
    ensures high { result ≤ℤ pos (2 ^ 24) }
{
    number_at(low, bidder) - number_at(high, bidder)
}

/// What the numbers of a list sum to.
pub(crate) fn total(numbers: &[u64]) -> i128
    requires few { length numbers.now ≤ 40 }
    requires fits { AllByRecursion (λ n. n ≤ 2 ^ 24) numbers.now }
    ensures value { result
        ≡ sum_below (λ b. pos (slice_index_or numbers.now b 0)) (length numbers.now) }
    ensures low { pos 0 ≤ℤ result }
    ensures high { result ≤ℤ pos (40 * 2 ^ 24) }
{
    let mut sum = 0;
    for bidder in 0..numbers.len() as u8 {
        sum += number_at(numbers, bidder);
    }
    sum
}

/// A weight of a payment.
fn of_payment(held: i128, num: i128) -> i128
    requires held_low { neg_ℤ (pos (2 ^ 24)) ≤ℤ held }
    requires held_high { held ≤ℤ pos (2 ^ 24) }
    requires low { neg_ℤ (pos (10 ^ 21)) ≤ℤ num }
    requires high { num ≤ℤ pos (10 ^ 21) }
    ensures value { result ≡ held *ℤ num }
    ensures low { neg_ℤ (pos (2 ^ 24 * 10 ^ 21)) ≤ℤ result }
    ensures high { result ≤ℤ pos (2 ^ 24 * 10 ^ 21) }
{
    held * num
}

/// What all numbers weigh of the payments.
pub(crate) fn held_paid(low: &[u64], high: &[u64], nums: &[i128]) -> i128
    requires few { length nums.now ≤ 40 }
    requires low_count { length low.now ≡ length nums.now }
    requires high_count { length high.now ≡ length nums.now }
    requires low_fits { AllByRecursion (λ n. n ≤ 2 ^ 24) low.now }
    requires high_fits { AllByRecursion (λ n. n ≤ 2 ^ 24) high.now }
    requires sized { (b : ℕ) → b < length nums.now → IsSizedWithin (10 ^ 21) (num_at nums.now b) }
    ensures value { result
        ≡ sum_below (λ b. held_by low.now high.now b *ℤ num_at nums.now b) (length nums.now) }
    ensures low { neg_ℤ (pos (2 ^ 100)) ≤ℤ result }
    ensures high { result ≤ℤ pos (2 ^ 100) }
{
    let mut sum = 0;
    for bidder in 0..nums.len() as u8 {
        sum += of_payment(held_of(low, high, bidder), nums[bidder as usize]);
    }
    sum
}

/// The units of a good of the bidder's own set.
fn own_units(trade: &Provisional<'_>, bidder: u8, good: u8) -> i64
    requires bidder { bidder < length trade.now.trees }
    requires good { good < 32 }
    ensures value { let t = trade.now in
        result ≡ units (tree_of t.trees bidder) (set_of t.sets bidder) good }
    ensures low { neg_ℤ (pos 200000) ≤ℤ result }
    ensures high { result ≤ℤ pos 200000 }
{
    trade.tree(bidder).units(trade.own(bidder)).get(good)
}

/// A weight of units.
fn of_units(held: i128, units: i64) -> i128
    requires held_low { neg_ℤ (pos (2 ^ 24)) ≤ℤ held }
    requires held_high { held ≤ℤ pos (2 ^ 24) }
    requires low { neg_ℤ (pos 200000) ≤ℤ units }
    requires high { units ≤ℤ pos 200000 }
    ensures value { result ≡ held *ℤ units }
    ensures low { neg_ℤ (pos (2 ^ 42)) ≤ℤ result }
    ensures high { result ≤ℤ pos (2 ^ 42) }
{
    held * i128::from(units)
}

/// What all numbers weigh of the units of a good of the bidders' own sets.
pub(crate) fn held_units(trade: &Provisional<'_>, low: &[u64], high: &[u64], good: u8) -> i128
    requires low_count { length low.now ≡ length trade.now.trees }
    requires high_count { length high.now ≡ length trade.now.trees }
    requires low_fits { AllByRecursion (λ n. n ≤ 2 ^ 24) low.now }
    requires high_fits { AllByRecursion (λ n. n ≤ 2 ^ 24) high.now }
    requires good { good < 32 }
    ensures value { result ≡ held_units_by trade.now low.now high.now good }
    ensures low { neg_ℤ (pos (2 ^ 48)) ≤ℤ result }
    ensures high { result ≤ℤ pos (2 ^ 48) }
{
    let mut sum = 0;
    for bidder in 0..trade.bidders() {
        sum += of_units(held_of(low, high, bidder), own_units(trade, bidder, good));
    }
    sum
}

/// The number, and 0 where it is below 0.
fn above_zero(number: i128) -> i128
    ensures { result ≡ int_max number (pos 0) }
{
    number.max(0)
}

/// What is asked for of a good above 0.
fn asked_of(held: i128, units: i128) -> i128
    requires held_low { neg_ℤ (pos (2 ^ 48)) ≤ℤ held }
    requires held_high { held ≤ℤ pos (2 ^ 48) }
    requires low { neg_ℤ (pos (2 ^ 59)) ≤ℤ units }
    requires high { units ≤ℤ pos (2 ^ 59) }
    ensures value { result ≡ int_max (held +ℤ (pos 100 *ℤ units)) (pos 0) }
    ensures low { pos 0 ≤ℤ result }
    ensures high { result ≤ℤ pos (2 ^ 66) }
{
    above_zero(held + 100 * units)
}

/// What all numbers and the rows with these sums ask for of all goods, above 0.
pub(crate) fn asked(trade: &Provisional<'_>, low: &[u64], high: &[u64], sums: &RowSums) -> i128
    requires low_count { length low.now ≡ length trade.now.trees }
    requires high_count { length high.now ≡ length trade.now.trees }
    requires low_fits { AllByRecursion (λ n. n ≤ 2 ^ 24) low.now }
    requires high_fits { AllByRecursion (λ n. n ≤ 2 ^ 24) high.now }
    ensures value { let t = trade.now in result
        ≡ sum_below (λ g. int_max (held_units_by t low.now high.now g +ℤ (pos 100 *ℤ units_in sums.now g)) (pos 0)) t.goods }
    ensures low { pos 0 ≤ℤ result }
    ensures high { result ≤ℤ pos (2 ^ 71) }
{
    let mut sum = 0;
    for good in 0..trade.goods() {
        sum += asked_of(held_units(trade, low, high, good), sums.units_of(good));
    }
    sum
}
