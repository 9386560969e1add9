//! What is kept of the rows of a certificate: sums, to which they are added in turn.
ghost use Rattle.std.specs.Prelude.{ℕ, ◌≡◌, ◌≤◌, ◌<◌, ◌+◌, ◌*◌, ◌^◌, length, pos, neg_ℤ, ◌≤ℤ◌, ◌+ℤ◌, ◌-ℤ◌, ◌*ℤ◌};
ghost use Rattle.std.specs.Int.{int_max};
ghost use Rattle.ice_defs.specs.Set.{weight_of, value};
ghost use Rattle.ice_best.specs.Nets.{AreAtMostTrillion};
ghost use Rattle.ice_defs.specs.Sum.{sum_below};
ghost use Rattle.ice_row_laws.specs.Sums.{AreZero, units_in, wanted_in};
ghost use Rattle.ice_row_laws.specs.Sizes.{IsSizedWithin};
ghost use Rattle.ice_certificate.specs.Bounded.{AddsRow};

use ice_tree::{NodeSet, Tree, Units, Weights};
use std::marker::Model;

/// The sums of the rows of a certificate that were added so far: of their weights, of what they are
/// worth by weight above the bidders' own sets, and of the units that they ask for by weight above
/// these, good by good.
///
/// The weights sum to at most 2^40, so 200 rows of weights up to 2^32 always fit. It takes no
/// memory.
#[derive(Drop)]
pub struct RowSums {
    weight: u64,
    worth: i128,
    units: [i128; 32],
}

impl Model for RowSums {
    ghost use Rattle.ice_row_laws.specs.Sums.{RowSums as Sums};
    ghost use Rattle.ice_certificate.specs.Bounded.{AreBounded};

    ghost Value = { Sums };

    ghost view = { λ s. record { weight = s.weight; worth = s.worth; units = s.units } };

    ghost invariant = { λ s. AreBounded (record { weight = s.weight; worth = s.worth; units = s.units }) };
}

/// A number by a weight.
fn by_weight(weight: u64, number: i128) -> i128
    requires few { weight ≤ 2 ^ 40 }
    requires low { neg_ℤ (pos (2 ^ 49)) ≤ℤ number }
    requires high { number ≤ℤ pos (2 ^ 49) }
    ensures value { result ≡ pos weight *ℤ number }
    ensures low { neg_ℤ (pos (2 ^ 89)) ≤ℤ result }
    ensures high { result ≤ℤ pos (2 ^ 89) }
{
    i128::from(weight) * number
}

/// What a set is worth above another one of the same tree. Each weight is at most 1,000,000,000,000
/// in size.
pub fn worth_above(tree: &Tree, weights: &Weights, own: &NodeSet, set: &NodeSet) -> i128
    requires own { length own.now ≡ length tree.now }
    requires set { length set.now ≡ length tree.now }
    requires nodes { length weights.now ≡ length tree.now }
    requires modest { AreAtMostTrillion weights.now }
    ensures value { result ≡ value set.now weights.now -ℤ value own.now weights.now }
    ensures low { neg_ℤ (pos (2 ^ 49)) ≤ℤ result }
    ensures high { result ≤ℤ pos (2 ^ 49) }
{
    let _nodes = tree.nodes();
    tree.value(set, weights) - tree.value(own, weights)
}

/// How many more units of a good, a number below 32, there are than others.
pub fn units_above(units: &Units, own: &Units, good: u8) -> i128
    requires { good < 32 }
    ensures value { result ≡ weight_of units.now good -ℤ weight_of own.now good }
    ensures low { neg_ℤ (pos (2 ^ 19)) ≤ℤ result }
    ensures high { result ≤ℤ pos (2 ^ 19) }
{
    i128::from(units.get(good)) - i128::from(own.get(good))
}

/// The number, and 0 where it is below 0.
fn above_zero(number: i128) -> i128
    ensures { result ≡ int_max number (pos 0) }
{
    number.max(0)
}

/// Adds units above a bidder's own ones, by weight, to the sums of 32 goods.
fn add_units(sums: &mut [i128; 32], weight: u64, units: &Units, own: &Units)
    requires few { weight ≤ 2 ^ 40 }
    requires sized { (g : ℕ) → g < 32 → IsSizedWithin (2 ^ 60) (weight_of sums.old g) }
    ensures added { (g : ℕ) → g < 32 → weight_of sums.new g
        ≡ weight_of sums.old g +ℤ (pos weight *ℤ (weight_of units.now g -ℤ weight_of own.now g)) }
    ensures sized { (g : ℕ) → g < 32
        → IsSizedWithin (2 ^ 19) (weight_of units.now g -ℤ weight_of own.now g) }
{
    for good in 0..32u8 {
        sums[good as usize] += by_weight(weight, units_above(units, own, good));
    }
}

/// The sum of what the first sums are above 0.
fn sum_above_zero(sums: &[i128], count: u8) -> i128
    requires within { count ≤ length sums.now }
    requires few { count ≤ 32 }
    requires sized { (g : ℕ) → g < count → weight_of sums.now g ≤ℤ pos (2 ^ 59) }
    ensures value { result ≡ sum_below (λ g. int_max (weight_of sums.now g) (pos 0)) count }
    ensures low { pos 0 ≤ℤ result }
    ensures high { result ≤ℤ pos (2 ^ 64) }
{
    let mut sum = 0;
    for good in 0..count {
        sum += above_zero(sums[good as usize]);
    }
    sum
}

impl RowSums {
    /// The sums of no rows.
    pub fn new() -> RowSums
        ensures { AreZero 32 result }
    {
        RowSums {
            weight: 0,
            worth: 0,
            units: [0; 32],
        }
    }

    /// Adds a row: a set with a weight, for a bidder with this tree, these weights of its nodes and
    /// this own set.
    ///
    /// Each weight of a node is at most 1,000,000,000,000 in size, and the rows' weights sum to at
    /// most 2^40.
    pub fn add(&mut self, tree: &Tree, weights: &Weights, own: &NodeSet, weight: u64, set: &NodeSet)
        requires own { length own.now ≡ length tree.now }
        requires set { length set.now ≡ length tree.now }
        requires nodes { length weights.now ≡ length tree.now }
        requires modest { AreAtMostTrillion weights.now }
        requires few { self.old.weight + weight ≤ 2 ^ 40 }
        ensures { AddsRow tree.now weights.now own.now set.now weight self.old self.new }
    {
        let units = tree.units(set);
        let owned = tree.units(own);
        let worth = self.worth + by_weight(weight, worth_above(tree, weights, own, set));
        let mut sums = self.units;
        add_units(&mut sums, weight, &units, &owned);
        *self = RowSums {
            weight: self.weight + weight,
            worth,
            units: sums,
        };
    }

    /// Of each of so many goods, what the rows ask for above 0, all together.
    pub(crate) fn wanted(&self, goods: u8) -> i128
        requires { goods ≤ 32 }
        ensures value { result ≡ wanted_in goods self.now }
        ensures low { pos 0 ≤ℤ result }
        ensures high { result ≤ℤ pos (2 ^ 64) }
    {
        sum_above_zero(&self.units, goods)
    }

    /// The weights' sum.
    pub fn weight(&self) -> u64
        ensures { result ≡ self.now.weight }
    {
        self.weight
    }

    /// What the rows are worth by weight.
    pub fn worth(&self) -> i128
        ensures value { result ≡ self.now.worth }
        ensures low { neg_ℤ (pos (2 ^ 89)) ≤ℤ result }
        ensures high { result ≤ℤ pos (2 ^ 89) }
        ensures sized { IsSizedWithin (self.now.weight * 2 ^ 49) result }
    {
        self.worth
    }

    /// The units of a good, a number below 32, that the rows ask for by weight.
    pub fn units_of(&self, good: u8) -> i128
        requires { good < 32 }
        ensures value { result ≡ units_in self.now good }
        ensures low { neg_ℤ (pos (2 ^ 59)) ≤ℤ result }
        ensures high { result ≤ℤ pos (2 ^ 59) }
    {
        self.units[good as usize]
    }
}
