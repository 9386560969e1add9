//! Derived goods, and the tolls on them.
ghost use Rattle.std.specs.Prelude.{◌≡◌, ◌<◌, ◌≤◌, ◌↔◌, ◌∷◌, ◌++◌, ℕ, [], length, sum, replicate, slice_index, pos, neg_ℤ, ◌-ℤ◌, ◌*ℤ◌, ◌^◌, ◌≤ℤ◌, slice_set, vec_len, vec_capacity, IfOk, IsTrue};
ghost use Rattle.ice_defs.specs.Set.{weight_of};
ghost use Rattle.ice_defs.specs.Trade.{weights_of};
ghost use Rattle.ice_defs.specs.Derived.{toll_of, tolls_on_limits};
ghost use Rattle.ice_bound.specs.Laws.{tolls_on_node};
ghost use Rattle.ice_refute.specs.Waiting.{nodes_of};
ghost use Rattle.ice_derived.specs.Ranges.{IsToll, IsLimit};
ghost use Rattle.ice_derived.specs.Signs.{HasNegative};
ghost use Rattle.ice_derived.specs.Charges.{AreCharges, IsChange};

use crate::amounts::{Amounts, zero_rows};
use crate::packed::PackedGoods;
use ice_tree::{Tree, Weights};
use std::alloc::{AllocError, Global};
use std::marker::Model;

/// A list of derived goods of some trees, with room for so many, at most 2,000, and one toll on
/// each of them, at most 2^62 in size and counted in 4096ths. A node is charged each toll times
/// what it takes of that derived good. These charges are kept: so a leaf costs one look at the
/// nodes more than a leaf without tolls, and one for each toll in which it differs from the leaf
/// before it.
///
/// Its memory is taken once. That is at most 16,016,000 bytes for 2,000 derived goods of trees with
/// 2,000 nodes together, 4 bytes for each amount and 8 for each limit, and 150,000 for tolls and
/// charges.
#[derive(Drop)]
pub struct DerivedGoods {
    packed: PackedGoods,
    tolls: Vec<i64>,
    /// What each node is charged at these tolls.
    charges: Vec<Weights>,
    /// The sum of each toll times its limit.
    on_limits: i128,
}

impl Model for DerivedGoods {
    ghost use Rattle.std.specs.Prelude.{◌≤◌, vec_capacity};
    ghost use Rattle.ice_derived.specs.Ranges.{AreInRange};
    ghost use Rattle.ice_derived.specs.Goods.{GoodsView};
    ghost use Rattle.ice_derived.specs.Charges.{AreChargesOf, AreAllCharges, IsOnLimits};

    ghost Value = { GoodsView };

    ghost view = { λ d. record { goods = d.packed.goods; nodes = d.packed.nodes; most = d.packed.most; tolls = d.tolls.items } };

    ghost invariant = { λ d. record { charges : AreChargesOf d.packed d.tolls.items d.charges.items d.on_limits; room : d.packed.most ≤ vec_capacity d.tolls; range : AreInRange d.tolls.items; small : AreAllCharges d.charges.items; on_limits : IsOnLimits d.on_limits } };
}

/// Appends a toll, for which there is room.
fn push_toll(tolls: &mut Vec<i64>, toll: i64)
    requires { vec_len tolls.old < vec_capacity tolls.old }
    ensures items { tolls.new.items ≡ tolls.old.items ++ toll ∷ [] }
    ensures capacity { vec_capacity tolls.old ≤ vec_capacity tolls.new }
{
    if tolls.push(toll).is_err() {
        unreachable!();
    }
}

/// By how much a toll rises.
fn rise(toll: i64, before: i64) -> i128
    requires toll { IsToll toll }
    requires before { IsToll before }
    ensures value { result ≡ toll -ℤ before }
    ensures range { IsChange result }
{
    i128::from(toll) - i128::from(before)
}

/// What a rise of the toll on a derived good with this limit adds to the tolls on limits.
fn on_limit(rise: i128, limit: i64) -> i128
    requires rise { IsChange rise }
    requires limit { IsLimit limit }
    ensures value { result ≡ rise *ℤ limit }
    ensures low { neg_ℤ (pos (2 ^ 103)) ≤ℤ result }
    ensures high { result ≤ℤ pos (2 ^ 103) }
{
    rise * i128::from(limit)
}

/// Makes each toll 0.
fn clear(tolls: &mut Vec<i64>)
    ensures items { tolls.new.items ≡ replicate (vec_len tolls.old) (pos 0) }
    ensures capacity { vec_capacity tolls.old ≤ vec_capacity tolls.new }
{
    tolls.fill(0);
}

/// Makes each charge of one bidder 0.
fn clear_row(row: &mut Weights, nodes: u16)
    requires { length row.old ≡ nodes }
    ensures nodes { length row.new ≡ nodes }
    ensures each { (n : ℕ) → n < nodes → weight_of row.new n ≡ pos 0 }
{
    for node in 0..nodes {
        row.put(node, 0);
    }
}

/// Makes each charge 0.
fn clear_rows(rows: &mut Vec<Weights>, packed: &PackedGoods)
    requires { nodes_of rows.old.items ≡ packed.now.nodes }
    ensures nodes { nodes_of rows.new.items ≡ packed.now.nodes }
    ensures each { (b n : ℕ) → b < length packed.now.nodes → n < slice_index packed.now.nodes b
        → weight_of (weights_of rows.new.items b) n ≡ pos 0 }
{
    // there are at most 40 bidders
    let _count = packed.len();
    for bidder in 0..rows.len() {
        let nodes = packed.nodes(bidder as u8);
        clear_row(&mut rows[bidder], nodes);
    }
}

impl DerivedGoods {
    /// No derived goods yet, and room for so many.
    ///
    /// There are at most 40 trees with at most 2,000 nodes together, and room for at most 2,000
    /// derived goods.
    pub fn with_room(alloc: Global, trees: &[Tree], most: u16) -> Result<DerivedGoods, AllocError>
        requires few { length trees.now ≤ 40 }
        requires nodes { sum (nodes_of trees.now) ≤ 2000 }
        requires most { most ≤ 2000 }
        ensures goods { IfOk result (λ d. d.goods ≡ []) }
        ensures tolls { IfOk result (λ d. d.tolls ≡ []) }
        ensures nodes { IfOk result (λ d. d.nodes ≡ nodes_of trees.now) }
        ensures most { IfOk result (λ d. d.most ≡ most) }
    {
        let packed = PackedGoods::with_room(alloc, trees, most)?;
        let tolls = Vec::with_capacity(alloc, most as usize)?;
        let charges = zero_rows(alloc, trees)?;
        Ok(DerivedGoods {
            packed,
            tolls,
            charges,
            on_limits: 0,
        })
    }

    /// How many there are.
    pub fn len(&self) -> u16
        ensures value { result ≡ length self.now.goods }
        ensures tolls { length self.now.tolls ≡ length self.now.goods }
        ensures room { result ≤ self.now.most }
        ensures fits { self.now.most ≤ 2000 }
    {
        self.packed.len()
    }

    /// How many there is room for, with those that are in it.
    pub fn most(&self) -> u16
        ensures { result ≡ self.now.most }
    {
        self.packed.most()
    }

    /// Adds a derived good, for which there is room, with toll 0. Takes no memory.
    pub fn push(&mut self, amounts: &Amounts, limit: i64)
        requires nodes { nodes_of amounts.now ≡ self.old.nodes }
        requires room { length self.old.goods < self.old.most }
        requires limit { IsLimit limit }
        ensures goods { self.new.goods
            ≡ self.old.goods ++ record { amounts = amounts.now; limit = limit } ∷ [] }
        ensures tolls { self.new.tolls ≡ self.old.tolls ++ pos 0 ∷ [] }
        ensures nodes { self.new.nodes ≡ self.old.nodes }
        ensures most { self.new.most ≡ self.old.most }
    {
        self.packed.push(amounts, limit);
        push_toll(&mut self.tolls, 0);
    }

    /// The toll on the derived good with this number.
    pub fn toll(&self, number: u16) -> i64
        requires { number < length self.now.tolls }
        ensures value { result ≡ toll_of self.now.tolls number }
        ensures range { IsToll result }
    {
        self.tolls[number as usize]
    }

    /// Makes each toll 0. Takes no memory.
    pub fn clear_tolls(&mut self)
        ensures tolls { self.new.tolls ≡ replicate (length self.old.goods) (pos 0) }
        ensures goods { self.new.goods ≡ self.old.goods }
        ensures nodes { self.new.nodes ≡ self.old.nodes }
        ensures most { self.new.most ≡ self.old.most }
    {
        clear(&mut self.tolls);
        clear_rows(&mut self.charges, &self.packed);
        self.on_limits = 0;
    }

    /// Gives the derived good with this number another toll. Takes no memory.
    pub fn put_toll(&mut self, number: u16, toll: i64)
        requires number { number < length self.old.tolls }
        requires range { IsToll toll }
        ensures tolls { self.new.tolls ≡ slice_set self.old.tolls number toll }
        ensures goods { self.new.goods ≡ self.old.goods }
        ensures nodes { self.new.nodes ≡ self.old.nodes }
        ensures most { self.new.most ≡ self.old.most }
    {
        // amounts and limits are in range
        let _count = self.packed.len();
        let rise = rise(toll, self.toll(number));
        self.packed.charge(&mut self.charges, number, rise);
        self.on_limits += on_limit(rise, self.packed.limit(number));
        self.tolls[number as usize] = toll;
    }

    /// Whether a toll is negative.
    pub fn has_negative_toll(&self) -> bool
        ensures { IsTrue result ↔ HasNegative self.now.tolls }
    {
        for number in 0..self.len() {
            if self.toll(number) < 0 {
                return true;
            }
        }
        false
    }

    /// What the nodes of the bidder's tree are charged.
    pub(crate) fn charges(&self, bidder: u8) -> &Weights
        requires { bidder < length self.now.nodes }
        ensures nodes { length result.now ≡ slice_index self.now.nodes bidder }
        ensures each { (n : ℕ) → n < length result.now → weight_of result.now n
            ≡ tolls_on_node self.now.goods self.now.tolls bidder n }
        ensures range { AreCharges result.now }
    {
        &self.charges[bidder as usize]
    }

    /// The tolls on all limits.
    pub(crate) fn on_limits(&self) -> i128
        ensures value { result ≡ tolls_on_limits self.now.goods self.now.tolls }
        ensures low { neg_ℤ (pos (2 ^ 113)) ≤ℤ result }
        ensures high { result ≤ℤ pos (2 ^ 113) }
    {
        self.on_limits
    }
}
