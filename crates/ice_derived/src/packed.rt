//! Derived goods in one list of numbers.
ghost use Rattle.std.specs.Prelude.{◌≡◌, ◌+◌, ◌*◌, ◌<◌, ◌≤◌, ◌+ℤ◌, ◌*ℤ◌, ℕ, [], ◌∷◌, ◌++◌, length, sum, take, drop, slice_index, slice_set, vec_len, vec_capacity, IfOk};
ghost use Rattle.ice_defs.specs.Set.{weight_of};
ghost use Rattle.ice_defs.specs.Derived.{derived_at};
ghost use Rattle.ice_refute.specs.Waiting.{nodes_of};
ghost use Rattle.ice_derived.specs.Ranges.{AreAmounts, IsAmount, IsLimit};
ghost use Rattle.ice_derived.specs.Packing.{AreFit, joined};
ghost use Rattle.ice_derived.specs.Charges.{IsChange, IsCharge, MayBeCharged, AreChargedMore, MayBeChargedAt, AreChargedAt};

use crate::amounts::Amounts;
use arrayvec::ArrayVec;
use ice_tree::{Tree, Weights};
use std::alloc::{AllocError, Global};
use std::marker::Model;

/// A list of derived goods of some trees, with room for so many, at most 2,000. Its memory is taken
/// once: 4 bytes for each node and 8 for a limit, for each derived good that has room. That is at
/// most 2,000 * (2,000 * 4 + 8) = 16,016,000 bytes. Fewer can't be promised, since a journal may
/// give each node an amount of each derived good; what no amounts are written to isn't touched.
#[derive(Drop)]
pub(crate) struct PackedGoods {
    /// The number of nodes of each bidder's tree.
    nodes: ArrayVec<u16, 40>,
    /// Their sum.
    size: u16,
    /// How many derived goods there is room for.
    most: u16,
    /// The amounts of one derived good after those of another, and in a good those of one bidder
    /// after those of another.
    numbers: Vec<i32>,
    /// The limit of each derived good.
    limits: Vec<i64>,
}

impl Model for PackedGoods {
    ghost use Rattle.std.specs.Prelude.{◌≡◌, ◌*◌, ◌≤◌, ◌<◌, ℕ, length, sum, vec_capacity};
    ghost use Rattle.ice_defs.specs.Set.{weight_of};
    ghost use Rattle.ice_derived.specs.Ranges.{IsAmount, IsLimit};
    ghost use Rattle.ice_derived.specs.Packing.{PackedView, goods_of, IsLaidOut};

    ghost Value = { PackedView };

    ghost view = { λ d. record { goods = goods_of d.nodes.items d.numbers.items d.limits.items; nodes = d.nodes.items; most = d.most } };

    ghost invariant = { λ d. record { laid : IsLaidOut d.nodes.items d.size d.most d.numbers.items d.limits.items; numbers_room : d.most * d.size ≤ vec_capacity d.numbers; limits_room : d.most ≤ vec_capacity d.limits } };
}

/// Appends a number, for which there is room.
fn push_number(numbers: &mut Vec<i32>, number: i32)
    requires { vec_len numbers.old < vec_capacity numbers.old }
    ensures items { numbers.new.items ≡ numbers.old.items ++ number ∷ [] }
    ensures capacity { vec_capacity numbers.old ≤ vec_capacity numbers.new }
{
    if numbers.push(number).is_err() {
        unreachable!();
    }
}

/// Appends a limit, for which there is room.
fn push_limit(limits: &mut Vec<i64>, limit: i64)
    requires { vec_len limits.old < vec_capacity limits.old }
    ensures items { limits.new.items ≡ limits.old.items ++ limit ∷ [] }
    ensures capacity { vec_capacity limits.old ≤ vec_capacity limits.new }
{
    if limits.push(limit).is_err() {
        unreachable!();
    }
}

/// Appends the amounts of one bidder, for which there is room.
fn push_row(numbers: &mut Vec<i32>, row: &Weights, nodes: u16)
    requires nodes { length row.now ≡ nodes }
    requires range { AreAmounts row.now }
    requires room { vec_len numbers.old + nodes ≤ vec_capacity numbers.old }
    ensures items { numbers.new.items ≡ numbers.old.items ++ row.now }
    ensures capacity { vec_capacity numbers.old ≤ vec_capacity numbers.new }
{
    for node in 0..nodes {
        push_number(numbers, narrow(row.get(node)));
    }
}

/// Appends the amounts of all bidders, for which there is room.
fn push_rows(numbers: &mut Vec<i32>, amounts: &Amounts, nodes: &[u16])
    requires nodes { nodes_of amounts.now ≡ nodes.now }
    requires few { length nodes.now ≤ 40 }
    requires room { vec_len numbers.old + sum nodes.now ≤ vec_capacity numbers.old }
    ensures items { numbers.new.items ≡ numbers.old.items ++ joined amounts.now }
    ensures capacity { vec_capacity numbers.old ≤ vec_capacity numbers.new }
{
    for bidder in 0..nodes.len() {
        push_row(numbers, amounts.of(bidder as u8), nodes[bidder]);
    }
}

/// A number that is at most 2^20 in size, in fewer bits.
fn narrow(number: i128) -> i32
    requires { IsAmount number }
    ensures { result ≡ number }
{
    number as i32
}

/// The numbers of nodes of at most 40 trees.
fn nodes_of_trees(trees: &[Tree]) -> ArrayVec<u16, 40>
    requires { length trees.now ≤ 40 }
    ensures { result.items ≡ nodes_of trees.now }
{
    let mut nodes = ArrayVec::new();
    for tree in trees {
        nodes.push(tree.nodes());
    }
    nodes
}

/// The number of nodes of all trees.
fn size_of_trees(nodes: &[u16]) -> u16
    requires { sum nodes.now ≤ 2000 }
    ensures { result ≡ sum nodes.now }
{
    nodes.iter().sum()
}

impl PackedGoods {
    /// No derived goods yet, and room for so many.
    ///
    /// There are at most 40 trees with at most 2,000 nodes together, and room for at most 2,000
    /// derived goods.
    pub(crate) fn with_room(
        alloc: Global,
        trees: &[Tree],
        most: u16,
    ) -> Result<PackedGoods, AllocError>
        requires few { length trees.now ≤ 40 }
        requires nodes { sum (nodes_of trees.now) ≤ 2000 }
        requires most { most ≤ 2000 }
        ensures goods { IfOk result (λ d. d.goods ≡ []) }
        ensures nodes { IfOk result (λ d. d.nodes ≡ nodes_of trees.now) }
        ensures most { IfOk result (λ d. d.most ≡ most) }
    {
        let nodes = nodes_of_trees(trees);
        let size = size_of_trees(&nodes);
        Ok(PackedGoods {
            nodes,
            size,
            most,
            numbers: Vec::with_capacity(alloc, most as usize * size as usize)?,
            limits: Vec::with_capacity(alloc, most as usize)?,
        })
    }

    /// How many there are.
    pub(crate) fn len(&self) -> u16
        ensures value { result ≡ length self.now.goods }
        ensures room { result ≤ self.now.most }
        ensures fits { self.now.most ≤ 2000 }
        ensures fit { AreFit self.now }
    {
        self.limits.len() as u16
    }

    /// How many there is room for, with those that are in it.
    pub(crate) fn most(&self) -> u16
        ensures { result ≡ self.now.most }
    {
        self.most
    }

    /// The number of nodes of the bidder's tree.
    pub(crate) fn nodes(&self, bidder: u8) -> u16
        requires { bidder < length self.now.nodes }
        ensures { result ≡ slice_index self.now.nodes bidder }
    {
        self.nodes[bidder as usize]
    }

    /// Adds a derived good, for which there is room. Takes no memory.
    pub(crate) fn push(&mut self, amounts: &Amounts, limit: i64)
        requires nodes { nodes_of amounts.now ≡ self.old.nodes }
        requires room { length self.old.goods < self.old.most }
        requires limit { IsLimit limit }
        ensures goods { self.new.goods
            ≡ self.old.goods ++ record { amounts = amounts.now; limit = limit } ∷ [] }
        ensures nodes { self.new.nodes ≡ self.old.nodes }
        ensures most { self.new.most ≡ self.old.most }
    {
        // each amount is in range
        let _bidders = amounts.bidders();
        push_rows(&mut self.numbers, amounts, &self.nodes);
        push_limit(&mut self.limits, limit);
    }

    /// How much may be taken of the derived good with this number.
    pub(crate) fn limit(&self, number: u16) -> i64
        requires { number < length self.now.goods }
        ensures value { result ≡ (derived_at self.now.goods number).limit }
        ensures range { IsLimit result }
    {
        self.limits[number as usize]
    }
}

/// So many times an amount.
fn times_amount(times: i128, amount: i32) -> i128
    requires times { IsChange times }
    requires amount { IsAmount amount }
    ensures { result ≡ times *ℤ amount }
{
    times * i128::from(amount)
}

/// Adds so many times the amount to what the node is charged.
fn charge_node(row: &mut Weights, node: u16, amount: i32, times: i128)
    requires node { node < length row.old }
    requires times { IsChange times }
    requires amount { IsAmount amount }
    requires small { IsCharge (weight_of row.old node +ℤ (times *ℤ amount)) }
    ensures { row.new ≡ slice_set row.old node (weight_of row.old node +ℤ (times *ℤ amount)) }
{
    if amount != 0 {
        let before = row.get(node);
        row.put(node, before + times_amount(times, amount));
    }
}

/// Adds so many times each amount to what the nodes of one bidder are charged.
fn charge_row(row: &mut Weights, amounts: &[i32], nodes: u16, times: i128)
    requires nodes { length row.old ≡ nodes }
    requires numbers { length amounts.now ≡ nodes }
    requires times { IsChange times }
    requires amounts { AreAmounts amounts.now }
    requires small { (n : ℕ) → n < nodes → IsCharge
        (weight_of row.old n +ℤ (times *ℤ weight_of amounts.now n)) }
    ensures nodes { length row.new ≡ nodes }
    ensures each { (n : ℕ) → n < nodes → weight_of row.new n
        ≡ weight_of row.old n +ℤ (times *ℤ weight_of amounts.now n) }
{
    for node in 0..nodes {
        charge_node(row, node, amounts[node as usize], times);
    }
}

/// Adds so many times each amount to what the nodes are charged. The amounts are those of one
/// derived good, those of one bidder after those of another.
fn charge_rows(rows: &mut Vec<Weights>, amounts: &[i32], nodes: &[u16], times: i128)
    requires nodes { nodes_of rows.old.items ≡ nodes.now }
    requires numbers { length amounts.now ≡ sum nodes.now }
    requires times { IsChange times }
    requires amounts { AreAmounts amounts.now }
    requires small { MayBeChargedAt nodes.now amounts.now times rows.old.items }
    ensures nodes { nodes_of rows.new.items ≡ nodes.now }
    ensures each { AreChargedAt nodes.now amounts.now times rows.old.items rows.new.items }
{
    let mut from = 0;
    for bidder in 0..nodes.len() {
        let count = nodes[bidder];
        let row = part(amounts, from, count as usize);
        charge_row(&mut rows[bidder], row, count, times);
        from += count as usize;
    }
}

/// So many numbers from this one on.
fn part(numbers: &[i32], from: usize, count: usize) -> &[i32]
    requires { from + count ≤ length numbers.now }
    ensures { result.now ≡ take count (drop from numbers.now) }
{
    &numbers[from..from + count]
}

impl PackedGoods {
    /// Adds so many times the amounts of the derived good to what each node is charged. It takes no
    /// memory. Time: one look at each node's amount.
    pub(crate) fn charge(&self, rows: &mut Vec<Weights>, number: u16, times: i128)
        requires number { number < length self.now.goods }
        requires nodes { nodes_of rows.old.items ≡ self.now.nodes }
        requires times { IsChange times }
        requires small { MayBeCharged self.now number times rows.old.items }
        ensures nodes { nodes_of rows.new.items ≡ self.now.nodes }
        ensures each { AreChargedMore self.now number times rows.old.items rows.new.items }
    {
        let size = self.size as usize;
        let amounts = part(&self.numbers, number as usize * size, size);
        charge_rows(rows, amounts, &self.nodes, times);
    }
}
