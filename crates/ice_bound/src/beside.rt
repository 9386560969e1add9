//! Whether the sum of the greatest nets reaches a number where the multiplier of one good is one
//! more, or one less.
ghost use Rattle.std.specs.Prelude.{◌≡◌, ℕ, ◌*◌, ◌^◌, ◌<◌, ◌↔◌, length, vec_len, IsTrue, if◌then◌else◌, pos, neg_ℤ, ℤ, ◌≤ℤ◌};
ghost use Rattle.ice_defs.specs.Bound.{IsNetSum};
ghost use Rattle.ice_defs.specs.Set.{has, leaf_units, units};
ghost use Rattle.ice_defs.specs.Sum.{sum_below};
ghost use Rattle.ice_defs.specs.Trade.{tree_of, weights_of, fixing_of};
ghost use Rattle.ice_bound.specs.Beside.{less_cost, IsFoundBeside, IsTableBeside, AreTablesBeside, net_beside, IsShare, share_of, IsGreatestShare};
ghost use Rattle.ice_bound.specs.Kept.{IsNetOf, IsSmallNet};
ghost use Rattle.ice_bound.specs.Leaves.{AreLeavesOf};

use crate::direction::Direction;
use crate::found::stands;
use crate::leaves::Leaves;
use crate::marked::MarkedTree;
use crate::multipliers::Multipliers;
use crate::net_table::NetTable;
use ice_best::{Fixings, Scratch};
use ice_tree::{AllWeights, Assignment, NodeKind, NodeSet, Tree};
use std::marker::Model;

/// The nets and sets that are found at multipliers, and the multipliers `moved`, where that of one
/// good is one more, or one less. No bidder is dead.
#[derive(Drop)]
pub(crate) struct Beside<'a> {
    pub(crate) trees: &'a [Tree],
    pub(crate) weights: &'a AllWeights,
    pub(crate) marks: &'a Fixings,
    pub(crate) m: &'a Multipliers,
    pub(crate) moved: &'a Multipliers,
    pub(crate) nets: &'a [Option<i128>],
    pub(crate) sets: &'a Assignment,
    pub(crate) leaves: &'a [Leaves],
    pub(crate) good: u8,
    pub(crate) direction: Direction,
}

impl<'a> Model for Beside<'a> {
    ghost use Rattle.ice_bound.specs.Beside.{StandingBeside, IsFoundBeside};

    ghost Value = { StandingBeside };

    ghost view = { λ b. record {
      trees = b.trees.now;
      weights = b.weights.now;
      marks = b.marks.now;
      multipliers = b.m.now;
      moved = b.moved.now;
      nets = b.nets.now;
      sets = b.sets.now;
      leaves = b.leaves.now;
      good = b.good;
      direction = b.direction;
    } };

    ghost invariant = { λ b. IsFoundBeside (record {
      trees = b.trees.now;
      weights = b.weights.now;
      marks = b.marks.now;
      multipliers = b.m.now;
      moved = b.moved.now;
      nets = b.nets.now;
      sets = b.sets.now;
      leaves = b.leaves.now;
      good = b.good;
      direction = b.direction;
    }) };
}

/// What a node of this kind buys of the good, or minus what it sells.
fn units_of_kind(kind: NodeKind, of: u8) -> i64
    ensures value { result ≡ leaf_units kind of }
    ensures low { neg_ℤ (pos 65535) ≤ℤ result }
    ensures high { result ≤ℤ pos 65535 }
{
    match kind {
        NodeKind::Buy { good, units } if good == of => i64::from(units),
        NodeKind::Sell { good, units } if good == of => -i64::from(units),
        _ => 0,
    }
}

/// The same of a node inside, and 0 of one outside.
fn units_inside(kind: NodeKind, set: &NodeSet, node: u16, of: u8) -> i64
    requires { node < length set.now }
    ensures value { result ≡ (if has set.now node then leaf_units kind of else pos 0) }
    ensures low { neg_ℤ (pos 65535) ≤ℤ result }
    ensures high { result ≤ℤ pos 65535 }
{
    let units = units_of_kind(kind, of);
    if units != 0 && set.has(node) {
        units
    } else {
        0
    }
}

/// The units of the good that the set buys, less those that it sells.
fn units_of_set(tree: &Tree, set: &NodeSet, leaves: &Leaves, good: u8) -> i64
    requires set { length set.now ≡ length tree.now }
    requires leaves { AreLeavesOf tree.now leaves.now }
    requires good { good < 32 }
    ensures value { result ≡ units tree.now set.now good }
    ensures low { neg_ℤ (pos 13107000) ≤ℤ result }
    ensures high { result ≤ℤ pos 13107000 }
{
    let nodes = tree.nodes();
    let mut sum: i64 = 0;
    let mut leaf = leaves.first(good);
    while leaf < nodes {
        sum += units_inside(tree.kind(leaf), set, leaf, good);
        leaf = leaves.next(leaf);
    }
    sum
}

/// A net after a unit of the good costs one 64th more, or less.
fn after_cost(net: i128, units: i64, direction: Direction) -> i128
    requires net_low { neg_ℤ (pos (200 * 2 ^ 90)) ≤ℤ net }
    requires net_high { net ≤ℤ pos (200 * 2 ^ 90) }
    requires units_low { neg_ℤ (pos 13107000) ≤ℤ units }
    requires units_high { units ≤ℤ pos 13107000 }
    ensures value { result ≡ less_cost direction net units }
    ensures low { neg_ℤ (pos (201 * 2 ^ 90)) ≤ℤ result }
    ensures high { result ≤ℤ pos (201 * 2 ^ 90) }
{
    match direction {
        Direction::Up => net - i128::from(units),
        Direction::Down => net + i128::from(units),
    }
}

impl<'a> Beside<'a> {
    /// The number of bidders.
    fn bidders(&self) -> u8
        ensures value { result ≡ length self.now.trees }
        ensures known { IsFoundBeside self.now }
    {
        self.trees.len() as u8
    }

    /// What the bidder's set nets at the moved multipliers.
    fn share(&self, bidder: u8) -> i128
        requires { bidder < length self.now.trees }
        ensures { IsShare self.now bidder result }
    {
        let place = bidder as usize;
        let Some(net) = self.nets[place] else {
            unreachable!()
        };
        let units = units_of_set(
            &self.trees[place],
            self.sets.of(bidder),
            &self.leaves[place],
            self.good,
        );
        after_cost(net, units, self.direction)
    }

    /// The bidder's greatest net at the moved multipliers, None where it is dead. Its table moves
    /// there and back.
    fn greatest_net(&self, bidder: u8, table: &mut NetTable, scratch: &mut Scratch) -> Option<i128>
        requires bidder { bidder < length self.now.trees }
        requires table { IsTableBeside self.now bidder table.old }
        ensures net { IsNetOf (tree_of self.now.trees bidder) (weights_of self.now.weights bidder)
            self.now.moved (fixing_of self.now.marks bidder) result }
        ensures small { IsSmallNet result }
        ensures known { IsFoundBeside self.now }
        ensures table { IsTableBeside self.now bidder table.new }
    {
        let place = bidder as usize;
        let tree = &self.trees[place];
        let set = self.sets.of(bidder);
        let leaves = &self.leaves[place];
        if stands(tree, set, leaves, self.good, self.direction) {
            return self.nets[place];
        }
        let marked = MarkedTree {
            tree,
            weights: self.weights.of(bidder),
            fixing: self.marks.of(bidder),
            leaves,
        };
        table.renew_good(&marked, self.moved, self.good, scratch);
        let net = table.greatest();
        table.renew_good(&marked, self.m, self.good, scratch);
        net
    }

    /// The same number: no bidder is dead.
    fn greatest(&self, bidder: u8, table: &mut NetTable, scratch: &mut Scratch) -> i128
        requires bidder { bidder < length self.now.trees }
        requires table { IsTableBeside self.now bidder table.old }
        ensures greatest { IsGreatestShare self.now bidder result }
        ensures table { IsTableBeside self.now bidder table.new }
    {
        let Some(net) = self.greatest_net(bidder, table, scratch) else {
            unreachable!()
        };
        net
    }

    /// Writes down what each bidder's set nets at the moved multipliers, and answers the sum.
    fn put_shares(&self, shares: &mut [i128; 40]) -> i128
        ensures each { (b : ℕ) → b < length self.now.trees → IsShare self.now b (share_of shares.new
            b) }
        ensures sum { sum_below (net_beside self.now) (length self.now.trees) ≡ result }
        ensures low { neg_ℤ (pos (40 * (201 * 2 ^ 90))) ≤ℤ result }
        ensures high { result ≤ℤ pos (40 * (201 * 2 ^ 90)) }
    {
        let mut total: i128 = 0;
        for bidder in 0..self.bidders() {
            let share = self.share(bidder);
            shares[bidder as usize] = share;
            total += share;
        }
        total
    }

    /// Whether the sum of the greatest nets is at least this at the moved multipliers. The sets as
    /// they stand give a number that the sum is not below; it is raised bidder by bidder, until it
    /// tells.
    pub(crate) fn reaches(
        &self,
        least: i128,
        tables: &mut Vec<NetTable>,
        scratch: &mut Scratch,
    ) -> bool
        requires there { vec_len tables.old ≡ length self.now.trees }
        requires tables { AreTablesBeside self.now tables.old.items }
        ensures answer { (total : ℤ) → IsNetSum self.now.trees self.now.weights self.now.moved
            self.now.marks total → IsTrue result ↔ (least ≤ℤ total) }
        ensures there { vec_len tables.new ≡ vec_len tables.old }
        ensures tables { AreTablesBeside self.now tables.new.items }
    {
        let mut shares = [0; 40];
        let mut bound = self.put_shares(&mut shares);
        for bidder in 0..self.bidders() {
            if bound >= least {
                return true;
            }
            let place = bidder as usize;
            bound += self.greatest(bidder, &mut tables[place], scratch) - shares[place];
        }
        bound >= least
    }
}
