//! One set for each bidder.
ghost use Rattle.std.specs.Prelude.{◌≡◌, ◌*◌, ◌^◌, ◌<◌, ◌≤◌, length, map, replicate, slice_set, false, pos, neg_ℤ, ◌≤ℤ◌, IfOk};
ghost use Rattle.ice_defs.specs.Set.{value};
ghost use Rattle.ice_defs.specs.Trade.{set_of, weights_of, total_value};
ghost use Rattle.ice_defs.specs.Weighing.{lower_weights};
ghost use Rattle.ice_tree.specs.Alike.{AreChosen, HasSetPerTree, HasWeightPerNode};

use crate::bounds::Bounds;
use crate::tree::Tree;
use crate::weights::AllWeights;
use ice_set::NodeSet;
use std::alloc::{AllocError, Global};
use std::marker::Model;

/// One set for each bidder, of the nodes of the bidder's tree.
#[derive(Drop)]
pub struct Assignment {
    sets: Vec<NodeSet>,
}

impl Model for Assignment {
    ghost use Rattle.std.specs.Prelude.{List, Bool};

    ghost Value = { List (List Bool) };

    ghost view = { λ a. a.sets.items };
}

impl Assignment {
    /// The empty sets of these trees, one of each bidder.
    pub fn empty(alloc: Global, trees: &[Tree]) -> Result<Assignment, AllocError>
        ensures { IfOk result (λ a. a ≡ map (λ t. replicate (length t) false) trees.now) }
    {
        let sets = trees
            .iter()
            .map(|tree| NodeSet::empty(tree.nodes()))
            .collect(alloc)?;
        Ok(Assignment { sets })
    }

    /// The number of bidders.
    pub fn len(&self) -> usize
        ensures { result ≡ length self.now }
    {
        self.sets.len()
    }

    pub(crate) fn set(&self, bidder: usize) -> &NodeSet
        requires { bidder < length self.now }
        ensures { result.now ≡ set_of self.now bidder }
    {
        &self.sets[bidder]
    }

    /// The bidder's set.
    pub fn of(&self, bidder: u8) -> &NodeSet
        requires { bidder < length self.now }
        ensures { result.now ≡ set_of self.now bidder }
    {
        self.set(usize::from(bidder))
    }

    /// Puts a set of the bidder's tree in the place of the bidder's set.
    pub fn put(&mut self, bidder: u8, set: &NodeSet)
        requires bidder { bidder < length self.old }
        requires nodes { length set.now ≡ length (set_of self.old bidder) }
        ensures { self.new ≡ slice_set self.old bidder set.now }
    {
        self.sets[bidder as usize] = *set;
    }

    /// Takes over the sets of another assignment of the same bidders.
    pub fn copy_from(&mut self, other: &Assignment)
        requires { length other.now ≡ length self.old }
        ensures { self.new ≡ other.now }
    {
        self.sets.copy_from_slice(&other.sets);
    }

    /// The value of the bidder's set at its weights.
    fn value_of(&self, trees: &[Tree], weights: &AllWeights, bidder: u8) -> i128
        requires bidder { bidder < length trees.now }
        requires sets { HasSetPerTree trees.now self.now }
        requires weights { HasWeightPerNode trees.now weights.now }
        ensures value { result ≡ value (set_of self.now bidder) (weights_of weights.now bidder) }
        ensures low { neg_ℤ (pos (200 * 2 ^ 94)) ≤ℤ result }
        ensures high { result ≤ℤ pos (200 * 2 ^ 94) }
    {
        trees[usize::from(bidder)].value(self.of(bidder), weights.of(bidder))
    }

    /// The sum of the values of the sets at weights, at most 8,000 * 2^94 in size. There are at
    /// most 40 trees, one of each bidder; each set is of the nodes of its tree, and each node has
    /// one weight. It takes no memory.
    pub fn value(&self, trees: &[Tree], weights: &AllWeights) -> i128
        requires few { length trees.now ≤ 40 }
        requires sets { HasSetPerTree trees.now self.now }
        requires weights { HasWeightPerNode trees.now weights.now }
        ensures value { result ≡ total_value self.now weights.now }
        ensures low { neg_ℤ (pos (8000 * 2 ^ 94)) ≤ℤ result }
        ensures high { result ≤ℤ pos (8000 * 2 ^ 94) }
    {
        let mut total = 0;
        for bidder in 0..trees.len() as u8 {
            total += self.value_of(trees, weights, bidder);
        }
        total
    }

    /// The sum of the lower values over the bidder's set.
    fn lower_value_of(&self, bounds: &[Bounds], bidder: u8) -> i64
        requires bidder { bidder < length bounds.now }
        requires nodes { AreChosen self.now bounds.now }
        ensures value { result
            ≡ value (set_of self.now bidder) (weights_of (lower_weights bounds.now) bidder) }
        ensures low { neg_ℤ (pos 200000000000) ≤ℤ result }
        ensures high { result ≤ℤ pos 200000000000 }
    {
        bounds[usize::from(bidder)].lower_value(self.of(bidder))
    }

    /// The sum of the lower values over the sets, at most 8,000,000,000,000 in size. There are at
    /// most 40 bounds, one of each bidder, with one lower value for each node. It takes no memory.
    pub fn lower_value(&self, bounds: &[Bounds]) -> i128
        requires few { length bounds.now ≤ 40 }
        requires nodes { AreChosen self.now bounds.now }
        ensures value { result ≡ total_value self.now (lower_weights bounds.now) }
        ensures low { neg_ℤ (pos 8000000000000) ≤ℤ result }
        ensures high { result ≤ℤ pos 8000000000000 }
    {
        let mut total = 0;
        for bidder in 0..bounds.len() as u8 {
            total += i128::from(self.lower_value_of(bounds, bidder));
        }
        total
    }
}
