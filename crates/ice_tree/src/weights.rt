//! One weight for each node.
ghost use Rattle.std.specs.Prelude.{◌≡◌, ◌<◌, ◌≤◌, ◌≤ℤ◌, ◌*ℤ◌, length, map, replicate, slice_set, pos, neg_ℤ, IfOk};
ghost use Rattle.ice_defs.specs.Set.{weight_of, IsSmall};
ghost use Rattle.ice_defs.specs.Trade.{weights_of};
ghost use Rattle.ice_defs.specs.Weighing.{weighted_value, weighted_list, perturbed_list, lower_weights, weighted_weights, perturbed_weights};
ghost use Rattle.ice_tree.specs.Alike.{AreAlike, AreChosen};

use crate::assignment::Assignment;
use crate::bounds::{Bounds, list_of};
use crate::tree::Tree;
use arrayvec::ArrayVec;
use ice_set::NodeSet;
use std::alloc::{AllocError, Global};
use std::marker::Model;

/// One weight for each node of a tree, each at most 2^94 in size.
#[derive(Drop)]
pub struct Weights {
    weights: ArrayVec<i128, 200>,
}

impl Model for Weights {
    ghost use Rattle.std.specs.Prelude.{List, ℤ};
    ghost use Rattle.ice_defs.specs.Set.{AllSmall};

    ghost Value = { List ℤ };

    ghost view = { λ w. w.weights.items };

    ghost invariant = { λ w. AllSmall w.weights.items };
}

/// A value so many times, at most 100.
fn times(weight: u8, value: i64) -> i128
    requires weight { weight ≤ 100 }
    requires low { neg_ℤ (pos 1000000000) ≤ℤ value }
    requires high { value ≤ℤ pos 1000000000 }
    ensures value { result ≡ pos weight *ℤ value }
    ensures low { neg_ℤ (pos 100000000000) ≤ℤ result }
    ensures high { result ≤ℤ pos 100000000000 }
{
    i128::from(weight) * i128::from(value)
}

/// A value between the bounds, in hundredths.
fn weighted(weight: u8, lo: i64, hi: i64) -> i128
    requires weight { weight ≤ 100 }
    requires low { neg_ℤ (pos 1000000000) ≤ℤ lo }
    requires ordered { lo ≤ℤ hi }
    requires high { hi ≤ℤ pos 1000000000 }
    ensures value { result ≡ weighted_value weight lo hi }
    ensures small { IsSmall result }
{
    times(weight, lo) + times(100 - weight, hi)
}

impl Weights {
    /// Weights of 0, for so many nodes, at most 200.
    pub fn zero(nodes: u16) -> Weights
        requires { nodes ≤ 200 }
        ensures { result ≡ replicate nodes (pos 0) }
    {
        let mut weights = ArrayVec::new();
        for _n in 0..nodes {
            weights.push(0);
        }
        Weights { weights }
    }

    /// The node's weight.
    pub fn get(&self, node: u16) -> i128
        requires { node < length self.now }
        ensures value { result ≡ weight_of self.now node }
        ensures small { IsSmall result }
    {
        self.weights[node as usize]
    }

    /// Sets the node's weight.
    pub fn put(&mut self, node: u16, value: i128)
        requires node { node < length self.old }
        requires small { IsSmall value }
        ensures { self.new ≡ slice_set self.old node value }
    {
        self.weights[node as usize] = value;
    }

    /// The same weights once more.
    pub fn copy(&self) -> Weights
        ensures { result ≡ self.now }
    {
        Weights {
            weights: list_of(&self.weights),
        }
    }

    /// The weights of one bidder that a chosen set of its nodes perturbs: the lower value of each
    /// node inside, and the upper one of each node outside.
    pub fn perturbed(bounds: &Bounds, chosen: &NodeSet) -> Weights
        requires { length chosen.now ≡ length bounds.now.lo }
        ensures { result ≡ perturbed_list chosen.now bounds.now.lo bounds.now.hi }
    {
        let mut weights = Weights::zero(bounds.len());
        weights.fill_perturbed(bounds, chosen);
        weights
    }

    fn fill_lower(&mut self, bounds: &Bounds)
        requires { length self.old ≡ length bounds.now.lo }
        ensures value { self.new ≡ bounds.now.lo }
        ensures nodes { length self.new ≡ length self.old }
    {
        for node in 0..bounds.len() {
            self.put(node, i128::from(bounds.lo(node)));
        }
    }

    fn fill_weighted(&mut self, bounds: &Bounds, weight: u8)
        requires weight { weight ≤ 100 }
        requires nodes { length self.old ≡ length bounds.now.lo }
        ensures value { self.new ≡ weighted_list weight bounds.now.lo bounds.now.hi }
        ensures nodes { length self.new ≡ length self.old }
    {
        for node in 0..bounds.len() {
            self.put(node, weighted(weight, bounds.lo(node), bounds.hi(node)));
        }
    }

    fn fill_perturbed(&mut self, bounds: &Bounds, chosen: &NodeSet)
        requires nodes { length self.old ≡ length bounds.now.lo }
        requires chosen { length chosen.now ≡ length bounds.now.lo }
        ensures value { self.new ≡ perturbed_list chosen.now bounds.now.lo bounds.now.hi }
        ensures nodes { length self.new ≡ length self.old }
    {
        for node in 0..bounds.len() {
            self.put(node, i128::from(bounds.perturbed(chosen, node)));
        }
    }
}

/// The weights of every bidder's tree.
#[derive(Drop)]
pub struct AllWeights {
    weights: Vec<Weights>,
}

impl Model for AllWeights {
    ghost use Rattle.std.specs.Prelude.{List, ℤ};

    ghost Value = { List (List ℤ) };

    ghost view = { λ w. w.weights.items };
}

impl AllWeights {
    /// Weights of 0 for these trees, one of each bidder.
    pub fn new(alloc: Global, trees: &[Tree]) -> Result<AllWeights, AllocError>
        ensures { IfOk result (λ w. w ≡ map (λ t. replicate (length t) (pos 0)) trees.now) }
    {
        let weights = trees
            .iter()
            .map(|tree| Weights::zero(tree.nodes()))
            .collect(alloc)?;
        Ok(AllWeights { weights })
    }

    /// The same weights once more.
    pub fn copy(&self, alloc: Global) -> Result<AllWeights, AllocError>
        ensures { IfOk result (λ w. w ≡ self.now) }
    {
        let weights = self.weights.iter().map(|w| w.copy()).collect(alloc)?;
        Ok(AllWeights { weights })
    }

    /// The number of bidders.
    pub fn len(&self) -> usize
        ensures { result ≡ length self.now }
    {
        self.weights.len()
    }

    /// The weights of the bidder's tree.
    pub fn of(&self, bidder: u8) -> &Weights
        requires { bidder < length self.now }
        ensures { result.now ≡ weights_of self.now bidder }
    {
        &self.weights[bidder as usize]
    }

    /// Sets each weight to the lower value of its node. It takes no memory.
    pub fn fill_lower(&mut self, bounds: &[Bounds])
        requires { AreAlike self.old bounds.now }
        ensures value { self.new ≡ lower_weights bounds.now }
        ensures alike { AreAlike self.new bounds.now }
    {
        for bidder in 0..bounds.len() {
            self.weights[bidder].fill_lower(&bounds[bidder]);
        }
    }

    /// Sets each weight to `weight` times the lower value and `100 - weight` times the upper one;
    /// the weight is 0 to 100. It takes no memory.
    pub fn fill_weighted(&mut self, bounds: &[Bounds], weight: u8)
        requires weight { weight ≤ 100 }
        requires alike { AreAlike self.old bounds.now }
        ensures value { self.new ≡ weighted_weights weight bounds.now }
        ensures alike { AreAlike self.new bounds.now }
    {
        for bidder in 0..bounds.len() {
            self.weights[bidder].fill_weighted(&bounds[bidder], weight);
        }
    }

    /// Sets each weight to the lower value on the nodes of the chosen sets, and to the upper one
    /// elsewhere. It takes no memory.
    pub fn fill_perturbed(&mut self, bounds: &[Bounds], chosen: &Assignment)
        requires alike { AreAlike self.old bounds.now }
        requires chosen { AreChosen chosen.now bounds.now }
        ensures value { self.new ≡ perturbed_weights chosen.now bounds.now }
        ensures alike { AreAlike self.new bounds.now }
    {
        for bidder in 0..bounds.len() {
            self.weights[bidder].fill_perturbed(&bounds[bidder], chosen.set(bidder));
        }
    }
}
