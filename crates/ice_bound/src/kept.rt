//! Bounds of one list of trees that are kept at hand while marks and multipliers change.
ghost use Rattle.std.specs.Prelude.{◌≡◌, ℕ, ◌<◌, ◌≤◌, length, map, replicate, slice_set, pos, ℤ, ◌≤ℤ◌, IfOk, IsTrue, ◌↔◌};
ghost use Rattle.ice_defs.specs.declared.Mark.TheVariants.{Free};
ghost use Rattle.ice_defs.specs.Bound.{IsNetSum};
ghost use Rattle.ice_defs.specs.Sweep.{IsLive};
ghost use Rattle.ice_bound.specs.Beside.{beside, with_beside};
ghost use Rattle.ice_bound.specs.Multipliers.{multiplier_of, IsInRange};
ghost use Rattle.ice_defs.specs.Log.{IsMultiplier};
ghost use Rattle.ice_defs.specs.Steps.{with_mark};
ghost use Rattle.ice_defs.specs.Trade.{tree_of, set_of, is_exact, total_value};
ghost use Rattle.ice_bound.specs.Answer.{IsAnswer, IsAboveAll};
ghost use Rattle.ice_defs.specs.Conditions.{AreWeightsOf, AreFixingsOf, AreMultipliersOf};
ghost use Rattle.ice_bound.specs.Kept.{IsNetAnswer, IsSumOfNets, AreRelaxedSets, IsSmallNet, IsSumOf, net_of};
ghost use Rattle.ice_tree.specs.Units.{AreTotalUnits};

use crate::answer::{Bound, NetSum};
use crate::beside::Beside;
use crate::bounds::floor_64th;
use crate::copy::copy_fixings;
use crate::direction::Direction;
use crate::found::Found;
use crate::leaves::{Leaves, all_leaves};
use crate::marked::MarkedTrees;
use crate::multipliers::Multipliers;
use ice_best::{Fixings, Mark};
use ice_tree::{AllWeights, Assignment, TotalUnits, Tree};
use std::alloc::{AllocError, Global};
use std::marker::Model;

/// The bound of one list of trees at weights that stay, kept at hand while marks and multipliers
/// change. For each bidder that isn't dead it has a relaxed set: a satisfied set that meets the
/// bidder's fixing and has the greatest net.
///
/// Only `new` takes memory.
pub struct Kept<'a> {
    trees: &'a [Tree],
    weights: &'a AllWeights,
    leaves: Vec<Leaves>,
    marks: Fixings,
    m: Multipliers,
    found: Found,
}

// By hand, so that each exit that drops one has one call to prove, and not all its parts.
impl Drop for Kept<'_> {
    fn drop(self) {
        let Kept {
            trees: _,
            weights: _,
            leaves: _,
            marks: _,
            m: _,
            found: _,
        } = self;
    }
}

impl<'a> Model for Kept<'a> {
    ghost use Rattle.ice_bound.specs.Kept.{Standing, IsKept};

    ghost Value = { Standing };

    ghost view = { λ k. record {
      trees = k.trees.now;
      weights = k.weights.now;
      marks = k.marks;
      multipliers = k.m;
      exact = k.found.exact;
      sets = k.found.sets;
    } };

    ghost invariant = { λ k. IsKept (record {
      trees = k.trees.now;
      weights = k.weights.now;
      marks = k.marks;
      multipliers = k.m;
      exact = k.found.exact;
      sets = k.found.sets;
    }) k.found.nets.items k.leaves.items k.found.tables.items };
}

/// The sum of the nets, or the first place without one.
fn sum_of(nets: &[Option<i128>]) -> NetSum
    requires few { length nets.now ≤ 40 }
    requires small { (b : ℕ) → b < length nets.now → IsSmallNet (net_of nets.now b) }
    ensures sum { IsSumOf nets.now result }
{
    let mut total: i128 = 0;
    for bidder in 0..nets.len() as u8 {
        match nets[bidder as usize] {
            Some(net) => total += net,
            None => return NetSum::Dead(bidder),
        }
    }
    NetSum::Sum(total)
}

/// What the sets are worth together at the weights.
fn value_of(trees: &[Tree], sets: &Assignment, weights: &AllWeights) -> i128
    requires few { length trees.now ≤ 40 }
    requires sets { length sets.now ≡ length trees.now }
    requires nodes { (b : ℕ) → b < length trees.now → length (set_of sets.now b) ≡ length
        (tree_of trees.now b) }
    requires weights { AreWeightsOf trees.now weights.now }
    ensures { result ≡ total_value sets.now weights.now }
{
    let mut total: i128 = 0;
    for bidder in 0..trees.len() as u8 {
        let tree = &trees[bidder as usize];
        total += tree.value(sets.of(bidder), weights.of(bidder));
    }
    total
}

/// One more, or one less.
fn step_beside(number: i64, direction: Direction) -> i64
    requires { IsInRange number }
    ensures { result ≡ beside direction number }
{
    match direction {
        Direction::Up => number + 1,
        Direction::Down => number - 1,
    }
}

impl<'a> Kept<'a> {
    /// Keeps these trees and weights, with all nodes free and all multipliers 0. There is one truth
    /// value for each good: whether it is exact. Takes all the memory that is needed.
    ///
    /// There are at most 40 trees and at most 32 goods, and each weight is at most 100,000,000,000
    /// in size.
    pub fn new(
        alloc: Global,
        trees: &'a [Tree],
        weights: &'a AllWeights,
        exact: &[bool],
    ) -> Result<Kept<'a>, AllocError>
        requires few { length trees.now ≤ 40 }
        requires goods { length exact.now ≤ 32 }
        requires weights { AreWeightsOf trees.now weights.now }
        // What is kept.
        ensures trees { IfOk result (λ k. k.trees ≡ trees.now) }
        ensures weights { IfOk result (λ k. k.weights ≡ weights.now) }
        ensures marks { IfOk result (λ k. k.marks ≡ map (λ t. replicate (length t) Free)
            trees.now) }
        ensures multipliers { IfOk result (λ k. k.multipliers ≡ replicate (length exact.now)
            (pos 0)) }
        ensures exact { IfOk result (λ k. k.exact ≡ exact.now) }
    {
        let leaves = all_leaves(alloc, trees)?;
        let marks = Fixings::free(alloc, trees)?;
        let m = Multipliers::zero(exact.len() as u8);
        let mut found = Found::new(alloc, trees, exact)?;
        found.renew_all(trees, weights, &m, &marks);
        Ok(Kept {
            trees,
            weights,
            leaves,
            marks,
            m,
            found,
        })
    }

    /// The trees, one for each bidder, at most 40.
    pub fn trees(&self) -> &'a [Tree]
        ensures value { result.now ≡ self.now.trees }
        ensures few { length self.now.trees ≤ 40 }
    {
        self.trees
    }

    /// The weights, one list for each bidder.
    pub fn weights(&self) -> &'a AllWeights
        ensures value { result.now ≡ self.now.weights }
        ensures fit { AreWeightsOf self.now.trees self.now.weights }
    {
        self.weights
    }

    /// The number of bidders.
    pub fn len(&self) -> u8
        ensures value { result ≡ length self.now.trees }
        ensures fits { result ≤ 40 }
    {
        self.trees.len() as u8
    }

    /// Whether the good is exact.
    pub fn is_exact(&self, good: u8) -> bool
        requires { good < length self.now.exact }
        ensures { result ≡ is_exact self.now.exact good }
    {
        self.found.exact.is_exact(good)
    }

    /// The marks, one fixing for each bidder.
    pub fn marks(&self) -> &Fixings
        ensures value { result.now ≡ self.now.marks }
        ensures fit { AreFixingsOf self.now.trees self.now.marks }
    {
        &self.marks
    }

    /// The multipliers, one for each good.
    pub fn multipliers(&self) -> &Multipliers
        ensures value { result.now ≡ self.now.multipliers }
        ensures fit { AreMultipliersOf self.now.exact self.now.multipliers }
    {
        &self.m
    }

    /// The relaxed sets, one for each bidder that isn't dead. Where several sets of a bidder have
    /// the greatest net it may be any of them. What stands in the place of a dead bidder does not
    /// matter.
    pub fn sets(&self) -> &Assignment
        ensures value { result.now ≡ self.now.sets }
        ensures relaxed { AreRelaxedSets self.now }
    {
        &self.found.sets
    }

    /// The units of the relaxed sets, one sum for each good. Time: one pass over the nodes.
    pub fn units(&self) -> TotalUnits
        ensures { AreTotalUnits self.now.trees self.now.sets result }
    {
        TotalUnits::of(self.trees, &self.found.sets)
    }

    /// What the relaxed sets are worth together. Time: one pass over the nodes.
    pub fn sets_value(&self) -> i128
        ensures { result ≡ total_value self.now.sets self.now.weights }
    {
        value_of(self.trees, &self.found.sets, self.weights)
    }

    /// The sum of the bidders' greatest nets, in 64ths, which is the sum of the relaxed sets' nets;
    /// or the first bidder that has no satisfied set that meets its fixing.
    pub fn net_sum(&self) -> NetSum
        ensures answer { IsNetAnswer self.now.trees self.now.weights self.now.multipliers
            self.now.marks result }
        ensures sets { IsSumOfNets self.now result }
    {
        sum_of(&self.found.nets)
    }

    /// The bound of the trees, weights, marks and multipliers as they stand. See `bound`.
    pub fn bound(&self) -> Bound
        ensures answer { IsAnswer self.now.trees self.now.weights self.now.multipliers
            self.now.marks result }
        ensures above { IsAboveAll self.now.trees self.now.exact self.now.weights self.now.marks
            result }
    {
        match sum_of(&self.found.nets) {
            NetSum::Dead(bidder) => Bound::Dead(bidder),
            NetSum::Sum(total) => Bound::AtMost(floor_64th(total)),
        }
    }

    /// Gives a node of a bidder's tree another mark. Time: a pass over the children, and a sort of
    /// them, of this node and of each above it, up to one that adds as much as before, and must and
    /// may be inside as before; and a step for each node of the tree, which reads the relaxed set.
    pub fn mark(&mut self, bidder: u8, node: u16, mark: Mark)
        requires bidder { bidder < length self.old.trees }
        requires node { node < length (tree_of self.old.trees bidder) }
        ensures trees { self.new.trees ≡ self.old.trees }
        ensures weights { self.new.weights ≡ self.old.weights }
        ensures marks { self.new.marks ≡ with_mark self.old.marks bidder node mark }
        ensures multipliers { self.new.multipliers ≡ self.old.multipliers }
        ensures exact { self.new.exact ≡ self.old.exact }
    {
        let trees = self.trees;
        self.marks.mark(bidder, node, mark);
        self.found.renew_mark(bidder, &trees[bidder as usize], self.marks.of(bidder), node);
    }

    /// Gives a good another multiplier, from -2^56 to 2^56, and 0 or more where the good isn't
    /// exact. Time: in each tree that has a leaf of the good, one pass over the leaves of it and
    /// the nodes above them.
    pub fn put_multiplier(&mut self, good: u8, number: i64)
        requires good { good < length self.old.exact }
        requires number { IsMultiplier (is_exact self.old.exact good) number }
        ensures trees { self.new.trees ≡ self.old.trees }
        ensures weights { self.new.weights ≡ self.old.weights }
        ensures marks { self.new.marks ≡ self.old.marks }
        ensures multipliers { self.new.multipliers ≡ slice_set self.old.multipliers good number }
        ensures exact { self.new.exact ≡ self.old.exact }
    {
        let marked = MarkedTrees {
            trees: self.trees,
            weights: self.weights,
            marks: &self.marks,
            leaves: &self.leaves,
        };
        self.found.renew_good(&marked, &mut self.m, good, number);
    }

    /// Whether the sum of the bidders' greatest nets would be at least this where the good's
    /// multiplier was one more (up), or one less (down). No bidder is dead, and the multiplier
    /// stays in its range. What is kept stays: the table of a tree with a leaf of the good is moved
    /// to that multiplier and back, tree by tree until the answer is known.
    pub fn reaches_beside(&mut self, good: u8, direction: Direction, least: i128) -> bool
        requires good { good < length self.old.exact }
        requires live { IsLive self.old.trees self.old.marks }
        requires range { IsInRange (beside direction (multiplier_of self.old.multipliers good)) }
        ensures answer { (total : ℤ) → IsNetSum self.old.trees self.old.weights (with_beside
            self.old.multipliers good direction) self.old.marks total → IsTrue result
            ↔ (least ≤ℤ total) }
        ensures same { self.new ≡ self.old }
    {
        let mut moved = self.m.copy();
        let number = step_beside(self.m.get(good), direction);
        moved.put(good, number);
        let found = &mut self.found;
        let beside = Beside {
            trees: self.trees,
            weights: self.weights,
            marks: &self.marks,
            m: &self.m,
            moved: &moved,
            nets: &found.nets,
            sets: &found.sets,
            leaves: &self.leaves,
            good,
            direction,
        };
        beside.reaches(least, &mut found.tables, &mut *found.scratch)
    }

    /// Gives all goods these multipliers. Time: one pass over each tree, unless they are those that
    /// are kept.
    pub fn put_multipliers(&mut self, m: &Multipliers)
        requires { AreMultipliersOf self.old.exact m.now }
        ensures trees { self.new.trees ≡ self.old.trees }
        ensures weights { self.new.weights ≡ self.old.weights }
        ensures marks { self.new.marks ≡ self.old.marks }
        ensures multipliers { self.new.multipliers ≡ m.now }
        ensures exact { self.new.exact ≡ self.old.exact }
    {
        if self.m.is_same(m) {
            return;
        }
        self.m = m.copy();
        self.found
            .renew_all(self.trees, self.weights, &self.m, &self.marks);
    }

    /// Takes these marks and multipliers in the place of all others. Time: one pass over each tree.
    pub fn put_side(&mut self, marks: &Fixings, m: &Multipliers)
        requires marks { AreFixingsOf self.old.trees marks.now }
        requires multipliers { AreMultipliersOf self.old.exact m.now }
        ensures trees { self.new.trees ≡ self.old.trees }
        ensures weights { self.new.weights ≡ self.old.weights }
        ensures marks { self.new.marks ≡ marks.now }
        ensures multipliers { self.new.multipliers ≡ m.now }
        ensures exact { self.new.exact ≡ self.old.exact }
    {
        copy_fixings(&mut self.marks, marks);
        self.m = m.copy();
        self.found
            .renew_all(self.trees, self.weights, &self.m, &self.marks);
    }
}
