//! The relaxation of a side, worked out quickly: what the steps of a search are guided by.
ghost use Rattle.std.specs.Prelude.{◌≡◌, ◌<◌, ◌≤◌, length, IfOk};
ghost use Rattle.ice_defs.specs.Conditions.{AreWeightsOf, AreFixingsOf};

use crate::number::Number;
use crate::openness::Openness;
use crate::operation::bit_of;
use crate::operations::Operations;
use crate::profile::Profile;
use ice_best::{Fixings, Mark};
use ice_tree::{AllWeights, Tree};
use std::alloc::{AllocError, Global};
use std::marker::Model;

/// What is seen at multipliers.
#[derive(Clone, Copy)]
pub struct Sight {
    /// The sum of the greatest nets, in 64ths.
    pub total: i128,
    /// By how many units more of each good is bought than sold.
    pub excess: [i64; 32],
}

/// The relaxation of a side: each tree under its marks, made ready to be worked out at many
/// multipliers, and how often each node was taken. It is seen as the number of trees: what it says
/// is a guide, which decides nothing.
///
/// Only `new` takes memory.
#[derive(Drop)]
pub struct Relaxation {
    pub(crate) trees: Vec<Operations>,
    /// For each good, a bit for each tree that may buy or sell it.
    holders: [u64; 32],
    openness: Openness,
    weight: u32,
}

/// Notes which goods a tree may buy or sell.
fn note_holder(holders: &mut [u64; 32], bidder: u8, goods: u32) {
    let bit = 1 << (bidder % 64);
    for good in 0..32_u8 {
        let holders = &mut holders[usize::from(good)];
        if goods & bit_of(good) == 0 {
            *holders &= !bit;
        } else {
            *holders |= bit;
        }
    }
}

impl Model for Relaxation {
    ghost use Rattle.std.specs.Prelude.{ℕ, vec_len};

    ghost Value = { ℕ };

    ghost view = { λ r. vec_len r.trees };
}

impl Relaxation {
    /// Room for these trees.
    pub fn new(alloc: Global, trees: &[Tree]) -> Result<Relaxation, AllocError>
        ensures { IfOk result (λ relaxation. relaxation ≡ length trees.now) }
    {
        let trees = vec![in alloc; Operations::new(); trees.len()]?;
        Ok(Relaxation {
            trees,
            holders: [0; 32],
            openness: Openness::new(),
            weight: 0,
        })
    }

    /// Looks at the side of these marks. All looks are at the same trees and weights. Time: some
    /// passes over the nodes of the trees whose marks aren't those of the last look.
    pub fn look_at(&mut self, trees: &[Tree], weights: &AllWeights, marks: &Fixings)
        requires few { length trees.now ≤ 40 }
        requires weights { AreWeightsOf trees.now weights.now }
        requires marks { AreFixingsOf trees.now marks.now }
        requires same { self.old ≡ length trees.now }
        ensures { self.new ≡ self.old }
    {
        for bidder in 0..trees.len() as u8 {
            self.look_at_tree(trees, weights, marks, bidder);
        }
    }

    /// Looks at new marks of one tree. Time: some passes over its nodes.
    pub fn look_at_tree(
        &mut self,
        trees: &[Tree],
        weights: &AllWeights,
        marks: &Fixings,
        bidder: u8,
    )
        requires few { length trees.now ≤ 40 }
        requires weights { AreWeightsOf trees.now weights.now }
        requires marks { AreFixingsOf trees.now marks.now }
        requires same { self.old ≡ length trees.now }
        requires bidder { bidder < length trees.now }
        ensures { self.new ≡ self.old }
    {
        self.fill(trees, weights, marks, bidder, None);
    }

    /// Looks at the marks of one tree where one node has another mark. Time: some passes over its
    /// nodes.
    pub fn look_at_child(
        &mut self,
        trees: &[Tree],
        weights: &AllWeights,
        marks: &Fixings,
        bidder: u8,
        node: u16,
        mark: Mark,
    )
        requires few { length trees.now ≤ 40 }
        requires weights { AreWeightsOf trees.now weights.now }
        requires marks { AreFixingsOf trees.now marks.now }
        requires same { self.old ≡ length trees.now }
        requires bidder { bidder < length trees.now }
        ensures { self.new ≡ self.old }
    {
        self.fill(trees, weights, marks, bidder, Some((node, mark)));
    }

    /// Looks at one tree, of which one node may have another mark.
    fn fill(
        &mut self,
        trees: &[Tree],
        weights: &AllWeights,
        marks: &Fixings,
        bidder: u8,
        trial: Option<(u16, Mark)>,
    )
        requires few { length trees.now ≤ 40 }
        requires weights { AreWeightsOf trees.now weights.now }
        requires marks { AreFixingsOf trees.now marks.now }
        requires same { self.old ≡ length trees.now }
        requires bidder { bidder < length trees.now }
        ensures { self.new ≡ self.old }
    {
        let place = usize::from(bidder);
        let tree = &trees[place];
        let fixing = marks.of(bidder);
        if self.trees[place].are_of(fixing, trial) {
            return;
        }
        self.openness.fill(tree, fixing, trial);
        self.trees[place].fill(tree, weights.of(bidder), &self.openness);
        self.trees[place].keep_marks(fixing, trial);
        note_holder(&mut self.holders, bidder, self.trees[place].goods());
    }

    /// Sets the counts of all nodes to 0.
    pub fn clear(&mut self)
        ensures { self.new ≡ self.old }
    {
        for tree in self.trees.iter_mut() {
            tree.clear();
        }
        self.weight = 0;
    }

    /// What is seen at the multipliers. The weight is added to the count of each node that is
    /// taken.
    pub fn evaluate(&mut self, m: &[i64; 32], weight: u32) -> Sight
        ensures { self.new ≡ self.old }
    {
        let mut sight = Sight {
            total: 0,
            excess: [0; 32],
        };
        for tree in self.trees.iter_mut() {
            let net = tree.evaluate(m);
            sight.total = sight.total.saturating_add(i128::from(net));
            tree.take(weight, &mut sight.excess);
        }
        self.weight = self.weight.saturating_add(weight);
        sight
    }

    /// Works out all trees at the profile's multipliers, and counts nothing.
    pub fn stand_at(&mut self, profile: &Profile)
        ensures { self.new ≡ self.old }
    {
        for tree in self.trees.iter_mut() {
            tree.evaluate(&profile.m);
        }
    }

    /// Makes the profile that of a good, whose multiplier is 0. The rows of the trees stand at the
    /// profile's multipliers.
    pub fn fill_profile(&mut self, profile: &mut Profile, good: u8)
        ensures { self.new ≡ self.old }
    {
        profile.begin(good);
        let mut holders = self.holders[usize::from(good % 32)];
        for _tree in 0..holders.count_ones() {
            let place = holders.trailing_zeros();
            holders &= holders.wrapping_sub(1);
            if let Some(tree) = self.trees.get_mut(place as usize) {
                if !profile.tell(tree) {
                    profile.others |= 1 << (place % 64);
                    if tree.is_flat() {
                        tree.evaluate(&profile.m);
                    }
                }
            }
        }
    }

    /// The sum of the greatest nets of these trees. The multiplier of the profile's good alone may
    /// be another than at the last time.
    fn part_at(&mut self, trees: u64, profile: &Profile) -> i128
        ensures { self.new ≡ self.old }
    {
        let mut total: i128 = 0;
        let mut left = trees;
        for _tree in 0..trees.count_ones() {
            let place = left.trailing_zeros() as usize;
            left &= left.wrapping_sub(1);
            if let Some(tree) = self.trees.get_mut(place) {
                let net = tree.evaluate_good(&profile.m, profile.good);
                total = total.saturating_add(i128::from(net));
            }
        }
        total
    }

    /// The sum of the greatest nets of the trees that may buy or sell the profile's good, at a
    /// multiplier of it.
    pub fn sum_at(&mut self, profile: &mut Profile, multiplier: i64) -> i128
        ensures { self.new ≡ self.old }
    {
        let told = profile.sum_at(multiplier);
        if profile.others == 0 {
            return told;
        }
        profile.put(multiplier);
        told.saturating_add(self.part_at(profile.others, profile))
    }

    /// Leaves the profile and the trees at a multiplier of the profile's good: the rows of those
    /// that the profile tells, and what is above them with the next profile.
    pub fn leave_at(&mut self, profile: &mut Profile, multiplier: i64)
        ensures { self.new ≡ self.old }
    {
        profile.put(multiplier);
        self.part_at(profile.others, profile);
        let mut told = self.holders[usize::from(profile.good % 32)] & !profile.others;
        for _tree in 0..told.count_ones() {
            let place = told.trailing_zeros() as usize;
            told &= told.wrapping_sub(1);
            if let Some(tree) = self.trees.get_mut(place) {
                tree.renew_rows(&profile.m, profile.good);
            }
        }
    }

    /// How near the operation's node was to being taken half of the time: the count of the times
    /// that it was taken, or of those that it wasn't, whichever is less.
    pub(crate) fn halfness(&self, bidder: u8, number: Number) -> u32
        requires { bidder < self.now }
    {
        let count = self.trees[usize::from(bidder)].count_of(number);
        count.min(self.weight.saturating_sub(count))
    }
}
