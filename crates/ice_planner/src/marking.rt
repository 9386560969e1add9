//! A side: the marks of all trees, and what they decide.
ghost use Rattle.std.specs.Prelude.{◌≡◌, ◌≤◌, length, IfOk};
ghost use Rattle.ice_defs.specs.Conditions.{AreFixingsOf};

use crate::decided::Decided;
use ice_best::{Fixings, Mark};
use ice_bound::copy_fixings;
use ice_master::Master;
use ice_relaxation::Candidate;
use ice_tree::Tree;
use std::alloc::{AllocError, Global};

/// The marks of a side of at most 40 trees, what they decide, which trees have no set left, and at
/// which of them a master has yet to look.
#[derive(Drop)]
pub(crate) struct Marking<'a> {
    pub(crate) trees: &'a [Tree],
    pub(crate) marks: Fixings,
    decided: Vec<Decided>,
    dead: u64,
    unseen: u64,
    ghost few: { length trees.now ≤ 40 },
    ghost marked: { AreFixingsOf trees.now marks },
}

/// The bit of a bidder.
fn bit_of(bidder: u8) -> u64 {
    1 << (bidder % 64)
}

/// Works out what the marks of each tree decide. The answer has the bits of those that have no set
/// left.
fn decide_all(trees: &[Tree], marks: &Fixings, decided: &mut [Decided]) -> u64
    requires few { length trees.now ≤ 40 }
    requires marks { AreFixingsOf trees.now marks.now }
{
    let mut dead = 0;
    for bidder in 0..trees.len() as u8 {
        let place = usize::from(bidder);
        if let Some(decided) = decided.get_mut(place) {
            decided.fill(&trees[place], marks.of(bidder));
            if !decided.is_open() {
                dead |= bit_of(bidder);
            }
        }
    }
    dead
}

impl<'a> Marking<'a> {
    /// The side of these marks.
    pub(crate) fn new(
        alloc: Global,
        trees: &'a [Tree],
        start: &Fixings,
    ) -> Result<Marking<'a>, AllocError>
        requires few { length trees.now ≤ 40 }
        requires marks { AreFixingsOf trees.now start.now }
        ensures { IfOk result (λ m. m.trees.now ≡ trees.now) }
    {
        let mut marks = Fixings::free(alloc, trees)?;
        copy_fixings(&mut marks, start);
        let mut decided: Vec<Decided> = trees.iter().map(|_tree| Decided::new()).collect(alloc)?;
        let dead = decide_all(trees, &marks, &mut decided);
        Ok(Marking {
            trees,
            marks,
            decided,
            dead,
            unseen: u64::MAX,
        })
    }

    /// Takes notice of the marks of one tree.
    fn note(&mut self, bidder: u8)
        ensures { self.new.trees ≡ self.old.trees }
    {
        let place = usize::from(bidder);
        if place >= self.trees.len() {
            return;
        }
        let bit = bit_of(bidder);
        let trees = self.trees;
        self.unseen |= bit;
        self.dead &= !bit;
        if let Some(decided) = self.decided.get_mut(place) {
            decided.fill(&trees[place], self.marks.of(bidder));
            if !decided.is_open() {
                self.dead |= bit;
            }
        }
    }

    /// Has a master look at the trees whose marks have changed.
    pub(crate) fn show(&mut self, master: &mut Master)
        ensures { self.new.trees ≡ self.old.trees }
    {
        for bidder in 0..self.trees.len() as u8 {
            if self.unseen & bit_of(bidder) != 0 {
                let _is_open = master.look_at_tree(self.trees, &self.marks, bidder);
            }
        }
        self.unseen = 0;
    }

    /// Whether the node is there.
    fn has(&self, node: Candidate) -> bool {
        match self.trees.get(usize::from(node.bidder)) {
            Some(tree) => node.node < tree.nodes(),
            None => false,
        }
    }

    /// Gives a node another mark, where it is there.
    pub(crate) fn mark(&mut self, node: Candidate, mark: Mark)
        ensures { self.new.trees ≡ self.old.trees }
    {
        let place = usize::from(node.bidder);
        if place >= self.marks.len() || node.node >= self.marks.of(node.bidder).len() {
            return;
        }
        self.marks.mark(node.bidder, node.node, mark);
        self.note(node.bidder);
    }

    /// The mark of a node, or the one that it has as good as.
    pub(crate) fn mark_of(&self, node: Candidate) -> Mark {
        if !self.has(node) {
            return Mark::Never;
        }
        match self.decided.get(usize::from(node.bidder)) {
            Some(decided) => decided.mark_of(node.node),
            None => Mark::Never,
        }
    }

    /// Whether some tree has no set that meets the marks.
    pub(crate) fn is_dead(&self) -> bool {
        self.dead != 0
    }
}
