//! Sets of nodes, and how often nodes are split.

use ice_relaxation::Candidate;
use std::alloc::{AllocError, Global};

/// A bidder's tree has at most so many nodes ..
const NODES: usize = 200;
/// .. and a market at most 40 bidders, so that there are so many places for nodes.
const PLACES: usize = 8000;
/// Their words of 64 bits.
const WORDS: usize = 125;

/// The place of a node: that of no other, where it is there.
fn place_of(node: Candidate) -> usize {
    usize::from(node.bidder) * NODES + usize::from(node.node)
}

/// The bit of a place in its word.
fn bit_of(place: usize) -> u64 {
    1 << (place % 64)
}

/// A set of nodes.
#[derive(Clone, Copy)]
pub(crate) struct NodeSet {
    words: [u64; WORDS],
}

impl NodeSet {
    /// The set with none.
    pub(crate) const EMPTY: NodeSet = NodeSet { words: [0; 125] };

    /// Puts a node in.
    pub(crate) fn insert(&mut self, node: Candidate) {
        let place = place_of(node);
        if let Some(word) = self.words.get_mut(place / 64) {
            *word |= bit_of(place);
        }
    }

    /// Takes a node out.
    pub(crate) fn remove(&mut self, node: Candidate) {
        let place = place_of(node);
        if let Some(word) = self.words.get_mut(place / 64) {
            *word &= !bit_of(place);
        }
    }

    /// Whether it has the node.
    pub(crate) fn contains(&self, node: Candidate) -> bool {
        let place = place_of(node);
        match self.words.get(place / 64) {
            Some(word) => *word & bit_of(place) != 0,
            None => false,
        }
    }

    /// Whether it has none.
    pub(crate) fn is_empty(&self) -> bool {
        self.words.iter().all(|word| *word == 0)
    }

    /// The nodes that are in both.
    pub(crate) fn both(&self, other: &NodeSet) -> NodeSet {
        let mut both = NodeSet::EMPTY;
        for place in 0..WORDS {
            both.words[place] = self.words[place] & other.words[place];
        }
        both
    }

    /// The nodes that are in just one of both.
    pub(crate) fn in_one(&self, other: &NodeSet) -> NodeSet {
        let mut in_one = NodeSet::EMPTY;
        for place in 0..WORDS {
            in_one.words[place] = self.words[place] ^ other.words[place];
        }
        in_one
    }
}

/// How often each node is in a list.
#[derive(Drop)]
pub(crate) struct Counts {
    counts: Vec<u32>,
}

impl Counts {
    /// The counts of a list.
    pub(crate) fn of(alloc: Global, nodes: &[Candidate]) -> Result<Counts, AllocError> {
        let mut counts = vec![in alloc; 0_u32; PLACES]?;
        for node in nodes {
            if let Some(count) = counts.get_mut(place_of(*node)) {
                *count = count.saturating_add(1);
            }
        }
        Ok(Counts { counts })
    }

    /// That of a node.
    pub(crate) fn get(&self, node: Candidate) -> u32 {
        self.counts.get(place_of(node)).copied().unwrap_or(0)
    }
}
