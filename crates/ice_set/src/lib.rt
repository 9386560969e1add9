//! Sets of the nodes of one tree.
#![tactic(auto)]

ghost use Rattle.std.specs.Prelude.{◌≡◌, ◌<◌, ◌≤◌, ◌↔◌, IsTrue, false, length, replicate, slice_set};
ghost use Rattle.ice_defs.specs.Set.{has};
ghost use Rattle.ice_defs.specs.Vickrey.{IsEmpty};

mod word;

use crate::word::{bit, with_bit};
use std::marker::Model;

/// A set of the nodes of one tree, seen as one truth value per node. It takes no memory.
#[derive(Clone, Copy, Debug)]
pub struct NodeSet {
    words: [u64; 4],
    len: u16,
}

impl Model for NodeSet {
    ghost use Rattle.std.specs.Prelude.{List, Bool, length};
    ghost use Rattle.ice_set.specs.Words.{bits_of, words_of, ArePacked};
    ghost use Rattle.ice_set.specs.Bits.{length-bits_of};
    ghost use Rattle.ice_set.specs.Packing.{words_of-bits_of};

    ghost Value = { List Bool };

    ghost view = { λ s. bits_of s.words s.len };

    ghost invariant = { λ s. ArePacked s.words s.len };

    ghost inverse = { λ bits. record { words = words_of bits; len = length bits } };

    ghost inverse_ok = { λ s h i. record {
      words = words_of-bits_of s.words s.len h i;
      len = length-bits_of s.words s.len i;
    } };
}

impl PartialEq for NodeSet {
    ghost use Rattle.std.specs.Bool.{beq};
    ghost use Rattle.std.specs.Cmp.{bool_eq_equiv, partial_equiv_from_equiv};
    ghost use Rattle.std.specs.Cmp.Lexicographic.{pointwise};
    ghost use Rattle.std.proofs.lemmas.Cmp.{lists_equiv};

    ghost eq = { pointwise beq };

    ghost laws = { partial_equiv_from_equiv (lists_equiv bool_eq_equiv) };

    fn eq(&self, other: &NodeSet) -> bool {
        self.len == other.len && self.words == other.words
    }
}

impl Eq for NodeSet {
    ghost use Rattle.std.specs.Cmp.{bool_eq_equiv};
    ghost use Rattle.std.proofs.lemmas.Cmp.{lists_equiv};

    ghost laws = { lists_equiv bool_eq_equiv };
}

impl NodeSet {
    /// The empty set of a tree with this many nodes, at most 200.
    pub fn empty(nodes: u16) -> NodeSet
        requires { nodes ≤ 200 }
        ensures { result ≡ replicate nodes false }
    {
        NodeSet {
            words: [0; 4],
            len: nodes,
        }
    }

    /// The number of nodes of the tree, inside and outside.
    pub fn len(&self) -> u16
        ensures value { result ≡ length self.now }
        ensures fits { result ≤ 200 }
    {
        self.len
    }

    /// Whether the node is inside.
    pub fn has(&self, node: u16) -> bool
        requires { node < length self.now }
        ensures { result ≡ has self.now node }
    {
        bit(self.words[node as usize / 64], node % 64)
    }

    /// Puts the node inside or outside.
    pub fn put(&mut self, node: u16, on: bool)
        requires { node < length self.old }
        ensures { self.new ≡ slice_set self.old node on }
    {
        let place = node as usize / 64;
        self.words[place] = with_bit(self.words[place], node % 64, on);
    }

    /// Whether no node is inside.
    pub fn is_empty(&self) -> bool
        ensures { IsTrue result ↔ IsEmpty self.now }
    {
        self.words == [0; 4]
    }
}
