//! The bidders of an exchange.
ghost use Rattle.std.specs.Prelude.{◌≡◌, ◌≤◌, ◌<◌, ◌+◌, ◌++◌, [], ◌∷◌, IfOk, length, map, slice_index, slice_index_or};
ghost use Rattle.std.specs.List.{position};
ghost use Rattle.std.specs.Str.{bytes_eq};
ghost use Rattle.ice_defs.specs.Making.{node_count};

use crate::names::number_of;
use crate::owned::Owned;
use ice_defs::MOST_BIDDERS;
use ice_terms::Name;
use ice_tree::{Bounds, Tree};
use std::alloc::{AllocError, Global};
use std::marker::Model;

/// At most 40 bidders, numbered from 0 on, each with its name, its owned amounts, its tree and its
/// opening bounds.
#[derive(Drop)]
pub(crate) struct Bidders {
    names: Vec<Name>,
    owned: Vec<Owned>,
    trees: Vec<Tree>,
    bounds: Vec<Bounds>,
    nodes: u16,
}

impl Model for Bidders {
    ghost use Rattle.std.specs.Prelude.{List};
    ghost use Rattle.ice_defs.specs.Exchange.{Bidder};

    ghost Value = { List Bidder };

    ghost use Rattle.ice_trade.specs.Bidders.{bidders_of, AreBidders};

    ghost view = { bidders_of };

    ghost invariant = { AreBidders };
}

#[tactic(auto, using(crate::proofs::Aligning::bidders))]
impl Bidders {
    /// No bidders yet, with the memory for 40.
    pub(crate) fn new(alloc: Global) -> Result<Bidders, AllocError>
        ensures { IfOk result (λ t. t ≡ []) }
    {
        let most = usize::from(MOST_BIDDERS);
        Ok(Bidders {
            names: Vec::with_capacity(alloc, most)?,
            owned: Vec::with_capacity(alloc, most)?,
            trees: Vec::with_capacity(alloc, most)?,
            bounds: Vec::with_capacity(alloc, most)?,
            nodes: 0,
        })
    }

    /// How many bidders there are.
    pub(crate) fn len(&self) -> u8
        ensures value { result ≡ length self.now }
        ensures fits { result ≤ 40 }
    {
        self.trees.len() as u8
    }

    /// How many nodes their trees have together.
    pub(crate) fn nodes(&self) -> u16
        ensures value { result ≡ node_count self.now }
        ensures fits { result ≤ 2000 }
    {
        self.nodes
    }

    /// The number of the bidder with this name.
    pub(crate) fn find(&self, name: &str) -> Option<u8>
        ensures { result ≡ position (bytes_eq name.now) (map (λ bidder. bidder.name) self.now) }
    {
        let number = number_of(&self.names, name)?;
        Some(number as u8)
    }

    /// The name of a bidder.
    pub(crate) fn name(&self, bidder: u8) -> &Name
        requires { bidder < length self.now }
        ensures { result.now ≡ slice_index_or (map (λ bidder. bidder.name) self.now) bidder [] }
    {
        &self.names[bidder as usize]
    }

    /// What a bidder owns of a good.
    pub(crate) fn owns(&self, bidder: u8, good: u8) -> u32
        requires bidder { bidder < length self.now }
        requires good { good < length
            (slice_index_or (map (λ bidder. bidder.own) self.now) bidder []) }
        ensures { result
            ≡ slice_index (slice_index_or (map (λ bidder. bidder.own) self.now) bidder [])
            good }
    {
        self.owned[bidder as usize].get(good)
    }

    /// Their trees.
    pub(crate) fn trees(&self) -> &[Tree]
        ensures { result.now ≡ map (λ bidder. bidder.tree) self.now }
    {
        &self.trees
    }

    /// Their opening bounds.
    pub(crate) fn bounds(&self) -> &[Bounds]
        ensures { result.now ≡ map (λ bidder. bidder.bounds) self.now }
    {
        &self.bounds
    }

    /// Adds a bidder. It takes no memory.
    pub(crate) fn push(&mut self, name: Name, own: &[u32], tree: Tree, bounds: Bounds)
        requires room { length self.old < 40 }
        requires goods { length own.now ≤ 32 }
        requires nodes { node_count self.old + length tree ≤ 2000 }
        ensures { self.new ≡ self.old ++ record {
          name = name;
          own = own.now;
          tree = tree;
          bounds =
              bounds;
        } ∷ [] }
    {
        self.nodes += tree.nodes();
        self.names.push(name).unwrap();
        self.owned.push(Owned::new(own)).unwrap();
        self.trees.push(tree).unwrap();
        self.bounds.push(bounds).unwrap();
    }
}
