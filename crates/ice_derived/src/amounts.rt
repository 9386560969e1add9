//! What the nodes of the trees take of one derived good.
ghost use Rattle.std.specs.Prelude.{◌≡◌, ◌<◌, ◌≤◌, length, map, replicate, pos, slice_set, IfOk};
ghost use Rattle.ice_defs.specs.Trade.{weights_of};
ghost use Rattle.ice_derived.specs.Ranges.{IsAmount, AreAmounts, AreAllAmounts};

use ice_tree::{Tree, Weights};
use std::alloc::{AllocError, Global};
use std::marker::Model;

/// What each node of each bidder's tree takes of one derived good, at most 2^20 in size.
#[derive(Drop)]
pub struct Amounts {
    rows: Vec<Weights>,
}

impl Model for Amounts {
    ghost use Rattle.std.specs.Prelude.{List, ℤ};
    ghost use Rattle.ice_derived.specs.Ranges.{AreAllAmounts};

    ghost Value = { List (List ℤ) };

    ghost view = { λ a. a.rows.items };

    ghost invariant = { λ a. AreAllAmounts a.rows.items };
}

/// A weight of 0 for each node of the trees.
pub(crate) fn zero_rows(alloc: Global, trees: &[Tree]) -> Result<Vec<Weights>, AllocError>
    ensures { IfOk result (λ rows. rows.items
        ≡ map (λ t. replicate (length t) (pos 0)) trees.now) }
{
    trees
        .iter()
        .map(|tree| Weights::zero(tree.nodes()))
        .collect(alloc)
}

impl Amounts {
    /// Amounts of 0 for these trees.
    pub fn none(alloc: Global, trees: &[Tree]) -> Result<Amounts, AllocError>
        ensures { IfOk result (λ a. a ≡ map (λ t. replicate (length t) (pos 0)) trees.now) }
    {
        let rows = zero_rows(alloc, trees)?;
        Ok(Amounts { rows })
    }

    /// The number of bidders.
    pub fn bidders(&self) -> usize
        ensures value { result ≡ length self.now }
        ensures range { AreAllAmounts self.now }
    {
        self.rows.len()
    }

    /// Gives the node another amount.
    pub fn put(&mut self, bidder: u8, node: u16, amount: i32)
        requires bidder { bidder < length self.old }
        requires node { node < length (weights_of self.old bidder) }
        requires range { IsAmount amount }
        ensures { self.new ≡ slice_set self.old bidder
            (slice_set (weights_of self.old bidder) node amount) }
    {
        self.rows[bidder as usize].put(node, i128::from(amount));
    }

    /// Gives each of the bidder's nodes, of which there are so many, the amount 0.
    pub fn clear(&mut self, bidder: u8, nodes: u16)
        requires bidder { bidder < length self.old }
        requires nodes { nodes ≤ 200 }
        ensures { self.new ≡ slice_set self.old bidder (replicate nodes (pos 0)) }
    {
        self.rows[bidder as usize] = Weights::zero(nodes);
    }

    /// What the nodes of the bidder's tree take.
    pub fn of(&self, bidder: u8) -> &Weights
        requires { bidder < length self.now }
        ensures value { result.now ≡ weights_of self.now bidder }
        ensures range { AreAmounts result.now }
    {
        &self.rows[bidder as usize]
    }
}
