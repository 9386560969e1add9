//! Fixings: what each node of a tree must be, for one bidder and for all of them.
ghost use Rattle.std.specs.Prelude.{◌≡◌, ◌<◌, ◌≤◌, length, map, replicate, slice_set, IfOk};
ghost use Rattle.ice_defs.specs.Fixing.{mark_of};
ghost use Rattle.ice_defs.specs.Steps.{with_mark};
ghost use Rattle.ice_defs.specs.Trade.{fixing_of};

use arrayvec::ArrayVec;
use ice_defs::Mark;
use ice_tree::Tree;
use std::alloc::{AllocError, Global};
use std::marker::Model;

/// A fixing of one tree, seen as one mark per node. A set meets it where it has each Must node and
/// no Never node. It takes no memory.
#[derive(Drop)]
pub struct Fixing {
    marks: ArrayVec<Mark, 200>,
}

impl Model for Fixing {
    ghost use Rattle.std.specs.Prelude.{List};
    ghost use Rattle.ice_defs.specs.declared.Mark.{Mark};

    ghost Value = { List Mark };

    ghost view = { λ a. a.marks.items };
}

impl Fixing {
    /// The fixing that leaves each node of a tree with this many nodes, at most 200, free.
    pub fn free(nodes: u16) -> Fixing
        requires { nodes ≤ 200 }
        ensures { result ≡ replicate nodes Mark.Free }
    {
        let mut marks = ArrayVec::new();
        for _node in 0..nodes {
            marks.push(Mark::Free);
        }
        Fixing { marks }
    }

    /// The number of nodes.
    pub fn len(&self) -> u16
        ensures value { result ≡ length self.now }
        ensures fits { result ≤ 200 }
    {
        self.marks.len() as u16
    }

    /// The mark of the node.
    pub fn get(&self, node: u16) -> Mark
        requires { node < length self.now }
        ensures { result ≡ mark_of self.now node }
    {
        self.marks[node as usize]
    }

    /// Gives the node another mark.
    pub fn put(&mut self, node: u16, mark: Mark)
        requires { node < length self.old }
        ensures { self.new ≡ slice_set self.old node mark }
    {
        self.marks[node as usize] = mark;
    }
}

/// One fixing per bidder, seen as the list of them.
#[derive(Drop)]
pub struct Fixings {
    fixings: Vec<Fixing>,
}

impl Model for Fixings {
    ghost use Rattle.std.specs.Prelude.{List};
    ghost use Rattle.ice_defs.specs.declared.Mark.{Mark};

    ghost Value = { List (List Mark) };

    ghost view = { λ a. a.fixings.items };
}

impl Fixings {
    /// Leaves each node of each bidder's tree free. Takes all the memory that the fixings need.
    pub fn free(alloc: Global, trees: &[Tree]) -> Result<Fixings, AllocError>
        ensures { IfOk result (λ fixings. fixings
            ≡ map (λ t. replicate (length t) Mark.Free) trees.now) }
    {
        let fixings = trees
            .iter()
            .map(|tree| Fixing::free(tree.nodes()))
            .collect(alloc)?;
        Ok(Fixings { fixings })
    }

    /// The number of bidders.
    pub fn len(&self) -> usize
        ensures { result ≡ length self.now }
    {
        self.fixings.len()
    }

    /// Gives a node of a bidder's tree another mark. Takes no memory.
    pub fn mark(&mut self, bidder: u8, node: u16, mark: Mark)
        requires bidder { bidder < length self.old }
        requires node { node < length (fixing_of self.old bidder) }
        ensures { self.new ≡ with_mark self.old bidder node mark }
    {
        self.fixings[bidder as usize].put(node, mark);
    }

    /// The fixing of a bidder.
    pub fn of(&self, bidder: u8) -> &Fixing
        requires { bidder < length self.now }
        ensures { result.now ≡ fixing_of self.now bidder }
    {
        &self.fixings[bidder as usize]
    }
}
