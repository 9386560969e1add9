//! Plans: which node is split where.
ghost use Rattle.std.specs.Prelude.{◌≡◌, ◌+◌, ◌≤◌, [], ◌∷◌, ◌++◌, length, slice_get, IfOk, OnOk, OnErr};
ghost use Rattle.ice_plan.specs.Arena.{IsBelow, IsBehind, AreBehind, nodes_of};

use ice_relaxation::Candidate;
use std::alloc::{AllocError, Global};
use std::marker::Model;

/// A side of a plan.
#[derive(Clone, Copy, Debug, PartialEq, Eq)]
pub enum Side {
    /// It is closed. The relaxation keeps what closed it by this number.
    Leaf(usize),
    /// It is split, by the split of this number.
    At(usize),
}

/// A split of a side at a node.
#[derive(Clone, Copy, Debug, PartialEq, Eq)]
pub struct Split {
    /// The node.
    pub node: Candidate,
    /// The side in which the node is Must.
    pub must: Side,
    /// The side in which the node is Never.
    pub never: Side,
}

/// A plan, seen as the list of its splits: each stands behind those at its sides, and the last one
/// splits the whole. Nothing says that what it holds for closed is closed.
#[derive(Drop)]
pub struct Plan {
    splits: Vec<Split>,
}

impl Model for Plan {
    ghost use Rattle.std.specs.Prelude.{List};
    ghost use Rattle.ice_plan.specs.declared.plan.Split.{Split};
    ghost use Rattle.ice_plan.specs.Arena.{AreBehind};

    ghost Value = { List Split };

    ghost view = { λ p. p.splits.items };

    ghost invariant = { λ p. AreBehind 0 p.splits.items };
}

/// The side, where it is a leaf or one of the first splits, so many, splits it; else a leaf.
fn known(side: Side, splits: usize) -> Side
    ensures below { IsBelow splits result }
    ensures same { IsBelow splits side → result ≡ side }
{
    match side {
        Side::Leaf(number) => Side::Leaf(number),
        Side::At(number) => {
            if number < splits {
                Side::At(number)
            } else {
                Side::Leaf(0)
            }
        }
    }
}

/// The split, where no side of it is one that isn't there among the first splits, so many.
fn settled(split: Split, splits: usize) -> Split
    ensures behind { IsBehind splits result }
    ensures node { result.node ≡ split.node }
    ensures same { IsBehind splits split → result ≡ split }
{
    Split {
        node: split.node,
        must: known(split.must, splits),
        never: known(split.never, splits),
    }
}

/// Takes the side that was pushed last; a leaf where there is none.
pub(crate) fn pop_side(sides: &mut Vec<Side>) -> Side {
    sides.pop().unwrap_or(Side::Leaf(0))
}

impl Plan {
    /// The plan of a search that is closed at once. It takes no memory yet.
    pub fn new(alloc: Global) -> Plan
        ensures { result ≡ [] }
    {
        Plan {
            splits: Vec::new(alloc),
        }
    }

    /// The number of splits.
    pub fn len(&self) -> usize
        ensures { result ≡ length self.now }
    {
        self.splits.len()
    }

    /// Whether the whole is a leaf.
    pub fn is_empty(&self) -> bool {
        self.splits.is_empty()
    }

    /// The whole.
    pub fn root(&self) -> Side
        ensures below { IsBelow (length self.now) result }
        ensures behind { AreBehind 0 self.now }
    {
        match self.splits.len().checked_sub(1) {
            Some(last) => Side::At(last),
            None => Side::Leaf(0),
        }
    }

    /// The split of a number; None where there is none.
    pub fn split(&self, number: usize) -> Option<Split>
        ensures { result ≡ slice_get self.now number }
    {
        self.splits.get(number).copied()
    }

    /// Puts a split behind all others. A side at a split that isn't there becomes a leaf.
    #[tactic(auto, using(crate::proofs::Behind::nodes_push))]
    pub fn push(&mut self, split: Split) -> Result<Side, AllocError>
        ensures side { IfOk result (λ side. side ≡ Side.At (length self.old)) }
        ensures count { OnOk result (length self.new ≡ length self.old + 1) }
        ensures node { OnOk result
            (nodes_of self.new ≡ nodes_of self.old ++ split.node ∷ []) }
        ensures same { OnOk result
            (IsBehind (length self.old) split → self.new ≡ self.old ++ split ∷ []) }
        ensures err { OnErr result (self.new ≡ self.old) }
    {
        let number = self.splits.len();
        let added = settled(split, number);
        self.splits.push(added)?;
        Ok(Side::At(number))
    }

    /// Takes all splits off but the first ones, so many.
    #[tactic(auto, using(crate::proofs::Behind::behind_take))]
    pub(crate) fn truncate(&mut self, splits: usize)
        ensures { length self.new ≤ splits }
    {
        self.splits.truncate(splits);
    }
}
