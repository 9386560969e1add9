//! The market of pairs that tests of derived goods share: a seller of three units of the one good
//! at 0, and three buyers, each of a pair of units at 10. One pair alone can be sold, but the bound
//! of goods alone is above what that is worth. That a buyer has its pair is an amount of 1, and at
//! most 1 of it is taken.
#![tactic(auto)]

ghost use Rattle.std.specs.Prelude.{◌≡◌, [], ◌∷◌, length, map, pos, IfOk};
ghost use Rattle.ice_defs.specs.Conditions.{AreBoundsOf};
ghost use Rattle.ice_defs.specs.Lawful.{AreBounds};
ghost use Rattle.ice_defs.specs.Tree.{kind_of};
ghost use Rattle.ice_defs.specs.Weighing.{lower_weights};
ghost use Rattle.ice_derived.specs.Ranges.{IsAmount};
ghost use Rattle.ice_refute.specs.Waiting.{nodes_of};
ghost use Rattle.ice_tree.specs.Making.{IsLeaf};

use ice_derived::Amounts;
use ice_tree::{Bounds, NodeKind, Tree, TreeFault, TreeMaker};
use std::alloc::{AllocError, Global};

/// A tree of one leaf with this value.
fn lone_leaf(kind: NodeKind, value: i64) -> Result<(Tree, Bounds), TreeFault>
    requires { IsLeaf kind }
    ensures tree { IfOk result (λ r. r.0 ≡ record { kind = kind; parent = 0 } ∷ []) }
    ensures bounds { IfOk result (λ r. AreBounds (length r.0) r.1) }
    ensures values { IfOk result (λ r. r.1 ≡ record { lo = value ∷ []; hi = value ∷ [] }) }
{
    let mut maker = TreeMaker::new(1);
    maker.leaf(kind, value, value)?;
    maker.finish()
}

/// The trees of the seller and the three buyers, and what their nodes are worth.
pub fn market() -> Result<([Tree; 4], [Bounds; 4]), TreeFault>
    ensures nodes { IfOk result (λ r. nodes_of r.0 ≡ 1 ∷ 1 ∷ 1 ∷ 1 ∷ []) }
    ensures kinds { IfOk result (λ r. map (λ t. kind_of t 0) r.0
        ≡ NodeKind.Sell 0 3 ∷ NodeKind.Buy 0 2 ∷ NodeKind.Buy 0 2 ∷ NodeKind.Buy 0 2 ∷ []) }
    ensures bounds { IfOk result (λ r. AreBoundsOf r.0 r.1) }
    ensures values { IfOk result (λ r. lower_weights r.1
        ≡ (pos 0 ∷ []) ∷ (pos 10 ∷ []) ∷ (pos 10 ∷ []) ∷ (pos 10 ∷ []) ∷ []) }
{
    let (seller, s) = lone_leaf(NodeKind::Sell { good: 0, units: 3 }, 0)?;
    let pair = NodeKind::Buy { good: 0, units: 2 };
    let (a, x) = lone_leaf(pair, 10)?;
    let (b, y) = lone_leaf(pair, 10)?;
    let (c, z) = lone_leaf(pair, 10)?;
    Ok(([seller, a, b, c], [s, x, y, z]))
}

/// Amounts of 0 for the market.
fn none(alloc: Global, trees: &[Tree]) -> Result<Amounts, AllocError>
    requires { nodes_of trees.now ≡ 1 ∷ 1 ∷ 1 ∷ 1 ∷ [] }
    ensures { IfOk result (λ a. a
        ≡ (pos 0 ∷ []) ∷ (pos 0 ∷ []) ∷ (pos 0 ∷ []) ∷ (pos 0 ∷ []) ∷ []) }
{
    let amounts = Amounts::none(alloc, trees)?;
    Ok(amounts)
}

/// This amount at the one node of each buyer, and 0 at that of the seller.
pub fn of_buyers(alloc: Global, trees: &[Tree], amount: i32) -> Result<Amounts, AllocError>
    requires nodes { nodes_of trees.now ≡ 1 ∷ 1 ∷ 1 ∷ 1 ∷ [] }
    requires amount { IsAmount amount }
    ensures { IfOk result (λ a. a
        ≡ (pos 0 ∷ []) ∷ (amount ∷ []) ∷ (amount ∷ []) ∷ (amount ∷ []) ∷ []) }
{
    let mut amounts = none(alloc, trees)?;
    amounts.put(1, 0, amount);
    amounts.put(2, 0, amount);
    amounts.put(3, 0, amount);
    Ok(amounts)
}
