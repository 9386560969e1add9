//! The tree of a bidder's packages.
ghost use Rattle.std.specs.Prelude.{◌≡◌, ◌<◌, ◌≤◌, length, min, if◌then◌else◌, OnOk, IfOk};
ghost use Rattle.std.specs.List.{AllByRecursion};
ghost use Rattle.ice_defs.specs.Lawful.{IsLimitedTree, AreBounds};
ghost use Rattle.ice_tree.specs.Making.{IsLeaf};
ghost use Rattle.ice_tree.specs.Fault.{RefusedBy};
ghost use Rattle.ice_xor.specs.FlatBids.{leaf_kind, flat_tree, flat_bounds};
ghost use Rattle.ice_xor.specs.Translating.{tree_refusal};
ghost use Rattle.ice_xor.specs.Building.{IsUnderRoot, package_refusal, with_package};

use crate::bidders::FlatBidder;
use crate::packages::Package;
use crate::units::GoodUnits;
use ice_tree::{Bounds, NodeKind, Tree, TreeFault, TreeMaker};

/// What a leaf does with its good.
fn kind_of(units: GoodUnits) -> NodeKind
    ensures kind { result ≡ leaf_kind units }
    ensures leaf { IsLeaf result }
{
    let GoodUnits { good, amount } = units;
    if amount < 0 {
        NodeKind::Sell {
            good,
            units: amount.unsigned_abs(),
        }
    } else {
        NodeKind::Buy {
            good,
            units: amount.unsigned_abs(),
        }
    }
}

/// So many, for a choose node. A tree has no node with more than 199 children, so it is refused
/// before the node's close where there are more.
fn choice_of(children: usize) -> u16
    ensures { result ≡ min children 199 }
{
    children.min(199) as u16
}

/// How many packages a bidder may take, for its root.
fn most_of(bidder: &FlatBidder) -> u16
    ensures { result ≡ (if bidder.now.any then min (length bidder.now.packages) 199 else 1) }
{
    if bidder.takes_any() {
        choice_of(bidder.packages().len())
    } else {
        1
    }
}

/// Adds a package below the open root: all its leaves, or none.
fn add_package(maker: &mut TreeMaker, added: &Package) -> Result<(), TreeFault>
    requires root { IsUnderRoot maker.old.draft }
    requires some { 0 < length added.now.units }
    ensures made { OnOk result (maker.new
        ≡ record maker.old { draft = with_package maker.old.draft added.now }) }
    ensures refused { RefusedBy result
        (package_refusal maker.old.goods (length maker.old.draft.tree) added.now) }
{
    let all = choice_of(added.units().len());
    maker.open_choose(all, all, added.lo(), added.hi())?;
    for units in added.units() {
        maker.leaf(kind_of(*units), 0, 0)?;
    }
    maker.close()?;
    Ok(())
}

/// The tree of a bidder over so many goods, with its opening bounds.
pub(crate) fn tree_of(goods: u8, bidder: &FlatBidder) -> Result<(Tree, Bounds), TreeFault>
    requires goods { 0 < goods }
    requires few { goods ≤ 32 }
    requires some { 0 < length bidder.now.packages }
    requires packages { AllByRecursion (λ p. 0 < length p.units) bidder.now.packages }
    // What comes of it
    ensures made { IfOk result (λ made. (made.0 ≡ flat_tree bidder.now)
        × (made.1 ≡ flat_bounds bidder.now)) }
    ensures refused { RefusedBy result (tree_refusal goods bidder.now) }
    // On success
    ensures tree { IfOk result (λ made. IsLimitedTree goods made.0) }
    ensures bounds { IfOk result (λ made. AreBounds (length made.0) made.1) }
{
    let mut maker = TreeMaker::new(goods);
    let most = most_of(bidder);
    maker.open_choose(0, most, 0, 0)?;
    for taken in bidder.packages() {
        add_package(&mut maker, taken)?;
    }
    maker.close()?;
    let Ok(made) = maker.finish() else {
        unreachable!()
    };
    Ok(made)
}
