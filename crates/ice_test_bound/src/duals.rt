//! A seller of one lot of three units, and two buyers of two units each, who value them at 40.
ghost use Rattle.std.specs.Prelude.{◌<◌, length, IfOk};
ghost use Rattle.ice_defs.specs.Lawful.{AreBounds};
ghost use Rattle.ice_defs.specs.Trade.{tree_of};
ghost use Rattle.ice_defs.specs.Conditions.{AreWeightsOf, AreBoundsOf, AreFixingsOf};

use ice_best::{Fixings, Mark};
use ice_master::{Aim, Master};
use ice_tree::{AllWeights, Bounds, NodeKind, Tree, TreeFault, TreeMaker};
use std::alloc::{AllocError, Global};
use std::test::Fail;

/// A tree of one leaf that sells a lot of three units.
fn sells() -> Result<(Tree, Bounds), TreeFault>
    ensures bounds { IfOk result (λ r. AreBounds (length r.0) r.1) }
    ensures node { IfOk result (λ r. 0 < length r.0) }
{
    let mut maker = TreeMaker::new(1);
    maker.leaf(NodeKind::Sell { good: 0, units: 3 }, 0, 0)?;
    let (tree, bounds) = maker.finish()?;
    let _nodes = tree.nodes();
    Ok((tree, bounds))
}

/// A tree of one leaf that buys two units for 40.
fn buys() -> Result<(Tree, Bounds), TreeFault>
    ensures bounds { IfOk result (λ r. AreBounds (length r.0) r.1) }
    ensures node { IfOk result (λ r. 0 < length r.0) }
{
    let mut maker = TreeMaker::new(1);
    maker.leaf(NodeKind::Buy { good: 0, units: 2 }, 40, 40)?;
    let (tree, bounds) = maker.finish()?;
    let _nodes = tree.nodes();
    Ok((tree, bounds))
}

/// The lower values as weights.
fn lower(alloc: Global, trees: &[Tree], bounds: &[Bounds]) -> Result<AllWeights, AllocError>
    requires { AreBoundsOf trees.now bounds.now }
    ensures { IfOk result (AreWeightsOf trees.now) }
{
    let mut weights = AllWeights::new(alloc, trees)?;
    weights.fill_lower(bounds);
    Ok(weights)
}

/// No node is marked.
fn free(alloc: Global, trees: &[Tree]) -> Result<Fixings, AllocError>
    ensures { IfOk result (AreFixingsOf trees.now) }
{
    Fixings::free(alloc, trees)
}

/// Marks a node.
fn mark(trees: &[Tree], marks: &mut Fixings, bidder: u8, node: u16, mark: Mark)
    requires marks { AreFixingsOf trees.now marks.old }
    requires bidder { bidder < length trees.now }
    requires node { node < length (tree_of trees.now bidder) }
    ensures { AreFixingsOf trees.now marks.new }
{
    let _bidders = trees.len();
    marks.mark(bidder, node, mark);
}

#[test]
fn three_units_for_two_buyers_of_two(rt: HostRuntime) -> Result<(), Fail> {
    let alloc = rt.alloc();
    let (seller, asked) = sells()?;
    let (first, offered) = buys()?;
    let (second, offered_too) = buys()?;
    let trees = [seller, first, second];
    let bounds = [asked, offered, offered_too];
    let weights = lower(alloc, &trees, &bounds)?;
    let mut marks = free(alloc, &trees)?;
    let mut master = Master::new(alloc, &trees, &weights, &[false])?;
    assert!(rt; master.look_at(&trees, &marks));
    // one buyer and a half: 60, at 20 a unit
    let dual = master.solve(Aim::DUAL);
    assert_eq!(rt; dual.bound, 60 * 64);
    assert_eq!(rt; dual.multipliers[0], 20 * 64);
    assert_eq!(rt; master.bound_at(&dual.multipliers), 60 * 64);
    assert!(rt; !master.is_whole());
    assert!(rt; master.set_of(0).has(0));
    let half = master.basis();
    let candidates = master.candidates();
    assert_eq!(rt; candidates.len(), 1);
    assert!(rt; candidates[0].node.bidder != 0 && candidates[0].node.node == 0);
    assert_eq!(rt; candidates[0].share, 1 << 39);
    // without one buyer the other takes its two units, and one is left over: 40, at nothing
    mark(&trees, &mut marks, 1, 0, Mark::Never);
    assert!(rt; master.look_at_tree(&trees, &marks, 1));
    let dual = master.solve(Aim::DUAL);
    assert_eq!(rt; dual.bound, 40 * 64);
    assert_eq!(rt; dual.multipliers[0], 0);
    assert!(rt; master.is_whole());
    assert!(rt; !master.set_of(1).has(0) && master.set_of(2).has(0));
    assert!(rt; master.candidates().is_empty());
    // with it the other still takes a half
    mark(&trees, &mut marks, 1, 0, Mark::Must);
    assert!(rt; master.look_at_tree(&trees, &marks, 1));
    master.start_from(&half);
    assert_eq!(rt; master.solve(Aim::DUAL).bound, 60 * 64);
    // nothing meets the marks where both must have theirs
    mark(&trees, &mut marks, 2, 0, Mark::Must);
    assert!(rt; master.look_at_tree(&trees, &marks, 2));
    let aim = Aim {
        close: 0,
        keep: i64::MAX,
    };
    assert!(rt; master.solve(aim).bound < 0);
    Ok(())
}
