//! Sellers of three units of each of two goods, and two buyers, each of a pair of the first good,
//! with a unit of the second one or without. Each buyer has a half of the one and a quarter of the
//! other. With multiplier 2,048 of the first good, in 4096ths, both take 1, the package at its own
//! node, and the seller -1, as in the market of pairs: the shares take 1.5 - 1 of it.
ghost use Rattle.std.specs.Prelude.{◌≤◌, length, sum, IfOk};
ghost use Rattle.ice_refute.specs.Waiting.{nodes_of};

use crate::parts::{ONE, is_lone, sells_three, shares};
use ice_bound::Room;
use ice_separation::separate;
use ice_tree::{NodeKind, Tree, TreeFault, TreeMaker};
use std::test::Fail;

/// At most one of a package and a lone leaf.
fn buys_one() -> Result<Tree, TreeFault>
    ensures { IfOk result (λ tree. length tree ≤ 200) }
{
    let mut maker = TreeMaker::new(2);
    maker.open_choose(0, 1, 0, 0)?;
    maker.open_choose(2, 2, 0, 0)?;
    maker.leaf(NodeKind::Buy { good: 0, units: 2 }, 10, 10)?;
    maker.leaf(NodeKind::Buy { good: 1, units: 1 }, 10, 10)?;
    maker.close()?;
    maker.leaf(NodeKind::Buy { good: 0, units: 2 }, 10, 10)?;
    maker.close()?;
    let (tree, _bounds) = maker.finish()?;
    Ok(tree)
}

/// The sellers and the buyers.
fn market() -> Result<[Tree; 4], TreeFault>
    ensures { IfOk result (λ trees. sum (nodes_of trees) ≤ 2000) }
{
    let (first, second) = (sells_three(0)?, sells_three(1)?);
    Ok([first, second, buys_one()?, buys_one()?])
}

#[test]
fn packages_and_lone_leaves(rt: HostRuntime) -> Result<(), Fail> {
    let alloc = rt.alloc();
    let trees = market()?;
    let all = shares(&[ONE]);
    let part = shares(&[ONE / 4 * 3, ONE / 2, ONE / 2, ONE / 2, ONE / 4]);
    let room = Room::new(&[false, false]);
    let found = separate(alloc, &trees, &[all, all, part, part], &room)?;
    let buyer = [0, 1, 0, 0, 1].as_slice();
    let rows = [[-1].as_slice(), [0].as_slice(), buyer, buyer];
    assert!(rt; is_lone(alloc, &trees, &room, &found, 2_048, &rows)?);
    Ok(())
}
