//! Worked certificates.
ghost use Rattle.std.specs.Prelude.{◌≡◌, length};
ghost use Rattle.ice_best.specs.Nets.{AreAtMostTrillion};

use ice_certificate::{RowSums, Scratch, best_excess};
use ice_terms::Prices;
use ice_tree::{NodeKind, NodeSet, Tree, TreeFault, TreeMaker, Weights};
use std::test::Fail;

/// A choose node that takes one of two leaves: one unit bought, and one sold.
fn buys_or_sells() -> Result<Tree, TreeFault> {
    let mut maker = TreeMaker::new(1);
    maker.open_choose(1, 1, 0, 0)?;
    maker.leaf(NodeKind::Buy { good: 0, units: 1 }, 0, 0)?;
    maker.leaf(NodeKind::Sell { good: 0, units: 1 }, 0, 0)?;
    maker.close()?;
    let (tree, _bounds) = maker.finish()?;
    Ok(tree)
}

/// Buying is worth 10, which is 1,000 in hundredths, and selling 0.
fn worth_of_buying() -> Weights
    ensures nodes { length result ≡ 3 }
    ensures modest { AreAtMostTrillion result }
{
    let mut weights = Weights::zero(3);
    weights.put(1, 1000);
    weights
}

/// The root and one leaf.
fn with_leaf(leaf: u16) -> NodeSet
    ensures { length result ≡ 3 }
{
    let mut set = NodeSet::empty(3);
    set.put(0, true);
    if leaf < 3 {
        set.put(leaf, true);
    }
    set
}

/// Whether rows of both leaves pass the test of accuracy at a violation of 500 and of 499, and that
/// of balance.
fn passes_of_both(tree: &Tree, weights: &Weights, prices: &Prices) -> [bool; 3]
    requires tree { length tree.now ≡ 3 }
    requires nodes { length weights.now ≡ 3 }
    requires modest { AreAtMostTrillion weights.now }
{
    let own = NodeSet::empty(3);
    let mut sums = RowSums::new();
    sums.add(tree, weights, &own, 1, &with_leaf(1));
    sums.add(tree, weights, &own, 1, &with_leaf(2));
    [
        sums.pass_accuracy(1, 100, prices, 500, 2),
        sums.pass_accuracy(1, 100, prices, 499, 2),
        sums.pass_balance(1, prices, 500, 2),
    ]
}

/// Whether a row of a purchase passes the test of balance at 0 and at 1.
fn passes_of_a_purchase(tree: &Tree, weights: &Weights, prices: &Prices) -> [bool; 2]
    requires tree { length tree.now ≡ 3 }
    requires nodes { length weights.now ≡ 3 }
    requires modest { AreAtMostTrillion weights.now }
{
    let mut sums = RowSums::new();
    sums.add(tree, weights, &NodeSet::empty(3), 1, &with_leaf(1));
    [
        sums.pass_balance(1, prices, 0, 1),
        sums.pass_balance(1, prices, 1, 1),
    ]
}

/// The greatest excess over nothing.
fn most_above_nothing(tree: &Tree, weights: &Weights, prices: &Prices) -> i128
    requires tree { length tree.now ≡ 3 }
    requires nodes { length weights.now ≡ 3 }
    requires modest { AreAtMostTrillion weights.now }
{
    best_excess(
        tree,
        weights,
        &NodeSet::empty(3),
        prices,
        &mut Scratch::new(),
    )
    .amount
}

#[test]
fn rows_of_one_bidder(rt: HostRuntime) -> Result<(), Fail> {
    let tree = buys_or_sells()?;
    assert!(rt; tree.nodes() == 3);
    let prices = Prices::new(1, &[5]).ok_or("prices")?;
    let weights = worth_of_buying();
    assert!(rt; passes_of_both(&tree, &weights, &prices) == [true, false, false]);
    assert_eq!(rt; most_above_nothing(&tree, &weights, &prices), 500);
    Ok(())
}

#[test]
fn row_of_a_buyer(rt: HostRuntime) -> Result<(), Fail> {
    let tree = buys_or_sells()?;
    assert!(rt; tree.nodes() == 3);
    let prices = Prices::new(1, &[10]).ok_or("prices")?;
    assert!(rt; passes_of_a_purchase(&tree, &worth_of_buying(), &prices) == [true, false]);
    Ok(())
}
