//! Worked sweeps: a seller of a unit and a buyer of it.
ghost use Rattle.std.specs.Prelude.{◌≡◌, ◌<◌, ◌≤◌, [], ◌∷◌, length, pos, IfOk};
ghost use Rattle.ice_defs.specs.Lawful.{AreBounds};
ghost use Rattle.ice_defs.specs.Trade.{tree_of};
ghost use Rattle.ice_defs.specs.Conditions.{AreWeightsOf, AreBoundsOf, AreFixingsOf};

use ice_best::{Fixings, Mark};
use ice_bound::{Desk, Kept, Multipliers};
use ice_mult::{improve, improve_kept, improve_near};
use ice_tree::{AllWeights, Bounds, NodeKind, Tree, TreeFault, TreeMaker};
use std::alloc::{AllocError, Global};
use std::test::Fail;

/// A tree of one leaf that sells units of the one good.
fn sells(units: u16, value: i64) -> Result<(Tree, Bounds), TreeFault>
    ensures bounds { IfOk result (λ r. AreBounds (length r.0) r.1) }
    ensures node { IfOk result (λ r. 0 < length r.0) }
{
    let mut maker = TreeMaker::new(1);
    maker.leaf(NodeKind::Sell { good: 0, units }, value, value)?;
    let (tree, bounds) = maker.finish()?;
    let _nodes = tree.nodes();
    Ok((tree, bounds))
}

/// A tree of one leaf that buys a unit of the one good.
fn buys(value: i64) -> Result<(Tree, Bounds), TreeFault>
    ensures bounds { IfOk result (λ r. AreBounds (length r.0) r.1) }
    ensures node { IfOk result (λ r. 0 < length r.0) }
{
    let mut maker = TreeMaker::new(1);
    maker.leaf(NodeKind::Buy { good: 0, units: 1 }, value, value)?;
    let (tree, bounds) = maker.finish()?;
    let _nodes = tree.nodes();
    Ok((tree, bounds))
}

/// The lower values as weights.
fn lower(alloc: Global, trees: &[Tree], bounds: &[Bounds]) -> Result<AllWeights, AllocError>
    requires { AreBoundsOf trees.now bounds.now }
    ensures { IfOk result (AreWeightsOf trees.now) }
{
    let mut weights = AllWeights::new(alloc, trees)?;
    weights.fill_lower(bounds);
    Ok(weights)
}

/// A desk for the trees, with every node free.
fn desk(alloc: Global, trees: &[Tree], exact: &[bool]) -> Result<Desk, AllocError>
    requires { length exact.now ≤ 32 }
    ensures marks { IfOk result (λ desk. AreFixingsOf trees.now desk.marks) }
    ensures exact { IfOk result (λ desk. desk.room ≡ exact.now) }
{
    Desk::new(alloc, trees, exact)
}

/// Every node free.
fn free(alloc: Global, trees: &[Tree]) -> Result<Fixings, AllocError>
    ensures { IfOk result (AreFixingsOf trees.now) }
{
    Fixings::free(alloc, trees)
}

/// Marks a node.
fn mark(trees: &[Tree], marks: &mut Fixings, bidder: u8, node: u16, mark: Mark)
    requires marks { AreFixingsOf trees.now marks.old }
    requires bidder { bidder < length trees.now }
    requires node { node < length (tree_of trees.now bidder) }
    ensures { AreFixingsOf trees.now marks.new }
{
    let _bidders = trees.len();
    marks.mark(bidder, node, mark);
}

/// A multiplier of one good, 0 or more.
fn at(number: u16) -> Multipliers
    ensures { result ≡ pos number ∷ [] }
{
    let mut m = Multipliers::zero(1);
    m.put(0, i64::from(number));
    m
}

/// The multiplier that a sweep makes of 0, and that of one from 2,000 near a guess of 640.
fn swept_and_near(
    alloc: Global,
    trees: &[Tree],
    weights: &AllWeights,
) -> Result<[i64; 2], AllocError>
    requires few { length trees.now ≡ 2 }
    requires weights { AreWeightsOf trees.now weights.now }
{
    let mut desk = desk(alloc, trees, &[false])?;
    let free = free(alloc, trees)?;
    let low = improve(trees, weights, &free, &at(0), &mut desk);
    let near = improve_near(trees, weights, &free, &at(2000), &at(640), &mut desk);
    Ok([low.get(0), near.get(0)])
}

/// The multiplier that a sweep makes of 7 where the buyer must buy and the seller may not sell.
fn swept_without_units(
    alloc: Global,
    trees: &[Tree],
    weights: &AllWeights,
) -> Result<i64, AllocError>
    requires few { length trees.now ≡ 2 }
    requires seller { 0 < length (tree_of trees.now 0) }
    requires buyer { 0 < length (tree_of trees.now 1) }
    requires weights { AreWeightsOf trees.now weights.now }
{
    let mut desk = desk(alloc, trees, &[false])?;
    let mut fixings = free(alloc, trees)?;
    mark(trees, &mut fixings, 0, 0, Mark::Never);
    mark(trees, &mut fixings, 1, 0, Mark::Must);
    Ok(improve(trees, weights, &fixings, &at(7), &mut desk).get(0))
}

/// The multiplier that a sweep makes of this one where the seller must sell.
fn swept_of_a_sale(
    alloc: Global,
    trees: &[Tree],
    weights: &AllWeights,
    exact: bool,
    number: u16,
) -> Result<i64, AllocError>
    requires few { length trees.now ≡ 2 }
    requires seller { 0 < length (tree_of trees.now 0) }
    requires weights { AreWeightsOf trees.now weights.now }
{
    let mut desk = desk(alloc, trees, &[exact])?;
    let mut fixings = free(alloc, trees)?;
    mark(trees, &mut fixings, 0, 0, Mark::Must);
    Ok(improve(trees, weights, &fixings, &at(number), &mut desk).get(0))
}

#[test]
fn the_price_of_a_small_market(rt: HostRuntime) -> Result<(), Fail> {
    let alloc = rt.alloc();
    let (seller, asked) = sells(1, -10)?;
    let (buyer, offered) = buys(20)?;
    let trees = [seller, buyer];
    let weights = lower(alloc, &trees, &[asked, offered])?;
    assert!(rt; swept_and_near(alloc, &trees, &weights)? == [640, 640]);
    Ok(())
}

#[test]
fn a_side_that_asks_for_units(rt: HostRuntime) -> Result<(), Fail> {
    let alloc = rt.alloc();
    let (seller, asked) = sells(1, -10)?;
    let (buyer, offered) = buys(20)?;
    let trees = [seller, buyer];
    let weights = lower(alloc, &trees, &[asked, offered])?;
    assert!(rt; swept_without_units(alloc, &trees, &weights)? == 1 << 56);
    Ok(())
}

#[test]
fn a_negative_price_of_an_exact_good(rt: HostRuntime) -> Result<(), Fail> {
    let alloc = rt.alloc();
    let (seller, asked) = sells(1, -10)?;
    let (buyer, offered) = buys(-5)?;
    let trees = [seller, buyer];
    let weights = lower(alloc, &trees, &[asked, offered])?;
    assert!(rt; swept_of_a_sale(alloc, &trees, &weights, true, 0)? == -320);
    assert!(rt; swept_of_a_sale(alloc, &trees, &weights, false, 5)? == 0);
    Ok(())
}

/// The sum of the greatest nets of a seller who asks for this and a buyer who offers that, at a
/// price in 64ths.
fn sum_at(asked: i64, offered: i64, price: i64) -> i64 {
    let bought = offered.wrapping_mul(64).wrapping_sub(price);
    let sold = price.wrapping_sub(asked.wrapping_mul(64));
    bought.max(0).wrapping_add(sold.max(0))
}

/// The first price with the least sum, of the first thousand.
fn lowest(asked: i64, offered: i64) -> i64 {
    let mut least = 0;
    for price in 1..1000 {
        if sum_at(asked, offered, price) < sum_at(asked, offered, least) {
            least = price;
        }
    }
    least
}

/// What a sweep makes of 0 with bounds that are kept, near a guess.
fn swept(alloc: Global, asked: i64, offered: i64, guess: u16) -> Result<i64, Fail> {
    let (seller, first) = sells(1, asked.wrapping_neg())?;
    let (buyer, second) = buys(offered)?;
    let trees = [seller, buyer];
    let bounds = [first, second];
    let weights = lower(alloc, &trees, &bounds)?;
    let mut desk = desk(alloc, &trees, &[false])?;
    let mut kept = Kept::new(alloc, &trees, &weights, &[false])?;
    improve_kept(&mut kept, &at(guess), &mut desk);
    Ok(kept.multipliers().get(0))
}

#[test]
fn kept_bounds_are_swept_near_right_and_wrong_guesses(rt: HostRuntime) -> Result<(), Fail> {
    for asked in 1..8i64 {
        for offered in 1..8i64 {
            let price = lowest(asked, offered);
            for guess in [0, 1, 64, 65, 128, 191, 192, 320, 448] {
                assert_eq!(rt; swept(rt.alloc(), asked, offered, guess)?, price);
            }
        }
    }
    Ok(())
}
