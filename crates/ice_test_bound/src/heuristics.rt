//! A seller of a unit and a buyer of it, who are worth 10 together.
ghost use Rattle.std.specs.Prelude.{◌≡◌, length, IsTrue, IfOk};
ghost use Rattle.ice_defs.specs.Lawful.{AreBounds};
ghost use Rattle.ice_defs.specs.Sweep.{IsLive};
ghost use Rattle.ice_defs.specs.Conditions.{AreWeightsOf, AreBoundsOf};

use ice_bound::{Kept, NetSum};
use ice_relaxation::{Relaxation, pick};
use ice_subgradient::{Incumbent, polish};
use ice_tree::{AllWeights, Assignment, Bounds, NodeKind, Tree, TreeFault, TreeMaker};
use std::alloc::{AllocError, Global};
use std::test::Fail;

/// A tree of one leaf that sells a unit of the one good.
fn sells(value: i64) -> Result<(Tree, Bounds), TreeFault>
    ensures { IfOk result (λ r. AreBounds (length r.0) r.1) }
{
    let mut maker = TreeMaker::new(1);
    maker.leaf(NodeKind::Sell { good: 0, units: 1 }, value, value)?;
    maker.finish()
}

/// A tree of one leaf that buys a unit of the one good.
fn buys(value: i64) -> Result<(Tree, Bounds), TreeFault>
    ensures { IfOk result (λ r. AreBounds (length r.0) r.1) }
{
    let mut maker = TreeMaker::new(1);
    maker.leaf(NodeKind::Buy { good: 0, units: 1 }, value, value)?;
    maker.finish()
}

/// The lower values as weights.
fn lower(alloc: Global, trees: &[Tree], bounds: &[Bounds]) -> Result<AllWeights, AllocError>
    requires { AreBoundsOf trees.now bounds.now }
    ensures { IfOk result (AreWeightsOf trees.now) }
{
    let mut weights = AllWeights::new(alloc, trees)?;
    weights.fill_lower(bounds);
    Ok(weights)
}

/// Whether every bidder has a set.
fn is_live(kept: &Kept<'_>) -> bool
    ensures { IsTrue result → IsLive kept.now.trees kept.now.marks }
{
    match kept.net_sum() {
        NetSum::Sum(_) => true,
        NetSum::Dead(_) => false,
    }
}

/// The empty sets, which are worth nothing.
fn nothing(alloc: Global, trees: &[Tree]) -> Result<Incumbent, AllocError>
    ensures { IfOk result (λ i. length i.sets ≡ length trees.now) }
{
    let sets = Assignment::empty(alloc, trees)?;
    Ok(Incumbent { sets, value: 0 })
}

/// The value of an incumbent that is offered the relaxed sets of the start, the least sum that is
/// polished from there and the incumbent's value then, and how many candidates are picked.
fn polished(
    alloc: Global,
    trees: &[Tree],
    weights: &AllWeights,
) -> Result<Option<[i128; 4]>, AllocError>
    requires few { length trees.now ≡ 2 }
    requires weights { AreWeightsOf trees.now weights.now }
{
    let mut kept = Kept::new(alloc, trees, weights, &[false])?;
    if !is_live(&kept) {
        return Ok(None);
    }
    let mut incumbent = nothing(alloc, trees)?;
    incumbent.offer(&kept);
    let offered = incumbent.value;
    let mut relaxation = Relaxation::new(alloc, trees)?;
    relaxation.look_at(trees, weights, kept.marks());
    let from = kept.multipliers().copy();
    let least = polish(&mut kept, &mut incumbent, &mut relaxation, &from, 500);
    let candidates = pick(trees, kept.marks(), &relaxation).len() as i128;
    Ok(Some([offered, least.total, incumbent.value, candidates]))
}

/// The least sum that is polished from the greatest multiplier of an exact good.
fn polished_from_the_greatest(
    alloc: Global,
    trees: &[Tree],
    weights: &AllWeights,
) -> Result<Option<i128>, AllocError>
    requires few { length trees.now ≡ 2 }
    requires weights { AreWeightsOf trees.now weights.now }
{
    let mut kept = Kept::new(alloc, trees, weights, &[true])?;
    kept.put_multiplier(0, 1 << 56);
    if !is_live(&kept) {
        return Ok(None);
    }
    let mut incumbent = nothing(alloc, trees)?;
    let mut relaxation = Relaxation::new(alloc, trees)?;
    relaxation.look_at(trees, weights, kept.marks());
    let from = kept.multipliers().copy();
    let least = polish(&mut kept, &mut incumbent, &mut relaxation, &from, 500);
    Ok(Some(least.total))
}

#[test]
fn a_small_market(rt: HostRuntime) -> Result<(), Fail> {
    let alloc = rt.alloc();
    let (seller, asked) = sells(-10)?;
    let (buyer, offered) = buys(20)?;
    let trees = [seller, buyer];
    let weights = lower(alloc, &trees, &[asked, offered])?;
    // the buyer alone, who is offered first, is not feasible
    assert!(rt; polished(alloc, &trees, &weights)? == Some([0, 640, 10, 2]));
    Ok(())
}

#[test]
fn the_greatest_multiplier(rt: HostRuntime) -> Result<(), Fail> {
    let alloc = rt.alloc();
    let (seller, asked) = sells(-10)?;
    let (buyer, offered) = buys(20)?;
    let trees = [seller, buyer];
    let weights = lower(alloc, &trees, &[asked, offered])?;
    assert!(rt; polished_from_the_greatest(alloc, &trees, &weights)? == Some(640));
    Ok(())
}
