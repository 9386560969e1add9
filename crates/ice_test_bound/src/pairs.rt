//! A market whose bound by goods alone is above what it is worth: a seller of three units at 0, and
//! three buyers, each of a pair of units at 10. One pair alone can be sold, so the best trade is
//! worth 10. With multiplier m, in 4096ths, the bound of goods alone is the floor of a 4096th of
//! 3m + 3 * max(0, 40,960 - 2m), which is least where m is 20,480: 61,440 / 4096 = 15. That a buyer
//! has its pair is an amount of 1, and at most 1 of it is taken.
ghost use Rattle.std.specs.Prelude.{◌≡◌, ◌<◌, ◌≤◌, [], ◌∷◌, length, sum, IfOk};
ghost use Rattle.ice_defs.specs.Lawful.{AreBounds};
ghost use Rattle.ice_defs.specs.Conditions.{AreWeightsOf, AreBoundsOf, AreFixingsOf};
ghost use Rattle.ice_defs.specs.Group.{free_side};
ghost use Rattle.ice_refute.specs.Waiting.{nodes_of};

use ice_best::Fixings;
use ice_bound::{Bound, Room};
use ice_derived::{Amounts, DerivedGoods, Rates, TollRoom, Weighing, bound_with, take_leaf};
use ice_refute::{StepFault, Walk};
use ice_tree::{AllWeights, Bounds, NodeKind, Tree, TreeFault, TreeMaker};
use std::alloc::{AllocError, Global};
use std::test::Fail;

/// A tree of one leaf that sells three units of the one good.
fn sells(value: i64) -> Result<(Tree, Bounds), TreeFault>
    ensures bounds { IfOk result (λ r. AreBounds 1 r.1) }
    ensures node { IfOk result (λ r. length r.0 ≡ 1) }
{
    let mut maker = TreeMaker::new(1);
    maker.leaf(NodeKind::Sell { good: 0, units: 3 }, value, value)?;
    maker.finish()
}

/// A tree of one leaf that buys a pair of units of the one good.
fn buys(value: i64) -> Result<(Tree, Bounds), TreeFault>
    ensures bounds { IfOk result (λ r. AreBounds 1 r.1) }
    ensures node { IfOk result (λ r. length r.0 ≡ 1) }
{
    let mut maker = TreeMaker::new(1);
    maker.leaf(NodeKind::Buy { good: 0, units: 2 }, value, value)?;
    maker.finish()
}

/// The values as weights.
fn lower(alloc: Global, trees: &[Tree], bounds: &[Bounds]) -> Result<AllWeights, AllocError>
    requires { AreBoundsOf trees.now bounds.now }
    ensures { IfOk result (AreWeightsOf trees.now) }
{
    let mut weights = AllWeights::new(alloc, trees)?;
    weights.fill_lower(bounds);
    Ok(weights)
}

/// Every node free.
fn free(alloc: Global, trees: &[Tree]) -> Result<Fixings, AllocError>
    ensures nodes { IfOk result (λ fixings. nodes_of fixings ≡ nodes_of trees.now) }
    ensures bidders { IfOk result (λ fixings. length fixings ≡ length trees.now) }
    ensures fixings { IfOk result (AreFixingsOf trees.now) }
    ensures side { IfOk result (λ fixings. fixings ≡ free_side trees.now) }
{
    let marks = Fixings::free(alloc, trees)?;
    Ok(marks)
}

/// Gives the one node of a bidder's tree, of which there are four, an amount of 1.
fn put_pair(amounts: &mut Amounts, bidder: u8)
    requires bidder { bidder < 4 }
    requires nodes { nodes_of amounts.old ≡ 1 ∷ 1 ∷ 1 ∷ 1 ∷ [] }
    ensures { nodes_of amounts.new ≡ 1 ∷ 1 ∷ 1 ∷ 1 ∷ [] }
{
    amounts.put(bidder, 0, 1);
}

/// An amount of 1 at the one node of each of three buyers, which come behind the seller.
fn pairs(alloc: Global, trees: &[Tree]) -> Result<Amounts, AllocError>
    requires { nodes_of trees.now ≡ 1 ∷ 1 ∷ 1 ∷ 1 ∷ [] }
    ensures { IfOk result (λ amounts. nodes_of amounts ≡ nodes_of trees.now) }
{
    let mut amounts = Amounts::none(alloc, trees)?;
    put_pair(&mut amounts, 1);
    put_pair(&mut amounts, 2);
    put_pair(&mut amounts, 3);
    Ok(amounts)
}

/// The multiplier of the one good.
fn rates(multiplier: i32) -> Rates
    ensures { length result ≡ 1 }
{
    let mut m = Rates::zero(1);
    m.put(0, i64::from(multiplier));
    m
}

/// What comes of adding these amounts with this limit, at this multiplier and the tolls that stand.
fn added(
    alloc: Global,
    trees: &[Tree],
    amounts: &Amounts,
    limit: i32,
    multiplier: i32,
    derived: &mut DerivedGoods,
    toll_room: &mut TollRoom,
) -> Result<Result<(), StepFault>, AllocError>
    requires few { length trees.now ≤ 40 }
    requires amounts { nodes_of amounts.now ≡ nodes_of trees.now }
    requires derived { derived.old.nodes ≡ nodes_of trees.now }
    requires has_room { length derived.old.goods < derived.old.most }
    ensures nodes { derived.new.nodes ≡ nodes_of trees.now }
{
    let free = free(alloc, trees)?;
    let m = rates(multiplier);
    let room = Room::new(&[false]);
    Ok(derived.add(
        trees,
        amounts,
        i64::from(limit),
        &m,
        &free,
        &room,
        toll_room,
    ))
}

/// The bound at this multiplier and another toll on the one derived good, with all nodes free. None
/// comes where there is no derived good.
fn bound_at(
    alloc: Global,
    trees: &[Tree],
    weights: &AllWeights,
    derived: &mut DerivedGoods,
    multiplier: i32,
    toll: i32,
    toll_room: &mut TollRoom,
) -> Result<Option<Bound>, AllocError>
    requires few { length trees.now ≤ 40 }
    requires weights { AreWeightsOf trees.now weights.now }
    requires derived { derived.old.nodes ≡ nodes_of trees.now }
    ensures nodes { derived.new.nodes ≡ nodes_of trees.now }
{
    if derived.len() == 0 {
        return Ok(None);
    }
    derived.put_toll(0, i64::from(toll));
    let m = rates(multiplier);
    let free = free(alloc, trees)?;
    let weighing = Weighing::Group(weights);
    Ok(Some(bound_with(trees, &weighing, derived, &m, &free, toll_room)))
}

/// What becomes of a leaf of the whole market with target 10, at this toll on the one derived good
/// and multiplier 0, and whether it closes the log. None comes where there is no derived good.
fn leaf_at(
    alloc: Global,
    trees: &[Tree],
    weights: &AllWeights,
    derived: &mut DerivedGoods,
    toll: i32,
    toll_room: &mut TollRoom,
) -> Result<Option<(Result<(), StepFault>, bool)>, AllocError>
    requires few { length trees.now ≤ 40 }
    requires nodes { sum (nodes_of trees.now) ≤ 2000 }
    requires weights { AreWeightsOf trees.now weights.now }
    requires derived { derived.old.nodes ≡ nodes_of trees.now }
    ensures nodes { derived.new.nodes ≡ nodes_of trees.now }
{
    derived.clear_tolls();
    if derived.len() == 0 {
        return Ok(None);
    }
    derived.put_toll(0, i64::from(toll));
    let mut walk = Walk::new(alloc, trees)?;
    let start = free(alloc, trees)?;
    walk.begin(&start);
    let m = rates(0);
    let weighing = Weighing::Group(weights);
    let room = Room::new(&[false]);
    let answer = take_leaf(
        &mut walk, trees, &weighing, derived, 10, &m, &room, toll_room,
    );
    Ok(Some((answer, walk.is_closed())))
}

/// The trees, with what they are worth, and what they take of the derived good.
#[derive(Drop)]
struct Market {
    trees: [Tree; 4],
    weights: AllWeights,
    amounts: Amounts,
}

/// The seller and three buyers.
fn build_market(alloc: Global) -> Result<Market, Fail>
    ensures nodes { IfOk result (λ market. sum (nodes_of market.trees) ≤ 2000) }
    ensures weights { IfOk result (λ market. AreWeightsOf market.trees market.weights) }
    ensures amounts { IfOk result (λ market. nodes_of market.amounts ≡ nodes_of market.trees) }
{
    let (a, a_value) = sells(0)?;
    let (b, b_value) = buys(10)?;
    let (c, c_value) = buys(10)?;
    let (d, d_value) = buys(10)?;
    let trees = [a, b, c, d];
    let weights = lower(alloc, &trees, &[a_value, b_value, c_value, d_value])?;
    let amounts = pairs(alloc, &trees)?;
    Ok(Market {
        trees,
        weights,
        amounts,
    })
}

/// What comes of each derivation: the limit, the multiplier, and the answer.
const DERIVATIONS: [(i32, i32, Result<(), StepFault>); 5] = [
    // 3 * 2,048 = 6,144, and a pair nets 0: the bound is 1
    (0, 2_048, Err(StepFault::Above { bound: 1 })),
    (1, 2_048, Ok(())),
    // 3 * 2,047 + 3 * 2 = 6,147: 1
    (1, 2_047, Ok(())),
    // 3 * 2,731 = 8,193: 2
    (1, 2_731, Err(StepFault::Above { bound: 2 })),
    (1, -1, Err(StepFault::Sign)),
];

#[test]
fn derivations(rt: HostRuntime) -> Result<(), Fail> {
    let alloc = rt.alloc();
    let market = build_market(alloc)?;
    let mut toll_room = TollRoom::new();
    for (limit, multiplier, expected) in DERIVATIONS {
        let mut derived = DerivedGoods::with_room(alloc, &market.trees, 1)?;
        let answer = added(
            alloc,
            &market.trees,
            &market.amounts,
            limit,
            multiplier,
            &mut derived,
            &mut toll_room,
        )?;
        assert_eq!(rt; answer, expected);
        assert_eq!(rt; derived.len() == 1, expected.is_ok());
    }
    Ok(())
}

/// The bound at a multiplier and a toll.
const BOUNDS: [(i32, i32, i128); 5] = [
    (20_480, 0, 15),
    // 3 * 40,960 = 122,880: 30
    (0, 0, 30),
    // 40,960 is 10 limits of 1, and a pair nets 0
    (0, 40_960, 10),
    // 40,959 + 3 = 40,962: 10
    (0, 40_959, 10),
    // 36,000 + 3 * 4,960 = 50,880: 12
    (0, 36_000, 12),
];

#[test]
fn bounds(rt: HostRuntime) -> Result<(), Fail> {
    let alloc = rt.alloc();
    let market = build_market(alloc)?;
    let mut toll_room = TollRoom::new();
    let mut derived = DerivedGoods::with_room(alloc, &market.trees, 1)?;
    let is_added = added(
        alloc,
        &market.trees,
        &market.amounts,
        1,
        2_048,
        &mut derived,
        &mut toll_room,
    )?;
    assert_eq!(rt; is_added, Ok(()));
    // each toll is changed into the next one
    for (multiplier, toll, bound) in BOUNDS {
        let answer = bound_at(
            alloc,
            &market.trees,
            &market.weights,
            &mut derived,
            multiplier,
            toll,
            &mut toll_room,
        )?;
        assert_eq!(rt; answer, Some(Bound::AtMost(bound)));
    }
    Ok(())
}

/// What becomes of a leaf at a toll.
const LEAVES: [(i32, Result<(), StepFault>); 4] = [
    (40_960, Ok(())),
    (40_959, Ok(())),
    (36_000, Err(StepFault::Above { bound: 12 })),
    (-1, Err(StepFault::Sign)),
];

#[test]
fn leaves(rt: HostRuntime) -> Result<(), Fail> {
    let alloc = rt.alloc();
    let market = build_market(alloc)?;
    let mut toll_room = TollRoom::new();
    let mut derived = DerivedGoods::with_room(alloc, &market.trees, 1)?;
    let is_added = added(
        alloc,
        &market.trees,
        &market.amounts,
        1,
        2_048,
        &mut derived,
        &mut toll_room,
    )?;
    assert_eq!(rt; is_added, Ok(()));
    for (toll, expected) in LEAVES {
        let answer = leaf_at(
            alloc,
            &market.trees,
            &market.weights,
            &mut derived,
            toll,
            &mut toll_room,
        )?;
        assert_eq!(rt; answer, Some((expected, expected.is_ok())));
    }
    Ok(())
}
