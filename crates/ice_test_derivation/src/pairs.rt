//! The derived good of the market of pairs, and records and groups that use it.
ghost use Rattle.std.specs.Prelude.{◌≡◌, ◌≤◌, length, sum, IfOk};
ghost use Rattle.ice_refute.specs.Waiting.{nodes_of};
ghost use Rattle.ice_derivation.specs.Derivations.{AreKept};

use ice_best::Fixings;
use ice_derivation::{Derivations, Fault, Numbered};
use ice_derived::{Amounts, Weighing};
use ice_pairs::{market, of_buyers};
use ice_refute::{Step, StepFault};
use ice_tree::Tree;
use std::alloc::{AllocError, Global};
use std::test::Fail;

/// The trees, with what their nodes are worth.
#[derive(Drop)]
struct Market {
    trees: [Tree; 4],
    values: Amounts,
}

/// The seller and three buyers.
fn build_market(alloc: Global) -> Result<Market, Fail>
    ensures nodes { IfOk result (λ market. sum (nodes_of market.trees) ≤ 2000) }
    ensures values { IfOk result (λ market. nodes_of market.values ≡ nodes_of market.trees) }
{
    let (trees, _bounds) = market()?;
    let values = of_buyers(alloc, &trees, 10)?;
    Ok(Market { trees, values })
}

/// Derivations of these trees, with one derived good.
fn one_allowed(alloc: Global, market: &Market) -> Result<Derivations, AllocError>
    requires { sum (nodes_of market.now.trees) ≤ 2000 }
    ensures { IfOk result (AreKept market.now.trees) }
{
    Derivations::new(alloc, &market.trees, &[false], 1)
}

/// Takes the amount 1 of the first node of a bidder.
fn one_of(derivations: &mut Derivations, trees: &[Tree], bidder: u8) -> Result<(), Fault>
    requires few { length trees.now ≤ 40 }
    requires kept { AreKept trees.now derivations.old }
    ensures { AreKept trees.now derivations.new }
{
    let one = [Numbered {
        number: 0,
        amount: 1,
    }];
    derivations.amounts(trees, bidder, &one)
}

/// Takes this limit.
fn limit(derivations: &mut Derivations, trees: &[Tree], limit: i32) -> Result<(), Fault>
    requires few { length trees.now ≤ 40 }
    requires kept { AreKept trees.now derivations.old }
    ensures { AreKept trees.now derivations.new }
{
    derivations.derive(trees, i64::from(limit))
}

/// Takes this limit, and an amount of 1 of each pair.
fn pairs(derivations: &mut Derivations, trees: &[Tree], most: i32) -> Result<(), Fault>
    requires few { length trees.now ≤ 40 }
    requires kept { AreKept trees.now derivations.old }
    ensures { AreKept trees.now derivations.new }
{
    limit(derivations, trees, most)?;
    one_of(derivations, trees, 1)?;
    one_of(derivations, trees, 2)?;
    one_of(derivations, trees, 3)
}

/// Takes a leaf that changes the number at this place.
fn leaf(derivations: &mut Derivations, trees: &[Tree], place: u16, number: i32) -> Result<(), Fault>
    requires few { length trees.now ≤ 40 }
    requires kept { AreKept trees.now derivations.old }
    ensures { AreKept trees.now derivations.new }
{
    let change = [Numbered {
        number: place,
        amount: i64::from(number),
    }];
    derivations.leaf(trees, &change)
}

/// Takes a limit, an amount of 1 of each pair, and a leaf.
fn derived(
    derivations: &mut Derivations,
    trees: &[Tree],
    limit: i32,
    place: u16,
    number: i32,
) -> Result<(), Fault>
    requires few { length trees.now ≤ 40 }
    requires kept { AreKept trees.now derivations.old }
    ensures { AreKept trees.now derivations.new }
{
    pairs(derivations, trees, limit)?;
    leaf(derivations, trees, place, number)
}

/// A derivation of the pairs, by its limit and the one number that its leaf has, and what comes of
/// it.
const DERIVATIONS: [(i32, u16, i32, Result<(), Fault>); 6] = [
    (1, 0, 2_048, Ok(())),
    // 3 * 2,048 = 6,144, and a pair nets 0: the bound is 1
    (0, 0, 2_048, Err(Fault::Step(StepFault::Above { bound: 1 }))),
    // 3 * 2,047 + 3 * 2 = 6,147: 1
    (1, 0, 2_047, Ok(())),
    // 3 * 2,731 = 8,193: 2
    (1, 0, 2_731, Err(Fault::Step(StepFault::Above { bound: 2 }))),
    (1, 0, -1, Err(Fault::Step(StepFault::Sign))),
    // the derived good itself
    (1, 1, 40_960, Err(Fault::Near)),
];

#[test]
fn derivations(rt: HostRuntime) -> Result<(), Fail> {
    let alloc = rt.alloc();
    let market = build_market(alloc)?;
    for (limit, place, number, expected) in DERIVATIONS {
        let mut derivations = one_allowed(alloc, &market)?;
        let answer = derived(&mut derivations, &market.trees, limit, place, number);
        assert_eq!(rt; answer, expected);
        assert_eq!(rt; derivations.is_outside(), expected.is_ok());
        assert_eq!(rt; derivations.walk.is_full(), expected.is_ok());
    }
    Ok(())
}

/// What becomes of a group's log with target 10 and this toll on the derived good.
const GROUPS: [(u16, i32, Result<(), Fault>); 6] = [
    (1, 40_960, Ok(())),
    // 40,959 + 3 = 40,962: 10
    (1, 40_959, Ok(())),
    // 36,000 + 3 * 4,960 = 50,880: 12
    (1, 36_000, Err(Fault::Step(StepFault::Above { bound: 12 }))),
    (1, -1, Err(Fault::Step(StepFault::Sign))),
    // there is one derived good, and each toll is 0
    (2, 1, Err(Fault::Near)),
    (1, 0, Err(Fault::Near)),
];

/// Walks a group's log of one leaf.
fn group(
    alloc: Global,
    derivations: &mut Derivations,
    market: &Market,
    place: u16,
    toll: i32,
) -> Result<Result<(), Fault>, AllocError>
    requires values { nodes_of market.now.values ≡ nodes_of market.now.trees }
    requires nodes { derivations.old.walk.nodes ≡ nodes_of market.now.trees }
    ensures { derivations.new.walk.nodes ≡ derivations.old.walk.nodes }
{
    let start = Fixings::free(alloc, &market.trees)?;
    derivations.walk.begin(&start);
    // each value is in range
    let _bidders = market.values.bidders();
    let weighing = Weighing::Derivation(&market.values);
    let change = [Numbered {
        number: place,
        amount: i64::from(toll),
    }];
    Ok(derivations.walk.leaf(&market.trees, &weighing, 10, &change))
}

#[test]
fn groups(rt: HostRuntime) -> Result<(), Fail> {
    let alloc = rt.alloc();
    let market = build_market(alloc)?;
    let mut derivations = one_allowed(alloc, &market)?;
    let stands = derived(&mut derivations, &market.trees, 1, 0, 2_048);
    assert_eq!(rt; stands, Ok(()));
    for (place, toll, expected) in GROUPS {
        let answer = group(alloc, &mut derivations, &market, place, toll)?;
        assert_eq!(rt; answer, expected);
        assert_eq!(rt; derivations.walk.is_closed(), expected.is_ok());
    }
    Ok(())
}

/// A record of the derivation.
#[derive(Clone, Copy)]
enum Record {
    Limit,
    /// An amount of 1 of the bidder's first node.
    One(u8),
    /// An amount of a second node of bidder 2.
    NoNode,
    /// At the first buyer's pair.
    Branch,
    Dead,
    /// Multiplier 2,048.
    Leaf,
    /// The numbers of the leaf before.
    Same,
}

/// Takes a record.
fn take(derivations: &mut Derivations, trees: &[Tree], record: Record) -> Result<(), Fault>
    requires few { length trees.now ≤ 40 }
    requires kept { AreKept trees.now derivations.old }
    ensures { AreKept trees.now derivations.new }
{
    match record {
        Record::Limit => limit(derivations, trees, 1),
        Record::One(bidder) => one_of(derivations, trees, bidder),
        Record::NoNode => no_node(derivations, trees),
        Record::Branch => derivations.step(trees, &Step::Branch { bidder: 1, node: 0 }),
        Record::Dead => derivations.step(trees, &Step::Dead { bidder: 2 }),
        Record::Leaf => leaf(derivations, trees, 0, 2_048),
        Record::Same => derivations.leaf(trees, &[]),
    }
}

/// Takes an amount of a node that isn't there.
fn no_node(derivations: &mut Derivations, trees: &[Tree]) -> Result<(), Fault>
    requires few { length trees.now ≤ 40 }
    requires kept { AreKept trees.now derivations.old }
    ensures { AreKept trees.now derivations.new }
{
    let second = [Numbered {
        number: 1,
        amount: 1,
    }];
    derivations.amounts(trees, 2, &second)
}

/// Records one after another, and what comes of each.
const RECORDS: [(Record, Result<(), Fault>); 21] = [
    // no derivation is open
    (Record::One(1), Err(Fault::Order)),
    (Record::Leaf, Err(Fault::Order)),
    (Record::Limit, Ok(())),
    // it has no amounts yet
    (Record::Limit, Err(Fault::Order)),
    (Record::Leaf, Err(Fault::Order)),
    (Record::Branch, Err(Fault::Order)),
    (Record::Dead, Err(Fault::Order)),
    (Record::One(1), Ok(())),
    // bidders ascend, and are there
    (Record::One(1), Err(Fault::Order)),
    (Record::One(4), Err(Fault::Derived)),
    (Record::NoNode, Err(Fault::Derived)),
    (Record::One(2), Ok(())),
    (Record::One(3), Ok(())),
    (Record::Branch, Ok(())),
    (Record::One(3), Err(Fault::Order)),
    (Record::Branch, Err(Fault::Step(StepFault::Fixed))),
    (Record::Dead, Err(Fault::Step(StepFault::NotDead))),
    (Record::Leaf, Ok(())),
    (Record::Limit, Err(Fault::Order)),
    (Record::Same, Ok(())),
    // one more than is allowed
    (Record::Limit, Err(Fault::Derived)),
];

#[test]
fn order(rt: HostRuntime) -> Result<(), Fail> {
    let alloc = rt.alloc();
    let market = build_market(alloc)?;
    let mut derivations = one_allowed(alloc, &market)?;
    for (record, expected) in RECORDS {
        let answer = take(&mut derivations, &market.trees, record);
        assert_eq!(rt; answer, expected);
    }
    assert_eq!(rt; derivations.is_outside(), true);
    Ok(())
}
