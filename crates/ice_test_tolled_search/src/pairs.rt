//! The market of pairs: at most one of the three buyers has its pair. By the good alone no bound is
//! below 15, but one leaf with a toll shows that the best trade is worth 10.
ghost use Rattle.std.specs.Prelude.{◌≡◌, ◌≤◌, length, IfOk, OnOk};
ghost use Rattle.ice_defs.specs.Exchange.{trees_of, exact_of};
ghost use Rattle.ice_defs.specs.Conditions.{AreWeightsOf, AreFixingsOf};
ghost use Rattle.ice_defs.specs.Follows.{AreLawful};
ghost use Rattle.ice_refute.specs.Waiting.{nodes_of};
ghost use Rattle.ice_tree.specs.Making.{IsLeaf};

use ice_best::Fixings;
use ice_search::is_feasible;
use ice_terms::Settings;
use ice_tolled_log::TolledStep;
use ice_tolled_search::{Stated, TolledFound, search_with_tolls};
use ice_trade::{Exchange, ExchangeMaker};
use ice_tree::{AllWeights, Assignment, NodeKind, TreeMaker};
use std::alloc::{AllocError, Global};
use std::test::Fail;

/// Adds a bidder that owns so much of the one good, and has one leaf of this value.
fn add_bidder(
    maker: &mut ExchangeMaker,
    name: &str,
    owned: u32,
    kind: NodeKind,
    value: i64,
) -> Result<(), Fail>
    requires leaf { IsLeaf kind }
    requires owned { owned ≤ 1000000 }
    requires goods { length maker.old.goods ≡ 1 }
    ensures goods { OnOk result (length maker.new.goods ≡ 1) }
{
    let mut leaf = TreeMaker::new(1);
    leaf.leaf(kind, value, value)?;
    let (tree, bounds) = leaf.finish()?;
    maker.bidder(name, &[owned], tree, bounds)?;
    Ok(())
}

/// A seller of three units at 0, and three buyers of a pair at 10.
fn market(alloc: Global) -> Result<Exchange, Fail> {
    let Some(settings) = Settings::new(50, 0, 100, 1, 0, 100) else {
        return Err("no settings")?;
    };
    let mut maker = ExchangeMaker::new(alloc, settings)?;
    maker.good("A")?;
    let three = NodeKind::Sell { good: 0, units: 3 };
    let pair = NodeKind::Buy { good: 0, units: 2 };
    add_bidder(&mut maker, "s", 3, three, 0)?;
    add_bidder(&mut maker, "b", 0, pair, 10)?;
    add_bidder(&mut maker, "c", 0, pair, 10)?;
    add_bidder(&mut maker, "d", 0, pair, 10)?;
    Ok(maker.finish()?)
}

/// The values as weights.
fn lower(alloc: Global, exchange: &Exchange) -> Result<AllWeights, AllocError>
    ensures { IfOk result (AreWeightsOf (trees_of exchange.now)) }
{
    let mut weights = AllWeights::new(alloc, exchange.trees())?;
    weights.fill_lower(exchange.bounds());
    Ok(weights)
}

/// No node is marked.
fn free(alloc: Global, exchange: &Exchange) -> Result<Fixings, AllocError>
    ensures { IfOk result (AreFixingsOf (trees_of exchange.now)) }
{
    let marks = Fixings::free(alloc, exchange.trees())?;
    Ok(marks)
}

/// No derived goods yet, and room for so many.
fn none_yet(alloc: Global, exchange: &Exchange, most: u16) -> Result<Stated, AllocError>
    requires { most ≤ 2000 }
    ensures nodes { IfOk result (λ s. s.goods.nodes ≡ nodes_of (trees_of exchange.now)) }
    ensures lawful { IfOk result (λ s. AreLawful (trees_of exchange.now) (exact_of exchange.now)
        s.goods.goods) }
{
    let stated = Stated::with_room(alloc, exchange.trees(), most)?;
    Ok(stated)
}

/// What a search finds that begins with no trade.
fn search(
    alloc: Global,
    exchange: &Exchange,
    finds: bool,
    stated: &mut Stated,
    branches: &mut u32,
) -> Result<Option<TolledFound>, Fail>
    requires nodes { stated.old.goods.nodes ≡ nodes_of (trees_of exchange.now) }
    requires lawful { AreLawful (trees_of exchange.now) (exact_of exchange.now)
        stated.old.goods.goods }
    ensures nodes { OnOk result (stated.new.goods.nodes ≡ nodes_of (trees_of exchange.now)) }
    ensures lawful { OnOk result (AreLawful (trees_of exchange.now) (exact_of exchange.now)
        stated.new.goods.goods) }
{
    let weights = lower(alloc, exchange)?;
    let start = free(alloc, exchange)?;
    let first = Assignment::empty(alloc, exchange.trees())?;
    if !is_feasible(exchange, &start, &first) {
        return Err("no trade is not feasible")?;
    }
    let found = search_with_tolls(
        alloc, exchange, &weights, &start, &first, finds, stated, branches,
    )?;
    Ok(found)
}

/// Whether this is a value of 10, shown by one leaf with these numbers.
fn is_shown(found: &Option<TolledFound>, numbers: &[i64]) -> bool {
    let Some(found) = found else {
        return false;
    };
    match found.log.steps() {
        [TolledStep::Leaf { m }] => found.value == 10 && m.as_slice() == numbers,
        _ => false,
    }
}

/// A derived good is found, and serves a later search.
#[test]
fn one_leaf(rt: HostRuntime) -> Result<(), Fail> {
    let alloc = rt.alloc();
    let exchange = market(alloc)?;
    let mut stated = none_yet(alloc, &exchange, 10)?;
    let mut branches = 0;
    let found = search(alloc, &exchange, true, &mut stated, &mut branches)?;
    assert!(rt; is_shown(&found, &[0, 40_960]));
    assert_eq!(rt; stated.goods.len(), 1);
    let again = search(alloc, &exchange, false, &mut stated, &mut branches)?;
    assert!(rt; is_shown(&again, &[0, 40_960]));
    assert_eq!(rt; stated.goods.len(), 1);
    Ok(())
}

/// With no derived good it takes branches.
#[test]
fn branches(rt: HostRuntime) -> Result<(), Fail> {
    let alloc = rt.alloc();
    let exchange = market(alloc)?;
    let mut stated = none_yet(alloc, &exchange, 0)?;
    let mut branches = 100;
    let Some(found) = search(alloc, &exchange, true, &mut stated, &mut branches)? else {
        return Err("given up")?;
    };
    assert_eq!(rt; found.value, 10);
    assert!(rt; branches < 100);
    assert_eq!(rt; stated.goods.len(), 0);
    Ok(())
}

/// With no derived good and no branch it gives up.
#[test]
fn given_up(rt: HostRuntime) -> Result<(), Fail> {
    let alloc = rt.alloc();
    let exchange = market(alloc)?;
    let mut stated = none_yet(alloc, &exchange, 0)?;
    let mut branches = 0;
    let found = search(alloc, &exchange, true, &mut stated, &mut branches)?;
    assert!(rt; found.is_none());
    Ok(())
}
