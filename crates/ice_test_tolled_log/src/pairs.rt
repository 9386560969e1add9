//! Leaves with tolls, and a log of them, of the market of pairs.
ghost use Rattle.std.specs.Prelude.{◌≡◌};

use ice_bound::Multipliers;
use ice_defs::Mark;
use ice_derived::{DerivedGoods, Rates};
use ice_pairs::{market, of_buyers};
use ice_search_log::Split;
use ice_tolled_log::{LeafNumbers, TolledLog, TolledPart, TolledStep, write_tolled_log};
use std::alloc::{AllocError, Global};
use std::test::Fail;

/// The numbers of a leaf with no tolls, and a half as multiplier.
fn by_good(alloc: Global) -> Result<LeafNumbers, AllocError> {
    let mut m = Multipliers::zero(1);
    m.put(0, 32);
    LeafNumbers::of_goods(alloc, &m)
}

/// The numbers of a leaf with multiplier 0, and a toll of 10 on the pairs.
fn by_toll(alloc: Global) -> Result<LeafNumbers, Fail> {
    let (trees, _bounds) = market()?;
    let amounts = of_buyers(alloc, &trees, 1)?;
    let mut derived = DerivedGoods::with_room(alloc, &trees, 1)?;
    derived.push(&amounts, 1);
    derived.put_toll(0, 40_960);
    Ok(LeafNumbers::with_tolls(alloc, &Rates::zero(1), &derived)?)
}

/// A part with these numbers, with its mark on the first buyer's node.
fn part(mark: Mark, m: LeafNumbers, split: Option<Split>) -> TolledPart
    ensures { result.split ≡ split }
{
    TolledPart {
        above: 0,
        bidder: 1,
        node: 0,
        mark,
        m,
        key: 10,
        swept: false,
        split,
    }
}

/// The log of a part with these numbers that is split at the first buyer's node.
fn split_log(
    alloc: Global,
    first: LeafNumbers,
    must: LeafNumbers,
    never: LeafNumbers,
) -> Result<TolledLog, AllocError> {
    let split = Split {
        bidder: 1,
        node: 0,
        must: 1,
    };
    let parts = [
        part(Mark::Free, first, Some(split)),
        part(Mark::Must, must, None),
        part(Mark::Never, never, None),
    ];
    let mut log = TolledLog::new(alloc);
    write_tolled_log(alloc, &parts, None, &mut log)?;
    Ok(log)
}

/// Whether these are a branch at the first buyer's node, a leaf with the toll and one without.
fn are_split(steps: &[TolledStep]) -> bool {
    match steps {
        [
            TolledStep::Branch { bidder: 1, node: 0 },
            TolledStep::Leaf { m: must },
            TolledStep::Leaf { m: never },
        ] => { must.as_slice() == [0, 40_960].as_slice() && never.as_slice() == [2_048].as_slice() }
        _ => false,
    }
}

#[test]
fn numbers(rt: HostRuntime) -> Result<(), Fail> {
    let alloc = rt.alloc();
    let by_good = by_good(alloc)?;
    assert_eq!(rt; by_good.as_slice(), [2_048].as_slice());
    let by_toll = by_toll(alloc)?;
    assert_eq!(rt; by_toll.as_slice(), [0, 40_960].as_slice());
    Ok(())
}

#[test]
fn branch(rt: HostRuntime) -> Result<(), Fail> {
    let alloc = rt.alloc();
    let by_toll = by_toll(alloc)?;
    let first = by_toll.copy(alloc)?;
    let log = split_log(alloc, first, by_toll, by_good(alloc)?)?;
    assert!(rt; are_split(log.steps()));
    Ok(())
}
