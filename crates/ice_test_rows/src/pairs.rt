//! Duals of the market of pairs.
ghost use Rattle.std.specs.Prelude.{IfOk};
ghost use Rattle.ice_defs.specs.Conditions.{AreWeightsOf, AreBoundsOf, AreFixingsOf};

use ice_best::Fixings;
use ice_master::{Aim, Master};
use ice_rows::{Rows, Taken};
use ice_tree::{AllWeights, Bounds, Tree};
use std::alloc::{AllocError, Global};
use std::test::Fail;

/// One, in the parts in which shares are told.
const ONE: i64 = 1 << 40;

/// The values as weights.
fn lower(alloc: Global, trees: &[Tree], bounds: &[Bounds]) -> Result<AllWeights, AllocError>
    requires { AreBoundsOf trees.now bounds.now }
    ensures { IfOk result (AreWeightsOf trees.now) }
{
    let mut weights = AllWeights::new(alloc, trees)?;
    weights.fill_lower(bounds);
    Ok(weights)
}

/// No node is marked.
fn free(alloc: Global, trees: &[Tree]) -> Result<Fixings, AllocError>
    ensures { IfOk result (AreFixingsOf trees.now) }
{
    Fixings::free(alloc, trees)
}

/// The market, and the side in which no node is marked.
fn market(alloc: Global) -> Result<Master, Fail> {
    let (trees, bounds) = ice_pairs::market()?;
    let weights = lower(alloc, &trees, &bounds)?;
    let marks = free(alloc, &trees)?;
    let mut master = Master::new(alloc, &trees, &weights, &[false])?;
    master.look_at(&trees, &marks);
    Ok(master)
}

/// That a buyer has its pair.
fn pair_of(bidder: u8) -> Taken {
    Taken {
        bidder,
        node: 0,
        amount: 1,
    }
}

/// How many pairs the mix has.
fn pairs_in(rows: &Rows, master: &Master) -> i64 {
    let mut pairs: i64 = 0;
    for bidder in 1..4 {
        pairs = pairs.wrapping_add(rows.shares_of(master, bidder)[0]);
    }
    pairs
}

#[test]
fn one_pair(rt: HostRuntime) -> Result<(), Fail> {
    let alloc = rt.alloc();
    let mut master = market(alloc)?;
    let mut rows = Rows::new(alloc, &master)?;
    assert_eq!(rt; rows.len(), 0);
    assert_eq!(rt; rows.solve(&mut master, Aim::DUAL), 61_440);
    assert_eq!(rt; rows.objective(&master), 61_440);
    assert_eq!(rt; rows.multipliers(&master)[0], 20_480);
    assert_eq!(rt; pairs_in(&rows, &master), ONE + ONE / 2);
    let half = rows.basis();
    // the mix there is takes one and a half of the derived good
    let pairs = [pair_of(1), pair_of(2), pair_of(3)];
    assert_eq!(rt; rows.put(&pairs, 1), Some(0));
    assert_eq!(rt; rows.len(), 1);
    assert_eq!(rt; rows.solve(&mut master, Aim::DUAL), 40_960);
    assert_eq!(rt; rows.objective(&master), 40_960);
    assert_eq!(rt; rows.multipliers(&master)[0], 0);
    assert_eq!(rt; rows.tolls(&master)[0], 40_960);
    assert_eq!(rt; pairs_in(&rows, &master), ONE);
    // from where it ended, and from the basis of before
    assert_eq!(rt; rows.solve(&mut master, Aim::DUAL), 40_960);
    rows.start_from(&half);
    assert_eq!(rt; rows.solve(&mut master, Aim::DUAL), 40_960);
    // what is made of goods alone stays as it was
    assert_eq!(rt; master.solve(Aim::DUAL).bound, 15 * 64);
    rows.keep(&[false; 144]);
    assert_eq!(rt; rows.len(), 0);
    assert_eq!(rt; rows.solve(&mut master, Aim::DUAL), 61_440);
    Ok(())
}

/// The bound at a multiplier and a toll.
const BOUNDS: [(i64, i64, i64); 4] = [
    (20_480, 0, 61_440),
    // 3 * 40,960
    (0, 0, 122_880),
    (0, 40_960, 40_960),
    // 36,000 + 3 * 4,960
    (0, 36_000, 50_880),
];

#[test]
fn bounds(rt: HostRuntime) -> Result<(), Fail> {
    let alloc = rt.alloc();
    let mut master = market(alloc)?;
    let mut rows = Rows::new(alloc, &master)?;
    assert_eq!(rt; rows.put(&[pair_of(1), pair_of(2), pair_of(3)], 1), Some(0));
    for (multiplier, toll, bound) in BOUNDS {
        let mut multipliers = [0; 32];
        let mut tolls = [0; 144];
        multipliers[0] = multiplier;
        tolls[0] = toll;
        assert_eq!(rt; rows.bound_at(&mut master, &multipliers, &tolls), bound);
    }
    Ok(())
}

#[test]
fn no_more_than_144_rows(rt: HostRuntime) -> Result<(), Fail> {
    let alloc = rt.alloc();
    let mut master = market(alloc)?;
    let mut rows = Rows::new(alloc, &master)?;
    for number in 0..142 {
        assert_eq!(rt; rows.put(&[pair_of(1)], 1), Some(number));
    }
    assert!(rt; !rows.is_full());
    // the last of three pairs is that of no bidder
    let pairs = [pair_of(1), pair_of(2), pair_of(3), pair_of(4)];
    assert_eq!(rt; rows.put(&pairs, 1), Some(142));
    assert!(rt; rows.is_full());
    assert_eq!(rt; rows.put(&pairs, 1), None);
    assert_eq!(rt; rows.solve(&mut master, Aim::DUAL), 40_960);
    assert_eq!(rt; rows.tolls(&master)[142], 40_960);
    // a number is given again
    let mut kept = [true; 144];
    kept[7] = false;
    rows.keep(&kept);
    assert_eq!(rt; rows.put(&[], 0), Some(7));
    assert_eq!(rt; rows.solve(&mut master, Aim::DUAL), 40_960);
    Ok(())
}
