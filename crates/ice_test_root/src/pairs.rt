//! The market of pairs. By the good alone a pair and a half is sold: 15. Each pair that is bought
//! wants a lot of the seller's: 10.
ghost use Rattle.std.specs.Prelude.{◌≡◌, sum, IfOk};
ghost use Rattle.ice_defs.specs.Conditions.{AreWeightsOf, AreBoundsOf, AreFixingsOf};
ghost use Rattle.ice_refute.specs.Waiting.{nodes_of};

use ice_best::Fixings;
use ice_bound::Room;
use ice_master::{Aim, Master};
use ice_root::close_root;
use ice_rows::Rows;
use ice_tree::{AllWeights, Bounds, Tree};
use std::alloc::{AllocError, Global};
use std::test::Fail;

/// The values as weights.
fn lower(alloc: Global, trees: &[Tree], bounds: &[Bounds]) -> Result<AllWeights, AllocError>
    requires { AreBoundsOf trees.now bounds.now }
    ensures { IfOk result (AreWeightsOf trees.now) }
{
    let mut weights = AllWeights::new(alloc, trees)?;
    weights.fill_lower(bounds);
    Ok(weights)
}

/// No node is marked.
fn free(alloc: Global, trees: &[Tree]) -> Result<Fixings, AllocError>
    ensures { IfOk result (AreFixingsOf trees.now) }
{
    Fixings::free(alloc, trees)
}

/// The trees, and the side in which no node is marked.
fn market(alloc: Global) -> Result<([Tree; 4], Master), Fail>
    ensures { IfOk result (λ r. sum (nodes_of r.0) ≡ 4) }
{
    let (trees, bounds) = ice_pairs::market()?;
    let weights = lower(alloc, &trees, &bounds)?;
    let marks = free(alloc, &trees)?;
    let mut master = Master::new(alloc, &trees, &weights, &[false])?;
    master.look_at(&trees, &marks);
    Ok((trees, master))
}

/// No more pairs are bought than the seller sells lots.
#[test]
fn a_lot_for_each_pair(rt: HostRuntime) -> Result<(), Fail> {
    let alloc = rt.alloc();
    let (trees, mut master) = market(alloc)?;
    let room = Room::new(&[false]);
    let mut rows = Rows::new(alloc, &master)?;
    assert_eq!(rt; rows.solve(&mut master, Aim::DUAL), 61_440);
    let found = close_root(alloc, &trees, &room, i64::MIN, &mut master, &mut rows)?;
    assert_eq!(rt; found.len(), 1);
    assert_eq!(rt; found[0].limit(), 0);
    assert_eq!(rt; found[0].multiplier(), 2_048);
    assert_eq!(rt; rows.len(), 1);
    assert_eq!(rt; rows.solve(&mut master, Aim::DUAL), 40_960);
    assert_eq!(rt; rows.tolls(&master)[0], 40_960);
    Ok(())
}

/// It ends where a bound is below what is to be reached.
#[test]
fn closed_at_once(rt: HostRuntime) -> Result<(), Fail> {
    let alloc = rt.alloc();
    let (trees, mut master) = market(alloc)?;
    let room = Room::new(&[false]);
    let mut rows = Rows::new(alloc, &master)?;
    let found = close_root(alloc, &trees, &room, 16 * 64, &mut master, &mut rows)?;
    assert_eq!(rt; found.len(), 0);
    assert_eq!(rt; rows.len(), 0);
    Ok(())
}
