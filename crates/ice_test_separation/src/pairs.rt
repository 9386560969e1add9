//! The market of pairs. At the dual each buyer has half of its pair. With multiplier 2,048, in
//! 4096ths, a pair takes 1 and costs as much. The seller takes -1.5, which is rounded to -1 since
//! it sells. Then it nets 2,048, so the limit is 0: no more pairs are bought than the seller sells
//! lots. The shares take 1.5 - 1 of it.
use crate::parts::{ONE, is_lone, shares};
use ice_bound::Room;
use ice_pairs::market;
use ice_separation::separate;
use std::test::Fail;

#[test]
fn pairs_of_three_units(rt: HostRuntime) -> Result<(), Fail> {
    let alloc = rt.alloc();
    let (trees, _bounds) = market()?;
    let half = shares(&[ONE / 2]);
    let room = Room::new(&[false]);
    let found = separate(alloc, &trees, &[shares(&[ONE]), half, half, half], &room)?;
    let rows = [
        [-1].as_slice(),
        [1].as_slice(),
        [1].as_slice(),
        [1].as_slice(),
    ];
    assert!(rt; is_lone(alloc, &trees, &room, &found, 2_048, &rows)?);
    Ok(())
}

/// No derived good forbids what is feasible: nobody has anything, or one buyer has its pair.
#[test]
fn trades(rt: HostRuntime) -> Result<(), Fail> {
    let (trees, _bounds) = market()?;
    let room = Room::new(&[false]);
    let (none, all) = (shares(&[]), shares(&[ONE]));
    let empty = separate(rt.alloc(), &trees, &[none, none, none, none], &room)?;
    assert_eq!(rt; empty.len(), 0);
    let sold = separate(rt.alloc(), &trees, &[all, none, all, none], &room)?;
    assert_eq!(rt; sold.len(), 0);
    Ok(())
}
