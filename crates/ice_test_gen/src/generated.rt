//! Generated exchanges against plain ones.
use crate::plain::{Draws, PlainNode};
use ice_gen::{Generated, generate};
use ice_trade::Exchange;
use ice_tree::Bounds;
use std::alloc::{AllocError, Global};
use std::test::Fail;

/// A node of a generated exchange, where its true value is one number.
fn node_of(made: &Generated, bidder: u8, node: u16) -> Option<PlainNode> {
    let tree = made.exchange.trees().get(bidder as usize)?;
    let bounds: &Bounds = made.exchange.bounds().get(bidder as usize)?;
    let truth: &Bounds = made.truth.get(bidder as usize)?;
    if node >= tree.nodes() || node >= bounds.len() || node >= truth.len() {
        return None;
    }
    if truth.lo(node) != truth.hi(node) {
        return None;
    }
    Some(PlainNode {
        kind: tree.kind(node),
        parent: tree.parent(node),
        lo: bounds.lo(node),
        hi: bounds.hi(node),
        truth: truth.lo(node),
    })
}

/// The nodes that a bidder should have: four sellers come first, and then four buyers.
fn wanted(alloc: Global, bidder: u8, draws: &mut Draws) -> Result<Vec<PlainNode>, AllocError> {
    if bidder < 4 {
        draws.seller(alloc, bidder)
    } else {
        draws.buyer(alloc)
    }
}

/// Whether a bidder owns one unit of each of the three goods that it sells, and none of another
/// good.
fn owns_its_goods(exchange: &Exchange, bidder: u8) -> bool {
    if bidder >= exchange.bidders() {
        return false;
    }
    for good in 0..exchange.goods() {
        let owned = u32::from(good / 3 == bidder);
        if exchange.owns(bidder, good) != owned {
            return false;
        }
    }
    true
}

#[test]
fn each_node_is_the_one_that_is_drawn(rt: HostRuntime) -> Result<(), Fail> {
    let alloc = rt.alloc();
    for number in [0, 1, 2, 7, 100, 4_294_967_295] {
        let made = generate(alloc, number)?;
        let mut draws = Draws::new(number);
        let mut nodes: usize = 0;
        assert_eq!(rt; made.exchange.goods(), 12);
        assert_eq!(rt; made.exchange.bidders(), 8);
        for bidder in 0..8 {
            let wanted = wanted(alloc, bidder, &mut draws)?;
            for (place, node) in wanted.iter().enumerate() {
                let place = u16::try_from(place).unwrap_or(u16::MAX);
                assert_eq!(rt; node_of(&made, bidder, place), Some(*node));
            }
            let past = u16::try_from(wanted.len()).unwrap_or(u16::MAX);
            assert_eq!(rt; node_of(&made, bidder, past), None);
            assert!(rt; owns_its_goods(&made.exchange, bidder));
            nodes = nodes.saturating_add(wanted.len());
        }
        assert_eq!(rt; nodes, 68);
    }
    Ok(())
}

#[test]
fn sellers_come_before_buyers(rt: HostRuntime) -> Result<(), Fail> {
    let made = generate(rt.alloc(), 7)?;
    let names = ["S0", "S1", "S2", "S3", "B0", "B1", "B2", "B3"];
    for (bidder, name) in names.iter().enumerate() {
        let found = made.exchange.find_bidder(name).map(usize::from);
        assert_eq!(rt; found, Some(bidder));
    }
    Ok(())
}
