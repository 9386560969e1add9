//! Kept bounds while marks and multipliers are drawn: after each change they are those that are
//! reckoned anew.
ghost use Rattle.std.specs.Prelude.{◌≡◌, ◌<◌, ◌≤◌, length, IfOk, IfSome};
ghost use Rattle.ice_defs.specs.Exchange.{trees_of};
ghost use Rattle.ice_defs.specs.Trade.{tree_of};
ghost use Rattle.ice_defs.specs.Conditions.{AreWeightsOf};

use crate::plain::Draws;
use ice_best::Mark;
use ice_bound::{Desk, Kept, bound};
use ice_gen::generate;
use ice_trade::Exchange;
use ice_tree::{AllWeights, Tree};
use std::alloc::{AllocError, Global};
use std::test::Fail;

/// So many nodes has the exchange.
const NODES: u16 = 68;

/// Its goods are counted from the last node on.
const PLACES: u16 = NODES + 12;

/// How many nodes the bidder's tree has.
fn nodes_of(kept: &Kept, bidder: u8) -> u16
    requires { bidder < length kept.now.trees }
    ensures { result ≡ length (tree_of kept.now.trees bidder) }
{
    kept.marks().of(bidder).len()
}

/// The node of this number, counted over all bidders in order.
fn node_at(kept: &Kept, number: u16) -> Option<(u8, u16)>
    ensures bidder { IfSome result (λ place. place.0 < length kept.now.trees) }
    ensures node { IfSome result (λ place. place.1 < length (tree_of kept.now.trees place.0)) }
{
    let mut left = number;
    for bidder in 0..kept.len() {
        let nodes = nodes_of(kept, bidder);
        if left < nodes {
            return Some((bidder, left));
        }
        left -= nodes;
    }
    None
}

/// The mark of a number.
fn mark_of(number: u16) -> Mark {
    match number {
        0 => Mark::Free,
        1 => Mark::Must,
        _ => Mark::Never,
    }
}

/// Gives a good another multiplier, where there is such a good.
fn put(kept: &mut Kept, good: u16, number: u16)
    ensures trees { kept.new.trees ≡ kept.old.trees }
    ensures exact { kept.new.exact ≡ kept.old.exact }
{
    if good < u16::from(kept.multipliers().len()) {
        kept.put_multiplier(good as u8, i64::from(number));
    }
}

/// Draws a change, and makes it.
fn change(kept: &mut Kept, draws: &mut Draws)
    ensures trees { kept.new.trees ≡ kept.old.trees }
    ensures exact { kept.new.exact ≡ kept.old.exact }
{
    let place = draws.below(PLACES);
    match node_at(kept, place) {
        Some((bidder, node)) => kept.mark(bidder, node, mark_of(draws.below(3))),
        None => put(kept, place.saturating_sub(NODES), draws.below(2000)),
    }
}

/// Whether the kept bound is the one that is reckoned anew.
fn is_right(kept: &Kept, trees: &[Tree], weights: &AllWeights, desk: &mut Desk) -> bool
    requires few { length trees.now ≤ 40 }
    requires weights { AreWeightsOf trees.now weights.now }
    requires trees { kept.now.trees ≡ trees.now }
    requires exact { kept.now.exact ≡ desk.old.room }
    ensures { desk.new.room ≡ desk.old.room }
{
    kept.bound() == bound(trees, weights, kept.multipliers(), kept.marks(), desk)
}

/// How many of 1,000 drawn changes leave the kept bound right.
fn right_changes(kept: &mut Kept, trees: &[Tree], weights: &AllWeights, desk: &mut Desk) -> u16
    requires few { length trees.now ≤ 40 }
    requires weights { AreWeightsOf trees.now weights.now }
    requires trees { kept.old.trees ≡ trees.now }
    requires exact { kept.old.exact ≡ desk.old.room }
{
    let mut draws = Draws::new(7);
    let mut right: u16 = 0;
    for _change in 0..1000 {
        change(kept, &mut draws);
        if is_right(kept, trees, weights, desk) {
            right = right.saturating_add(1);
        }
    }
    right
}

/// The lower values as weights.
fn lower(alloc: Global, exchange: &Exchange) -> Result<AllWeights, AllocError>
    ensures { IfOk result (AreWeightsOf (trees_of exchange.now)) }
{
    let mut weights = AllWeights::new(alloc, exchange.trees())?;
    weights.fill_lower(exchange.bounds());
    Ok(weights)
}

/// How many of 1,000 drawn changes leave the exchange's kept bound right.
fn right_of(alloc: Global, exchange: &Exchange) -> Result<u16, AllocError> {
    let trees = exchange.trees();
    let weights = lower(alloc, exchange)?;
    let mut kept = Kept::new(alloc, trees, &weights, exchange.exact())?;
    let mut desk = Desk::new(alloc, trees, exchange.exact())?;
    Ok(right_changes(&mut kept, trees, &weights, &mut desk))
}

#[test]
fn kept_bounds_are_right_after_each_change(rt: HostRuntime) -> Result<(), Fail> {
    let made = generate(rt.alloc(), 7)?;
    let right = right_of(rt.alloc(), &made.exchange)?;
    assert_eq!(rt; right, 1000);
    Ok(())
}
