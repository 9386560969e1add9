//! Sets that bidders take, in trees of three nodes.
ghost use Rattle.std.specs.Prelude.{◌≡◌, IsTrue, length};
ghost use Rattle.ice_defs.specs.Exchange.{trees_of};
ghost use Rattle.ice_row_laws.specs.Laws.{AreSatisfied};

use crate::markets::exchange;
use ice_trade::Exchange;
use ice_tree::{Assignment, NodeSet};
use std::alloc::Global;
use std::test::Fail;

/// The root of a tree of three nodes and one of its leaves, or the empty set where there is no such
/// leaf.
pub(crate) fn with_leaf(leaf: u16) -> NodeSet
    ensures { length result ≡ 3 }
{
    let mut set = NodeSet::empty(3);
    if leaf == 1 || leaf == 2 {
        set.put(0, true);
        set.put(leaf, true);
    }
    set
}

/// Empty sets but for bidders that take a leaf.
fn sets_with(alloc: Global, exchange: &Exchange, taken: &[(u8, u16)]) -> Result<Assignment, Fail> {
    let mut sets = Assignment::empty(alloc, exchange.trees())?;
    for (bidder, leaf) in taken {
        if usize::from(*bidder) < sets.len() && sets.of(*bidder).len() == 3 {
            sets.put(*bidder, &with_leaf(*leaf));
        }
    }
    Ok(sets)
}

/// An exchange, and the sets that its bidders take.
#[derive(Drop)]
pub(crate) struct Market {
    pub(crate) exchange: Exchange,
    pub(crate) sets: Assignment,
}

/// The exchange that the lines describe, with empty sets but for bidders that take a leaf.
pub(crate) fn market_of(alloc: Global, lines: &str, taken: &[(u8, u16)]) -> Result<Market, Fail> {
    let exchange = exchange(alloc, lines)?;
    let sets = sets_with(alloc, &exchange, taken)?;
    Ok(Market { exchange, sets })
}

/// Whether there is a satisfied set for each bidder of the exchange.
pub(crate) fn are_satisfied(exchange: &Exchange, sets: &Assignment) -> bool
    ensures count { IsTrue result → length sets.now ≡ length exchange.now.bidders }
    ensures satisfied { IsTrue result → AreSatisfied (trees_of exchange.now) sets.now }
{
    if sets.len() != usize::from(exchange.bidders()) {
        return false;
    }
    if sets.len() != exchange.trees().len() {
        return false;
    }
    for (bidder, tree) in exchange.trees().iter().enumerate() {
        let set = sets.of(bidder as u8);
        if set.len() != tree.nodes() || tree.is_satisfied(set).is_err() {
            return false;
        }
    }
    true
}
