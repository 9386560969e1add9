//! Passes of the search: each shows that nothing is worth more than a value, or ends early.
ghost use Rattle.std.specs.Prelude.{◌≡◌, ◌≤◌, length, sum, IfOk};
ghost use Rattle.ice_defs.specs.Exchange.{trees_of, exact_of};
ghost use Rattle.ice_defs.specs.Conditions.{AreWeightsOf, AreFixingsOf};
ghost use Rattle.ice_refute.specs.Waiting.{nodes_of};
ghost use Rattle.ice_tolled_search.specs.Pass.{IsPass};
ghost use Rattle.ice_tolled_search.specs.Stated.{AreSame};

use crate::guide::Guide;
use crate::stated::Stated;
use crate::steps::{close_swept, close_tolled, split};
use ice_best::Fixings;
use ice_bound::{Desk, copy_fixings};
use ice_derived::TollRoom;
use ice_refute::Walk;
use ice_search::is_feasible;
use ice_tolled_log::TolledLog;
use ice_trade::Exchange;
use ice_tree::{AllWeights, Assignment};
use std::alloc::{AllocError, Global};

/// How a pass ends.
#[derive(Drop)]
pub(crate) enum Passed {
    /// Nothing is worth more, by this log; and so many branches are left.
    Whole { log: TolledLog, left: u32 },
    /// This may be worth more.
    Better(Assignment),
    /// It is given up.
    GivenUp,
}

/// A pass from the start, with so many branches: where it is whole, nothing that meets the start is
/// worth more than the value.
pub(crate) fn pass(
    alloc: Global,
    exchange: &Exchange,
    weights: &AllWeights,
    start: &Fixings,
    value: i128,
    guide: &mut Guide,
    stated: &mut Stated,
    branches: u32,
) -> Result<Passed, AllocError>
    requires few { length (trees_of exchange.now) ≤ 40 }
    requires few_goods { length (exact_of exchange.now) ≤ 32 }
    requires few_nodes { sum (nodes_of (trees_of exchange.now)) ≤ 2000 }
    requires weights { AreWeightsOf (trees_of exchange.now) weights.now }
    requires start { AreFixingsOf (trees_of exchange.now) start.now }
    requires nodes { stated.old.goods.nodes ≡ nodes_of (trees_of exchange.now) }
    ensures pass { IfOk result (IsPass stated.old.goods.goods (trees_of exchange.now)
        (exact_of exchange.now) weights.now value start.now branches) }
    ensures same { AreSame stated.old.goods stated.new.goods }
    ensures shown { stated.new.shown.items ≡ stated.old.shown.items }
{
    let trees = exchange.trees();
    let mut desk = Desk::new(alloc, trees, exchange.exact())?;
    let mut toll_room = TollRoom::new();
    let mut walk = Walk::new(alloc, trees)?;
    let mut marks = Fixings::free(alloc, trees)?;
    walk.begin(start);
    let mut log = TolledLog::new(alloc);
    let mut left = branches;
    stated.goods.clear_tolls();
    while !walk.is_closed() {
        let bound = guide.look(trees, walk.side(), value);
        let m = guide.rates(&desk.room);
        guide.put_tolls(stated);
        if close_tolled(
            alloc,
            trees,
            weights,
            value,
            &m,
            stated,
            &mut walk,
            &mut log,
            &desk,
            &mut toll_room,
        )? {
            continue;
        }
        if close_swept(
            alloc, trees, weights, value, stated, &mut walk, &mut log, &mut desk,
        )? {
            continue;
        }
        let sets = guide.rounded(alloc, trees)?;
        if is_feasible(exchange, start, &sets) && sets.value(trees, weights) > value {
            return Ok(Passed::Better(sets));
        }
        copy_fixings(&mut marks, walk.side());
        let Some(node) = guide.choose(trees, &mut marks, value, bound) else {
            return Ok(Passed::GivenUp);
        };
        if left == 0 {
            return Ok(Passed::GivenUp);
        }
        if !split(
            trees, weights, value, node, stated, &mut walk, &mut log, &mut desk,
        )? {
            return Ok(Passed::GivenUp);
        }
        left -= 1;
    }
    Ok(Passed::Whole { log, left })
}
