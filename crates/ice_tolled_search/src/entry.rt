//! The call of a search with derived goods.
ghost use Rattle.std.specs.Prelude.{◌≡◌, ◌+◌, IfOk, IfNone, IfSome, OnOk};
ghost use Rattle.ice_defs.specs.Exchange.{trees_of, exact_of};
ghost use Rattle.ice_defs.specs.Steps.{branch_count};
ghost use Rattle.ice_defs.specs.Trade.{IsFeasible, MeetsAll};
ghost use Rattle.ice_defs.specs.Conditions.{AreWeightsOf, AreFixingsOf};
ghost use Rattle.ice_defs.specs.Follows.{AreLawful};
ghost use Rattle.ice_refute.specs.Waiting.{nodes_of};
ghost use Rattle.ice_search.specs.Instance.{instance_of};
ghost use Rattle.ice_tolled_search.specs.Results.{IsFoundWith};
ghost use Rattle.ice_tolled_search.specs.Stated.{IsMore, AddsShown};

use crate::guide::Guide;
use crate::pass::{Passed, pass};
use crate::stated::Stated;
use ice_best::Fixings;
use ice_bound::Room;
use ice_search::{Problem, is_feasible};
use ice_tolled_log::TolledLog;
use ice_trade::Exchange;
use ice_tree::{AllWeights, Assignment};
use std::alloc::{AllocError, Global};

/// There are at most so many passes.
const PASSES: u8 = 30;

/// The best feasible assignment that meets the start.
#[derive(Drop)]
pub struct TolledFound {
    /// One set for each bidder.
    pub best: Assignment,
    /// What they are worth.
    pub value: i128,
    /// It refutes every feasible assignment that meets the start and is worth more.
    pub log: TolledLog,
}

/// The best feasible assignment that meets the start, with a log that refutes every greater one, by
/// derived goods that are stated; or none, where it gives up. Where derived goods are to be found,
/// they are stated behind the others.
///
/// It gives up where the branches don't suffice, where it knows no node to split a side at, or
/// after so many passes. The branches fall by the log's branch steps, and stay where it gives up.
/// The only error is want of memory.
pub fn search_with_tolls(
    alloc: Global,
    exchange: &Exchange,
    weights: &AllWeights,
    start: &Fixings,
    first: &Assignment,
    finds: bool,
    stated: &mut Stated,
    branches: &mut u32,
) -> Result<Option<TolledFound>, AllocError>
    requires weights { AreWeightsOf (trees_of exchange.now) weights.now }
    requires start { AreFixingsOf (trees_of exchange.now) start.now }
    requires feasible { IsFeasible (trees_of exchange.now) (exact_of exchange.now) first.now }
    requires meets { MeetsAll first.now start.now }
    requires nodes { stated.old.goods.nodes ≡ nodes_of (trees_of exchange.now) }
    requires lawful { AreLawful (trees_of exchange.now) (exact_of exchange.now)
        stated.old.goods.goods }
    // What is found
    ensures found { IfOk result (λ found. IfSome found
        (IsFoundWith (instance_of exchange.now weights.now start.now first.now) stated.new.goods.goods)) }
    ensures branches { IfOk result (λ found. IfSome found (λ f.
        branches.new + branch_count f.log ≡ branches.old)) }
    ensures none { IfOk result (λ found. IfNone found (branches.new ≡ branches.old)) }
    // What is stated
    ensures lawful { OnOk result (AreLawful (trees_of exchange.now) (exact_of exchange.now)
        stated.new.goods.goods) }
    ensures more { OnOk result (IsMore stated.old.goods stated.new.goods) }
    ensures shown { OnOk result (AddsShown (trees_of exchange.now) (exact_of exchange.now)
        stated.old.shown.items stated.new.shown.items) }
{
    // The exchange has at most 40 bidders, 32 goods and 2,000 nodes.
    let _goods = Problem::new(exchange, weights, start, first).goods();
    let trees = exchange.trees();
    let room = Room::new(exchange.exact());
    let mut best = Assignment::empty(alloc, trees)?;
    best.copy_from(first);
    let mut value = best.value(trees, weights);
    let mut guide = Guide::new(alloc, trees, weights, exchange.exact(), start)?;
    if finds {
        guide.find(alloc, trees, &room, value, stated)?;
    } else {
        guide.take_stated(alloc, trees, stated)?;
    }
    for _pass in 0..PASSES {
        match pass(
            alloc, exchange, weights, start, value, &mut guide, stated, *branches,
        )? {
            Passed::Whole { log, left } => {
                *branches = left;
                return Ok(Some(TolledFound { best, value, log }));
            }
            Passed::Better(sets) => {
                if !is_feasible(exchange, start, &sets) {
                    return Ok(None);
                }
                let worth = sets.value(trees, weights);
                if worth <= value {
                    return Ok(None);
                }
                best = sets;
                value = worth;
            }
            Passed::GivenUp => return Ok(None),
        }
    }
    Ok(None)
}
