//! Ties: of trades that are worth the same at lower values, the one with the smaller regret.
ghost use Rattle.std.specs.Prelude.{◌≡◌, ◌+◌, ◌≤◌, IfOk, IfErr, MatchOption, ◌<ℤ◌};
ghost use Rattle.ice_defs.specs.Conditions.{AreBoundsOf};
ghost use Rattle.ice_defs.specs.Exchange.{trees_of};
ghost use Rattle.ice_defs.specs.Steps.{branch_count};
ghost use Rattle.ice_search.specs.Results.{IsFoundBy, IsEnd};
ghost use Rattle.ice_regret.specs.Regretted.{IsRegretOf, lower_search, rival_search};
ghost use Rattle.ice_regret.specs.Ties.{IsTie, IsUseless, IsKeptOfTies};

use crate::lead::Regret;
use crate::rival::regret;
use ice_search::{Found, SearchEnd};
use ice_trade::Exchange;
use ice_tree::Bounds;
use std::alloc::{AllocError, Global};

/// So many rivals are taken as the final trade at most.
const TRIES: u8 = 5;

/// The greatest regret at which a session closes.
fn close_regret(exchange: &Exchange) -> i128
    ensures { result ≡ exchange.now.settings.close_regret }
{
    i128::from(exchange.settings().close_regret)
}

/// The regret of the rival as the final trade, where that is a tie and has the smaller regret. The
/// branches fall by the log's branch steps where there is one.
fn smaller_regret(
    alloc: Global,
    exchange: &Exchange,
    bounds: &[Bounds],
    best: &Found,
    kept: &Regret,
    branches: &mut u32,
) -> Result<Option<Regret>, AllocError>
    requires bounds { AreBoundsOf (trees_of exchange.now) bounds.now }
    requires found { IsFoundBy (lower_search exchange.now bounds.now) best.now }
    requires kept { IsRegretOf exchange.now bounds.now best.now.best kept.now }
    requires branches { branches.old ≤ 50000 }
    ensures { IfOk result (λ o. MatchOption o
        (IsUseless exchange.now bounds.now branches.old best.now.value kept.now)
        (λ r. IsTie exchange.now bounds.now best.now.value kept.now
        × IsRegretOf exchange.now bounds.now kept.now.rival r
        × (r.amount <ℤ kept.now.amount)
        × (branches.new + branch_count r.log ≡ branches.old))) }
{
    let _trees = exchange.trees();
    if kept.amount <= close_regret(exchange) {
        return Ok(None);
    }
    let lower = kept.rival.lower_value(bounds);
    if lower != best.value {
        return Ok(None);
    }
    match regret(
        alloc,
        exchange,
        bounds,
        &kept.rival,
        Some(&best.log),
        branches,
    ) {
        Ok(other) => {
            if other.amount < kept.amount {
                Ok(Some(other))
            } else {
                Ok(None)
            }
        }
        Err(SearchEnd::Spent(_)) => Ok(None),
        Err(SearchEnd::NoMemory) => Err(AllocError),
    }
}

/// From the regret of the best assignment that was found on, the rival is taken in its place as
/// long as that is a tie and the regret falls, and at most five times.
///
/// There were so many branches before the search for the first rival.
fn keep_smallest(
    alloc: Global,
    exchange: &Exchange,
    bounds: &[Bounds],
    best: &mut Found,
    first: Regret,
    before: u32,
    branches: &mut u32,
) -> Result<Regret, AllocError>
    requires bounds { AreBoundsOf (trees_of exchange.now) bounds.now }
    requires found { IsFoundBy (lower_search exchange.now bounds.now) best.old }
    requires first { IsRegretOf exchange.now bounds.now best.old.best first }
    requires before { before ≤ 50000 }
    requires branches { branches.old + branch_count first.log ≡ before }
    ensures found { IsFoundBy (lower_search exchange.now bounds.now) best.new }
    ensures log { best.new.log ≡ best.old.log }
    ensures regret { IfOk result (IsRegretOf exchange.now bounds.now best.new.best) }
    ensures kept { IfOk result (IsKeptOfTies exchange.now bounds.now before best.old best.new) }
    ensures branches { IfOk result (λ r. branches.new + branch_count r.log ≡ before) }
{
    let mut kept = first;
    for _try in 0..TRIES {
        let mut left = before;
        match smaller_regret(alloc, exchange, bounds, best, &kept, &mut left)? {
            None => return Ok(kept),
            Some(other) => {
                best.best = kept.into_rival();
                kept = other;
                *branches = left;
            }
        }
    }
    Ok(kept)
}

/// The regret of the best assignment at lower values, where ties are taken into account: as long as
/// the regret is above the one that closes a session, and its rival is worth as much at lower
/// values, the rival is tried as the final trade. It takes the place of the assignment where its
/// regret is smaller; at most five do. The log stays, since it refutes every greater assignment,
/// whichever of the best ones is shown.
///
/// Each try has the branches that the first one had, and only those of the log that is kept count.
/// So errors are those of `regret` for the assignment that was found. The assignment is one of the
/// best behind an error too.
pub fn regret_among_ties(
    alloc: Global,
    exchange: &Exchange,
    bounds: &[Bounds],
    best: &mut Found,
    branches: &mut u32,
) -> Result<Regret, SearchEnd>
    requires bounds { AreBoundsOf (trees_of exchange.now) bounds.now }
    requires found { IsFoundBy (lower_search exchange.now bounds.now) best.old }
    requires branches { branches.old ≤ 50000 }
    ensures found { IsFoundBy (lower_search exchange.now bounds.now) best.new }
    ensures log { best.new.log ≡ best.old.log }
    ensures regret { IfOk result (IsRegretOf exchange.now bounds.now best.new.best) }
    ensures kept { IfOk result
        (IsKeptOfTies exchange.now bounds.now branches.old best.old best.new) }
    ensures branches { IfOk result (λ r. branches.new + branch_count r.log ≡ branches.old) }
    ensures end { IfErr result (IsEnd (rival_search exchange.now bounds.now best.new.best)
        branches.old branches.new) }
{
    let before = *branches;
    let first = regret(
        alloc,
        exchange,
        bounds,
        &best.best,
        Some(&best.log),
        branches,
    )?;
    match keep_smallest(alloc, exchange, bounds, best, first, before, branches) {
        Ok(kept) => Ok(kept),
        Err(_) => {
            *branches = before;
            Err(SearchEnd::NoMemory)
        }
    }
}
