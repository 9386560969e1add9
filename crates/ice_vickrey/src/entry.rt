//! What a market is worth without a bidder.
ghost use Rattle.std.specs.Prelude.{◌≡◌, ◌+◌, ◌<◌, ◌≤◌, length, IfOk, IfErr};
ghost use Rattle.ice_defs.specs.Exchange.{trees_of, exact_of};
ghost use Rattle.ice_defs.specs.Steps.{branch_count};
ghost use Rattle.ice_defs.specs.Trade.{IsFeasible, IsBestOfAll, total_value};
ghost use Rattle.ice_defs.specs.Weighing.{lower_weights};
ghost use Rattle.ice_defs.specs.Conditions.{AreBoundsOf};
ghost use Rattle.ice_search.specs.Results.{IsEnd};
ghost use Rattle.ice_vickrey.specs.Economy.{economy_at, without_search};
ghost use Rattle.ice_vickrey.specs.Marginals.{IsMarginalOf};

use crate::economy::Economy;
use crate::marginal::Marginal;
use ice_search::{Found, SearchEnd};
use ice_trade::Exchange;
use ice_tree::{Assignment, Bounds};
use std::alloc::Global;

/// What a market is worth at the lower values of bounds without the bidder, with its Vickrey
/// discount, where the best assignment there is given: what that is worth above the best one in
/// which the bidder has the empty set. That one is found by a search from the empty assignment with
/// the bidder's root left out. Assignments that are known, as those found without other bidders,
/// guide the search, and decide nothing.
///
/// The branches fall by the log's branch steps. Errors are those of `search`. There are at most
/// 50,000 branches.
pub fn without_bidder(
    alloc: Global,
    exchange: &Exchange,
    bounds: &[Bounds],
    best: &Found,
    known: &[Assignment],
    bidder: u8,
    branches: &mut u32,
) -> Result<Marginal, SearchEnd>
    requires bounds { AreBoundsOf (trees_of exchange.now) bounds.now }
    requires feasible { IsFeasible (trees_of exchange.now) (exact_of exchange.now) best.now.best }
    requires value { total_value best.now.best (lower_weights bounds.now) ≡ best.now.value }
    requires best { IsBestOfAll (trees_of exchange.now) (exact_of exchange.now)
        (lower_weights bounds.now) best.now.value }
    requires bidder { bidder < length (trees_of exchange.now) }
    requires branches { branches.old ≤ 50000 }
    // On success
    ensures marginal { IfOk result
        (IsMarginalOf (economy_at exchange.now bounds.now best.now.value) bidder) }
    ensures branches { IfOk result (λ m. branches.new + branch_count m.log ≡ branches.old) }
    // On failure
    ensures end { IfErr result (IsEnd
        (without_search exchange.now bounds.now bidder) branches.old branches.new) }
{
    let economy = Economy::new(alloc, exchange, bounds, best)?;
    economy.without(alloc, bidder, known, branches)
}
