//! The best assignment at lower values, which a settlement is about.
ghost use Rattle.std.specs.Prelude.{◌≡◌, ◌+◌, ◌≤◌, IfOk, IfErr};
ghost use Rattle.ice_defs.specs.Exchange.{trees_of, exact_of};
ghost use Rattle.ice_defs.specs.Steps.{branch_count};
ghost use Rattle.ice_defs.specs.Trade.{IsBestOfAll};
ghost use Rattle.ice_defs.specs.Weighing.{lower_weights};
ghost use Rattle.ice_defs.specs.Conditions.{AreBoundsOf};
ghost use Rattle.ice_search.specs.Results.{IsFoundBy, IsEnd};
ghost use Rattle.ice_regret.specs.Regretted.{lower_search};

use ice_search::{Found, SearchEnd, search_anew};
use ice_trade::Exchange;
use ice_tree::{AllWeights, Bounds};
use std::alloc::Global;

/// The best feasible assignment at the lower values of bounds, by a search that begins with the
/// empty sets.
///
/// The branches fall by the log's branch steps. Errors are those of `search`. There are at most
/// 50,000 branches.
pub fn best_at_lower_values(
    alloc: Global,
    exchange: &Exchange,
    bounds: &[Bounds],
    branches: &mut u32,
) -> Result<Found, SearchEnd>
    requires bounds { AreBoundsOf (trees_of exchange.now) bounds.now }
    requires branches { branches.old ≤ 50000 }
    ensures found { IfOk result (IsFoundBy (lower_search exchange.now bounds.now)) }
    ensures best { IfOk result (λ f. IsBestOfAll (trees_of exchange.now) (exact_of exchange.now)
        (lower_weights bounds.now) f.value) }
    ensures branches { IfOk result (λ f. branches.new + branch_count f.log ≡ branches.old) }
    ensures end { IfErr result
        (IsEnd (lower_search exchange.now bounds.now) branches.old branches.new) }
{
    let mut weights = AllWeights::new(alloc, exchange.trees())?;
    weights.fill_lower(bounds);
    search_anew(alloc, exchange, &weights, branches)
}
