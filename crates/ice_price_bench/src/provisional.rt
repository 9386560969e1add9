//! The provisional sets of the first settlement.
ghost use Rattle.std.specs.Prelude.{IfOk};
ghost use Rattle.ice_defs.specs.Exchange.{trees_of, exact_of};
ghost use Rattle.ice_defs.specs.Trade.{IsFeasible};
ghost use Rattle.ice_defs.specs.Conditions.{AreWeightsOf};

use ice_search::{SearchEnd, search_anew};
use ice_trade::Exchange;
use ice_tree::{AllWeights, Assignment};
use std::alloc::Global;

/// The best feasible assignment at these weights, by a search with 50,000 branches.
pub fn best_sets(
    alloc: Global,
    exchange: &Exchange,
    weights: &AllWeights,
) -> Result<Assignment, SearchEnd>
    requires { AreWeightsOf (trees_of exchange.now) weights.now }
    ensures { IfOk result (IsFeasible (trees_of exchange.now) (exact_of exchange.now)) }
{
    let mut branches = 50_000;
    let found = search_anew(alloc, exchange, weights, &mut branches)?;
    Ok(found.best)
}
