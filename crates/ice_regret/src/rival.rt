//! The regret of an assignment, by a search at the values that it perturbs.
ghost use Rattle.std.specs.Prelude.{◌≡◌, ◌+◌, ◌≤◌, IfOk, IfErr};
ghost use Rattle.ice_defs.specs.Exchange.{trees_of, exact_of};
ghost use Rattle.ice_defs.specs.Steps.{branch_count};
ghost use Rattle.ice_defs.specs.Trade.{IsFeasible};
ghost use Rattle.ice_defs.specs.Conditions.{AreBoundsOf};
ghost use Rattle.ice_search.specs.Results.{IsEnd};
ghost use Rattle.ice_regret.specs.Regretted.{IsRegretOf, rival_search};

use crate::lead::Regret;
use ice_best::Fixings;
use ice_bound::Multipliers;
use ice_refute::Log;
use ice_search::{Known, Problem, SearchEnd, search_from};
use ice_trade::Exchange;
use ice_tree::{AllWeights, Assignment, Bounds};
use std::alloc::Global;

/// Whether each lower value is the upper one, so that values can't be perturbed.
fn are_points(bounds: &[Bounds]) -> bool {
    bounds.iter().all(|of_one| is_point(of_one))
}

/// Whether each lower value of a bidder is the upper one.
fn is_point(bounds: &Bounds) -> bool {
    for node in 0..bounds.len() {
        if bounds.lo(node) != bounds.hi(node) {
            return false;
        }
    }
    true
}

/// The log, where values can't be perturbed.
fn where_points<'a>(log: Option<&'a Log>, bounds: &[Bounds]) -> Option<&'a Log> {
    if are_points(bounds) { log } else { None }
}

/// The regret of a feasible assignment inside bounds: the search at perturbed values begins with
/// the assignment itself. No feasible trade is worth more than that of the assignment by more than
/// the regret, whatever the true values inside the bounds are, fractions included.
///
/// The log may be that of the search that found the assignment at lower values. It changes the
/// time, which rival is found, the log of that, and whether the branches suffice.
///
/// The branches fall by the log's branch steps. Errors are those of `search`. There are at most
/// 50,000 branches.
pub fn regret(
    alloc: Global,
    exchange: &Exchange,
    bounds: &[Bounds],
    chosen: &Assignment,
    log: Option<&Log>,
    branches: &mut u32,
) -> Result<Regret, SearchEnd>
    requires bounds { AreBoundsOf (trees_of exchange.now) bounds.now }
    requires feasible { IsFeasible (trees_of exchange.now) (exact_of exchange.now) chosen.now }
    requires branches { branches.old ≤ 50000 }
    ensures regret { IfOk result (IsRegretOf exchange.now bounds.now chosen.now) }
    ensures branches { IfOk result (λ r. branches.new + branch_count r.log ≡ branches.old) }
    ensures end { IfErr result (IsEnd (rival_search exchange.now bounds.now chosen.now)
        branches.old branches.new) }
{
    let trees = exchange.trees();
    let mut weights = AllWeights::new(alloc, trees)?;
    weights.fill_perturbed(bounds, chosen);
    let start = Fixings::free(alloc, trees)?;
    let problem = Problem::new(exchange, &weights, &start, chosen);
    let zeros = Multipliers::zero(problem.goods());
    let known = Known {
        from: &zeros,
        candidates: &[],
        log: where_points(log, bounds),
    };
    let found = search_from(alloc, &problem, &known, branches)?;
    let value = found.best.value(trees, &weights);
    let amount = value - chosen.lower_value(bounds);
    Ok(Regret {
        amount,
        value,
        rival: found.best,
        log: found.log,
    })
}
