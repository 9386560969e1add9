//! Both ways to prices, on generated exchanges.
ghost use Rattle.std.specs.Prelude.{IfOk};
ghost use Rattle.ice_defs.specs.Exchange.{trees_of};
ghost use Rattle.ice_defs.specs.Conditions.{AreWeightsOf};
ghost use Rattle.ice_tree.specs.Alike.{HasWeightPerNode};
ghost use Rattle.ice_pricing.specs.Provisional.{AreModest};

use crate::outcome::search_at;
use crate::taken::are_satisfied;
use ice_cutting_planes::{Work, cut_prices};
use ice_gen::generate;
use ice_price::{RunWork, run_prices};
use ice_pricing::{Pricing, Provisional, weighted_values};
use ice_trade::Exchange;
use ice_tree::{AllWeights, Assignment};
use std::alloc::{AllocError, Global};
use std::test::Fail;

/// The weighted values at the opening bounds.
fn weighted(alloc: Global, exchange: &Exchange) -> Result<AllWeights, AllocError>
    ensures weights { IfOk result (AreWeightsOf (trees_of exchange.now)) }
    ensures nodes { IfOk result (HasWeightPerNode (trees_of exchange.now)) }
    ensures modest { IfOk result AreModest }
{
    let weights = weighted_values(alloc, exchange, exchange.bounds())?;
    Ok(weights)
}

/// The best assignment at these weights.
fn best_sets(alloc: Global, exchange: &Exchange, weights: &AllWeights) -> Result<Assignment, Fail>
    requires { AreWeightsOf (trees_of exchange.now) weights.now }
{
    let mut left = 50_000;
    match search_at(alloc, exchange, weights, &mut left)? {
        Ok(found) => Ok(found.best),
        Err(_) => Err("no best assignment")?,
    }
}

/// Whether two fractions are the same number.
fn are_same((num, den): (i128, i64), (other_num, other_den): (i128, i64)) -> bool {
    match num.checked_mul(i128::from(other_den)) {
        Some(product) => other_num.checked_mul(i128::from(den)) == Some(product),
        None => false,
    }
}

/// The greatest price.
fn top(pricing: &Pricing) -> (i128, i64) {
    let num = pricing.prices.nums().iter().copied().max().unwrap_or(-1);
    (i128::from(num), pricing.prices.den())
}

/// The violation.
fn violation(pricing: &Pricing) -> (i128, i64) {
    (pricing.delta, pricing.prices.den())
}

/// Whether both ways find prices, with one violation and one greatest price.
fn ways_agree(alloc: Global, trade: &Provisional<'_>) -> bool {
    let cut = cut_prices(alloc, trade, &mut Work::none());
    let run = run_prices(alloc, trade, &mut RunWork::none());
    match (cut, run) {
        (Ok(cut), Ok(run)) => {
            are_same(violation(&cut), violation(&run)) && are_same(top(&cut), top(&run))
        }
        _ => false,
    }
}

/// Whether they do for the best sets at the opening bounds.
fn ways_agree_at_first(alloc: Global, exchange: &Exchange) -> Result<bool, Fail> {
    let weights = weighted(alloc, exchange)?;
    let sets = best_sets(alloc, exchange, &weights)?;
    if !are_satisfied(exchange, &sets) {
        return Err("a set isn't satisfied")?;
    }
    Ok(ways_agree(alloc, &Provisional::of(exchange, &weights, &sets)))
}

#[test]
fn both_ways_agree_on_generated_exchanges(rt: HostRuntime) -> Result<(), Fail> {
    for number in 0..31 {
        let made = generate(rt.alloc(), number)?;
        assert!(rt;
            ways_agree_at_first(rt.alloc(), &made.exchange)?,
            "{number}"
        );
    }
    Ok(())
}
