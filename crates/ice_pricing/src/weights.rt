//! The weighted values at bounds.
ghost use Rattle.std.specs.Prelude.{◌≡◌, IfOk};
ghost use Rattle.ice_defs.specs.Exchange.{trees_of};
ghost use Rattle.ice_defs.specs.Weighing.{weighted_weights};
ghost use Rattle.ice_tree.specs.Alike.{HasWeightPerNode};
ghost use Rattle.ice_pricing.specs.Bounding.{AreBoundsOf};
ghost use Rattle.ice_pricing.specs.Provisional.{AreModest};

use ice_trade::Exchange;
use ice_tree::{AllWeights, Bounds};
use std::alloc::{AllocError, Global};

/// The weighted values of all nodes at bounds of the exchange's bidders, in hundredths: the
/// settings' weight times the lower value, and the rest of 100 times the upper one. There is one
/// bounds a bidder.
pub fn weighted_values(
    alloc: Global,
    exchange: &Exchange,
    bounds: &[Bounds],
) -> Result<AllWeights, AllocError>
    requires { AreBoundsOf exchange.now bounds.now }
    ensures value { IfOk result (λ w. w
        ≡ weighted_weights exchange.now.settings.weight bounds.now) }
    ensures nodes { IfOk result (HasWeightPerNode (trees_of exchange.now)) }
    ensures modest { IfOk result AreModest }
{
    let mut weights = AllWeights::new(alloc, exchange.trees())?;
    weights.fill_weighted(bounds, exchange.settings().weight);
    Ok(weights)
}
