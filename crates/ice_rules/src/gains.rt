//! What other satisfied sets gain over a set.
ghost use Rattle.std.specs.Prelude.{◌≡◌, ◌*◌, ◌^◌, ◌↔◌, length, IsTrue, ℤ, pos, ◌≤ℤ◌, ◌<ℤ◌};
ghost use Rattle.ice_defs.specs.Set.{IsSatisfied};
ghost use Rattle.ice_defs.specs.Rules.{IsLoss, IsBestThroughout, IsAhead, GainsMore};
ghost use Rattle.ice_rules.specs.Centre.{IsAsGoodAsAny};

use crate::profiles::{against, centre, in_favour};
use crate::standing::Standing;
use ice_best_at_prices::{Scratch, best_at_prices, net};
use ice_tree::NodeSet;

pub(crate) fn is_less(a: i128, b: i128) -> bool
    ensures yes { IsTrue result → a <ℤ b }
    ensures no { a <ℤ b → IsTrue result }
{
    a < b
}

/// The loss of a satisfied set: the greatest, over all satisfied sets and all profiles of true
/// values inside the bounds, by which a net exceeds its own, times the prices' denominator. A net
/// is the value less what the units cost; profiles may be fractions. The loss is never negative.
/// Takes no memory.
pub fn loss(at: &Standing, scratch: &mut Scratch) -> i128
    requires satisfied { IsSatisfied at.now.tree.now at.now.set.now }
    requires nodes { length at.now.bounds.now.lo ≡ length at.now.tree.now }
    ensures loss { IsLoss at.now.tree.now at.now.prices.now at.now.set.now at.now.bounds.now
        result }
    ensures not_negative { pos 0 ≤ℤ result }
    ensures high { result ≤ℤ pos (400 * 2 ^ 90) }
{
    let weights = against(at.bounds, at.set);
    let best = best_at_prices(at.tree, &weights, 1, at.prices, scratch);
    best.net - net(at.tree, at.set, &weights, 1, at.prices)
}

/// The greatest gain over a satisfied set that some satisfied set has at every profile inside the
/// bounds, times the prices' denominator.
pub(crate) fn least_gain(at: &Standing, scratch: &mut Scratch) -> i128
    requires satisfied { IsSatisfied at.now.tree.now at.now.set.now }
    requires nodes { length at.now.bounds.now.lo ≡ length at.now.tree.now }
    ensures { (least : ℤ)
        → GainsMore at.now.tree.now at.now.prices.now at.now.set.now at.now.bounds.now least
        ↔ (least <ℤ result) }
{
    let weights = in_favour(at.bounds, at.set);
    let best = best_at_prices(at.tree, &weights, 1, at.prices, scratch);
    best.net - net(at.tree, at.set, &weights, 1, at.prices)
}

/// Whether no satisfied set has a greater net than this one at any profile inside the bounds.
pub(crate) fn is_best_throughout(at: &Standing, scratch: &mut Scratch) -> bool
    requires satisfied { IsSatisfied at.now.tree.now at.now.set.now }
    requires nodes { length at.now.bounds.now.lo ≡ length at.now.tree.now }
    ensures yes { IsTrue result
        → IsBestThroughout at.now.tree.now at.now.prices.now at.now.bounds.now
        at.now.set.now }
    ensures no { IsBestThroughout at.now.tree.now at.now.prices.now at.now.bounds.now at.now.set.now
        → IsTrue result }
{
    loss(at, scratch) == 0
}

/// Whether the set has a greater net than another one at every profile inside the bounds.
pub(crate) fn is_ahead(at: &Standing, other: &NodeSet) -> bool
    requires set { length at.now.set.now ≡ length at.now.tree.now }
    requires other { length other.now ≡ length at.now.tree.now }
    requires nodes { length at.now.bounds.now.lo ≡ length at.now.tree.now }
    ensures yes { IsTrue result
        → IsAhead at.now.tree.now at.now.prices.now at.now.bounds.now at.now.set.now other.now }
    ensures no { IsAhead at.now.tree.now at.now.prices.now at.now.bounds.now at.now.set.now
        other.now
        → IsTrue result }
{
    let weights = against(at.bounds, at.set);
    let ahead = net(at.tree, at.set, &weights, 1, at.prices);
    is_less(net(at.tree, other, &weights, 1, at.prices), ahead)
}

/// A set that is best at the centre of the bounds. Since a gain that is never negative inside the
/// bounds and none at their centre is none at all, it is as good as any set that is best
/// throughout.
pub(crate) fn best_at_centre(at: &Standing, scratch: &mut Scratch) -> NodeSet
    requires { length at.now.bounds.now.lo ≡ length at.now.tree.now }
    ensures satisfied { IsSatisfied at.now.tree.now result }
    ensures good { IsAsGoodAsAny at.now.tree.now at.now.prices.now at.now.bounds.now result }
{
    best_at_prices(at.tree, &centre(at.bounds), 2, at.prices, scratch).set
}
