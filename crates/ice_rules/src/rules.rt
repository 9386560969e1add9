//! The two activity rules.
ghost use Rattle.std.specs.Prelude.{◌≡◌, ◌↔◌, ◌*◌, ◌^◌, length, IsTrue, pos, neg_ℤ, ◌-ℤ◌, ◌*ℤ◌, ◌≤ℤ◌};
ghost use Rattle.ice_defs.specs.Set.{IsSatisfied};
ghost use Rattle.ice_defs.specs.Rules.{IsMrpar, Improves};

use crate::gains::{best_at_centre, is_ahead, is_best_throughout, is_less, least_gain, loss};
use crate::standing::Standing;
use ice_best_at_prices::Scratch;
use ice_terms::Prices;
use ice_tree::Bounds;

/// The first rule: whether some satisfied set is best at every profile inside the bounds, and the
/// provisional set is so too or has a smaller net at every profile. Takes no memory.
pub fn mrpar(at: &Standing, scratch: &mut Scratch) -> bool
    requires satisfied { IsSatisfied at.now.tree.now at.now.set.now }
    requires nodes { length at.now.bounds.now.lo ≡ length at.now.tree.now }
    ensures { IsTrue result ↔ IsMrpar at.now.tree.now at.now.prices.now at.now.set.now
        at.now.bounds.now }
{
    let set = best_at_centre(at, scratch);
    let best = Standing {
        tree: at.tree,
        bounds: at.bounds,
        set: &set,
        prices: at.prices,
    };
    if !is_best_throughout(&best, scratch) {
        return false;
    }
    if is_ahead(&best, at.set) {
        return true;
    }
    is_best_throughout(at, scratch)
}

/// What is required, times the prices' denominator.
fn times_den(improve: i64, den: i64) -> i128
    requires den_low { pos 0 ≤ℤ den }
    requires den_high { den ≤ℤ pos (2 ^ 32) }
    ensures value { result ≡ improve *ℤ den }
    ensures low { neg_ℤ (pos (2 ^ 95)) ≤ℤ result }
    ensures high { result ≤ℤ pos (2 ^ 95) }
{
    i128::from(improve) * i128::from(den)
}

/// A loss less what is required.
fn allowed_loss(loss: i128, improve: i64, prices: &Prices) -> i128
    requires low { pos 0 ≤ℤ loss }
    requires high { loss ≤ℤ pos (400 * 2 ^ 90) }
    ensures { result ≡ loss -ℤ (improve *ℤ pos prices.now.den) }
{
    loss - times_den(improve, prices.den())
}

/// The second rule: whether the provisional set's loss at the new bounds is none, or is smaller
/// than at the old ones by what is required, or some satisfied set gains more than the old loss
/// less what is required at every profile inside the new bounds. Takes no memory.
pub fn improvement(at: &Standing, new: &Bounds, improve: i64, scratch: &mut Scratch) -> bool
    requires satisfied { IsSatisfied at.now.tree.now at.now.set.now }
    requires old { length at.now.bounds.now.lo ≡ length at.now.tree.now }
    requires new { length new.now.lo ≡ length at.now.tree.now }
    ensures { IsTrue result
        ↔ Improves at.now.tree.now at.now.prices.now at.now.set.now at.now.bounds.now new.now
        improve }
{
    let then = Standing {
        tree: at.tree,
        bounds: new,
        set: at.set,
        prices: at.prices,
    };
    let most = allowed_loss(loss(at, scratch), improve, at.prices);
    let left = loss(&then, scratch);
    if left == 0 {
        return true;
    }
    if left <= most {
        return true;
    }
    is_less(most, least_gain(&then, scratch))
}
