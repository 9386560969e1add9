//! The least attempt that is accepted.
ghost use Rattle.std.specs.Prelude.{◌≡◌, ◌≤◌, length, List, ℕ, MatchOption};
ghost use Rattle.ice_defs.specs.Set.{IsSatisfied};
ghost use Rattle.ice_defs.specs.Bounds.{IsInside};
ghost use Rattle.ice_proxy.specs.Proposals.{proposal, IsAcceptable, IsProxyAttempt};
ghost use Rattle.ice_proxy.specs.Bidders.{bidder_at};
ghost use Rattle.ice_proxy.specs.Laws.{IsAround};

use crate::proposal::{lower_values, propose, upper_values};
use ice_rules::{Scratch, Standing, judge};
use ice_tree::Bounds;

/// The bid of a proxy.
#[derive(Drop)]
pub struct ProxyBid {
    /// The attempt, from 0 to 31.
    pub attempt: u8,
    /// Its bounds.
    pub bounds: Bounds,
}

/// The bounds of an attempt, where they are accepted.
fn try_attempt(
    at: &Standing,
    truth: &[i64],
    attempt: u8,
    improve: i64,
    scratch: &mut Scratch,
) -> Option<Bounds>
    requires satisfied { IsSatisfied at.now.tree.now at.now.set.now }
    requires nodes { length at.now.bounds.now.lo ≡ length at.now.tree.now }
    requires inside { IsInside 1 at.now.bounds.now truth.now }
    requires attempt { attempt ≤ 31 }
    ensures { let new = proposal at.now.bounds.now truth.now attempt in
        (name : List ℕ) → MatchOption result
        (¬ IsAcceptable at.now.prices.now improve (bidder_at name at.now) new)
        (λ bounds. (bounds ≡ new)
        × IsAcceptable at.now.prices.now improve (bidder_at name at.now) new) }
{
    let _nodes = at.bounds.len();
    let lo = lower_values(at.bounds, truth, attempt);
    let hi = upper_values(at.bounds, truth, attempt);
    judge(at, &lo, &hi, improve, scratch).ok()
}

/// The bid of a proxy that knows the true values: the least attempt, from 0 to 31, whose bounds are
/// accepted where the bidder stands, and these bounds. They hold the truth, and lie inside the old
/// ones. There always is one, since attempt 31 states the truth itself.
///
/// The provisional set is satisfied, and the truth has one value for each node, inside the old
/// bounds. It takes no memory.
pub fn proxy(at: &Standing, truth: &[i64], improve: i64, scratch: &mut Scratch) -> ProxyBid
    requires satisfied { IsSatisfied at.now.tree.now at.now.set.now }
    requires nodes { length at.now.bounds.now.lo ≡ length at.now.tree.now }
    requires inside { IsInside 1 at.now.bounds.now truth.now }
    ensures bounds { result.bounds ≡ proposal at.now.bounds.now truth.now result.attempt }
    ensures attempt { (name : List ℕ) → IsProxyAttempt at.now.prices.now improve
        (bidder_at name at.now) truth.now result.attempt }
    ensures around { IsAround (length at.now.tree.now) at.now.bounds.now truth.now
        result.bounds }
{
    let _nodes = at.bounds.len();
    for attempt in 0..31 {
        if let Some(bounds) = try_attempt(at, truth, attempt, improve, scratch) {
            return ProxyBid { attempt, bounds };
        }
    }
    ProxyBid {
        attempt: 31,
        bounds: propose(at.tree, at.bounds, truth, 31),
    }
}
