//! The verdict on new bounds.
ghost use Rattle.std.specs.Prelude.{◌≡◌, ◌<◌, ◌≤◌, length, IfOk, IsTrue, MatchOption, ℕ, ◌<ℤ◌, ◌⊎◌};
ghost use Rattle.std.specs.List.{list_all};
ghost use Rattle.ice_defs.specs.Set.{IsSatisfied, weight_of};
ghost use Rattle.ice_defs.specs.Bounds.{IsInside};
ghost use Rattle.ice_defs.specs.Lawful.{AreBounds};
ghost use Rattle.ice_defs.specs.Making.{is_value};
ghost use Rattle.ice_defs.specs.declared.Verdict.TheVariants.{Accepted};
ghost use Rattle.ice_defs.specs.Judging.{IsLeastNode, IsCrossedAt, IsLoosenedAt};
ghost use Rattle.ice_rules.specs.Verdicts.{values, IsVerdict, verdict_of};

use crate::refusal::Refusal;
use crate::rules::{improvement, mrpar};
use crate::standing::Standing;
use ice_best_at_prices::Scratch;
use ice_tree::Bounds;

/// The least node whose lower value is above its upper one.
fn first_crossed(lo: &[i64], hi: &[i64]) -> Option<u16>
    requires few { length lo.now ≤ 200 }
    requires same { length hi.now ≡ length lo.now }
    ensures { let crossed = IsCrossedAt (values lo.now hi.now) in
        MatchOption result ((n : ℕ) → ¬ crossed n) (IsLeastNode crossed) }
{
    for node in 0..lo.len() {
        if hi[node] < lo[node] {
            return Some(node as u16);
        }
    }
    None
}

/// Whether new values reach beyond the old bounds of the node.
fn is_loosened(old: &Bounds, node: u16, lo: i64, hi: i64) -> bool
    requires { node < length old.now.lo }
    ensures yes { IsTrue result → (lo <ℤ weight_of old.now.lo node)
        ⊎ (weight_of old.now.hi node <ℤ hi) }
    ensures no { (lo <ℤ weight_of old.now.lo node) ⊎ (weight_of old.now.hi node <ℤ hi)
        → IsTrue result }
{
    lo < old.lo(node) || old.hi(node) < hi
}

/// The least node whose values reach beyond the old bounds.
fn first_loosened(old: &Bounds, lo: &[i64], hi: &[i64]) -> Option<u16>
    requires few { length lo.now ≤ 200 }
    requires same { length hi.now ≡ length lo.now }
    requires old { length old.now.lo ≡ length lo.now }
    ensures { let loosened = IsLoosenedAt old.now (values lo.now hi.now) in
        MatchOption result ((n : ℕ) → ¬ loosened n) (IsLeastNode loosened) }
{
    for node in 0..lo.len() {
        if is_loosened(old, node as u16, lo[node], hi[node]) {
            return Some(node as u16);
        }
    }
    None
}

/// The new bounds, or the first refusal that holds.
fn first_that_holds(
    at: &Standing,
    lo: &[i64],
    hi: &[i64],
    improve: i64,
    scratch: &mut Scratch,
) -> Result<Bounds, Refusal>
    requires satisfied { IsSatisfied at.now.tree.now at.now.set.now }
    requires old { length at.now.bounds.now.lo ≡ length at.now.tree.now }
    requires lo_nodes { length lo.now ≡ length at.now.tree.now }
    requires hi_nodes { length hi.now ≡ length at.now.tree.now }
    requires lo_values { IsTrue (list_all is_value lo.now) }
    requires hi_values { IsTrue (list_all is_value hi.now) }
    // What comes of it
    ensures judged { IsVerdict at.now improve lo.now hi.now (verdict_of result) }
    // On acceptance
    ensures accepted { IfOk result (λ new. new ≡ values lo.now hi.now) }
    ensures bounds { IfOk result (AreBounds (length at.now.tree.now)) }
{
    let _nodes = at.tree.nodes();
    if let Some(node) = first_crossed(lo, hi) {
        return Err(Refusal::Crossed { node });
    }
    if let Some(node) = first_loosened(at.bounds, lo, hi) {
        return Err(Refusal::Loosened { node });
    }
    let Ok(new) = at.tree.set_bounds(lo, hi) else {
        unreachable!()
    };
    let then = Standing {
        tree: at.tree,
        bounds: &new,
        set: at.set,
        prices: at.prices,
    };
    if !mrpar(&then, scratch) {
        return Err(Refusal::Mrpar);
    }
    if !improvement(at, &new, improve, scratch) {
        return Err(Refusal::Improve);
    }
    let _nodes = new.len();
    Ok(new)
}

/// The bounds that new lower and upper values of a bidder make, where they are accepted, or why
/// they are refused. There is one value of each kind for each node, inside the value limits. The
/// refusal is the first of these that holds: `Crossed` at the least node whose lower value is above
/// its upper one, `Loosened` at the least node whose values reach beyond the old bounds, `Mrpar`
/// where the first rule fails at the new bounds, and `Improve` where the second one does. A bid
/// that states its true values exactly, inside the old bounds, is accepted.
///
/// The provisional set is satisfied. Takes no memory.
pub fn judge(
    at: &Standing,
    lo: &[i64],
    hi: &[i64],
    improve: i64,
    scratch: &mut Scratch,
) -> Result<Bounds, Refusal>
    requires satisfied { IsSatisfied at.now.tree.now at.now.set.now }
    requires old { length at.now.bounds.now.lo ≡ length at.now.tree.now }
    requires lo_nodes { length lo.now ≡ length at.now.tree.now }
    requires hi_nodes { length hi.now ≡ length at.now.tree.now }
    requires lo_values { IsTrue (list_all is_value lo.now) }
    requires hi_values { IsTrue (list_all is_value hi.now) }
    // What comes of it
    ensures judged { IsVerdict at.now improve lo.now hi.now (verdict_of result) }
    // On acceptance
    ensures accepted { IfOk result (λ new. new ≡ values lo.now hi.now) }
    ensures bounds { IfOk result (AreBounds (length at.now.tree.now)) }
    // Where each interval is a point
    ensures exact { hi.now ≡ lo.now → IsInside 1 at.now.bounds.now lo.now → verdict_of result
        ≡ Accepted }
{
    first_that_holds(at, lo, hi, improve, scratch)
}
