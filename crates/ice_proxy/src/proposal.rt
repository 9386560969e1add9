//! Bounds around the truth.
ghost use Rattle.std.specs.Prelude.{◌≡◌, ◌<◌, ◌≤◌, length, pos, ◌+ℤ◌, ◌-ℤ◌, ◌≤ℤ◌};
ghost use Rattle.ice_defs.specs.Set.{weight_of};
ghost use Rattle.ice_defs.specs.Bounds.{IsInside};
ghost use Rattle.ice_defs.specs.Lawful.{AreBounds};
ghost use Rattle.ice_proxy.specs.Proposals.{width_after_halvings, proposed_lo, proposed_hi, proposal};
ghost use Rattle.ice_proxy.specs.Laws.{IsAround};

use arrayvec::ArrayVec;
use ice_tree::{Bounds, Tree};

/// A width that is not negative, halved so many times and rounded down.
fn halved(width: i64, attempt: u8) -> i64
    requires low { pos 0 ≤ℤ width }
    requires high { width ≤ℤ pos 2000000000 }
    requires attempt { attempt ≤ 31 }
    ensures value { result ≡ width_after_halvings attempt width }
    ensures low { pos 0 ≤ℤ result }
    ensures high { result ≤ℤ width }
{
    let whole = width as u64;
    (whole >> attempt) as i64
}

/// The node's new lower value.
fn lower(old: &Bounds, node: u16, truth: i64, attempt: u8) -> i64
    requires node { node < length old.now.lo }
    requires bounds { AreBounds (length old.now.lo) old.now }
    requires low { weight_of old.now.lo node ≤ℤ truth }
    requires high { truth ≤ℤ weight_of old.now.hi node }
    requires attempt { attempt ≤ 31 }
    ensures { result ≡ truth -ℤ width_after_halvings attempt (truth -ℤ weight_of old.now.lo node) }
{
    truth - halved(truth - old.lo(node), attempt)
}

/// The node's new upper value.
fn upper(old: &Bounds, node: u16, truth: i64, attempt: u8) -> i64
    requires node { node < length old.now.lo }
    requires bounds { AreBounds (length old.now.lo) old.now }
    requires low { weight_of old.now.lo node ≤ℤ truth }
    requires high { truth ≤ℤ weight_of old.now.hi node }
    requires attempt { attempt ≤ 31 }
    ensures { result ≡ truth +ℤ width_after_halvings attempt (weight_of old.now.hi node -ℤ truth) }
{
    truth + halved(old.hi(node) - truth, attempt)
}

/// The new lower values.
pub(crate) fn lower_values(old: &Bounds, truth: &[i64], attempt: u8) -> ArrayVec<i64, 200>
    requires inside { IsInside 1 old.now truth.now }
    requires attempt { attempt ≤ 31 }
    ensures { result.items ≡ proposed_lo attempt old.now.lo truth.now }
{
    let mut values = ArrayVec::new();
    for node in 0..old.len() {
        values.push(lower(old, node, truth[node as usize], attempt));
    }
    values
}

/// The new upper values.
pub(crate) fn upper_values(old: &Bounds, truth: &[i64], attempt: u8) -> ArrayVec<i64, 200>
    requires inside { IsInside 1 old.now truth.now }
    requires attempt { attempt ≤ 31 }
    ensures { result.items ≡ proposed_hi attempt old.now.hi truth.now }
{
    let mut values = ArrayVec::new();
    for node in 0..old.len() {
        values.push(upper(old, node, truth[node as usize], attempt));
    }
    values
}

/// The bounds of an attempt, from 0 to 31, inside the old ones and around the truth: at each node
/// the distance of either bound from the truth is halved so many times, rounded down. So attempt 0
/// gives the old bounds, and attempt 31 the truth. The truth has one value for each node, inside
/// the old bounds. It takes no memory.
pub fn propose(tree: &Tree, old: &Bounds, truth: &[i64], attempt: u8) -> Bounds
    requires nodes { length old.now.lo ≡ length tree.now }
    requires inside { IsInside 1 old.now truth.now }
    requires attempt { attempt ≤ 31 }
    ensures bounds { result ≡ proposal old.now truth.now attempt }
    ensures around { IsAround (length tree.now) old.now truth.now result }
{
    let _nodes = old.len();
    let lo = lower_values(old, truth, attempt);
    let hi = upper_values(old, truth, attempt);
    let Ok(new) = tree.set_bounds(&lo, &hi) else {
        unreachable!()
    };
    new
}
