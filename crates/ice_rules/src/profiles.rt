//! The profiles that decide: the ends of the bounds, and their centre.
ghost use Rattle.std.specs.Prelude.{◌≡◌, ◌<◌, length, pos, neg_ℤ, ◌+ℤ◌, ◌≤ℤ◌, if◌then◌else◌};
ghost use Rattle.ice_defs.specs.Set.{weight_of};
ghost use Rattle.ice_defs.specs.Lawful.{AreBounds};
ghost use Rattle.ice_best.specs.Nets.{AreAtMostTrillion};
ghost use Rattle.ice_rules.specs.Profiles.{AreAgainst, AreInFavour, AreCentre};

use ice_tree::{Bounds, NodeSet, Weights};

/// The node's upper value where the node is inside, and else its lower one.
fn upper_where(bounds: &Bounds, node: u16, inside: bool) -> i128
    requires node { node < length bounds.now.lo }
    requires bounds { AreBounds (length bounds.now.lo) bounds.now }
    ensures value { result ≡ (if inside then weight_of bounds.now.hi node
        else weight_of bounds.now.lo node) }
    ensures low { neg_ℤ (pos 1000000000) ≤ℤ result }
    ensures high { result ≤ℤ pos 1000000000 }
{
    if inside {
        i128::from(bounds.hi(node))
    } else {
        i128::from(bounds.lo(node))
    }
}

/// The sum of the node's values.
fn both(bounds: &Bounds, node: u16) -> i128
    requires node { node < length bounds.now.lo }
    requires bounds { AreBounds (length bounds.now.lo) bounds.now }
    ensures value { result ≡ weight_of bounds.now.lo node +ℤ weight_of bounds.now.hi node }
    ensures low { neg_ℤ (pos 2000000000) ≤ℤ result }
    ensures high { result ≤ℤ pos 2000000000 }
{
    upper_where(bounds, node, false) + upper_where(bounds, node, true)
}

/// The profile against a set: the lower values on it, and the upper ones elsewhere.
pub(crate) fn against(bounds: &Bounds, set: &NodeSet) -> Weights
    requires { length set.now ≡ length bounds.now.lo }
    ensures values { AreAgainst bounds.now set.now result }
    ensures small { AreAtMostTrillion result }
    ensures bounds { AreBounds (length bounds.now.lo) bounds.now }
{
    let _nodes = bounds.len();
    Weights::perturbed(bounds, set)
}

/// The profile in favour of a set: the upper values on it, and the lower ones elsewhere.
pub(crate) fn in_favour(bounds: &Bounds, set: &NodeSet) -> Weights
    requires { length set.now ≡ length bounds.now.lo }
    ensures values { AreInFavour bounds.now set.now result }
    ensures small { AreAtMostTrillion result }
    ensures bounds { AreBounds (length bounds.now.lo) bounds.now }
{
    let nodes = bounds.len();
    let mut weights = Weights::zero(nodes);
    for node in 0..nodes {
        weights.put(node, upper_where(bounds, node, set.has(node)));
    }
    weights
}

/// Twice the profile at the centre of the bounds.
pub(crate) fn centre(bounds: &Bounds) -> Weights
    ensures values { AreCentre bounds.now result }
    ensures small { AreAtMostTrillion result }
    ensures bounds { AreBounds (length bounds.now.lo) bounds.now }
{
    let nodes = bounds.len();
    let mut weights = Weights::zero(nodes);
    for node in 0..nodes {
        weights.put(node, both(bounds, node));
    }
    weights
}
