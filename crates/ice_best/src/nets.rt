//! What the nodes of a tree are worth beside what their units cost.
ghost use Rattle.std.specs.Prelude.{◌≡◌, ◌^◌, ◌<◌, ◌≤◌, length, slice_set, pos, neg_ℤ, ◌-ℤ◌, ◌*ℤ◌, ◌≤ℤ◌};
ghost use Rattle.ice_defs.specs.Lawful.{IsLimitedKind};
ghost use Rattle.ice_best.specs.Nets.{rate_of, AreRates, AreAtMostTrillion, node_cost, node_net, IsNet, AreNetWeights};

use ice_tree::{NodeKind, Tree, Weights};

/// A rate times so many units.
fn times_units(rate: i64, units: u16) -> i128
    requires low { neg_ℤ (pos (2 ^ 62)) ≤ℤ rate }
    requires high { rate ≤ℤ pos (2 ^ 62) }
    requires units { units ≤ 1000 }
    ensures value { result ≡ rate *ℤ pos units }
    ensures low { neg_ℤ (pos (2 ^ 72)) ≤ℤ result }
    ensures high { result ≤ℤ pos (2 ^ 72) }
{
    i128::from(rate) * i128::from(units)
}

/// What so many units of the good cost. A good without a rate costs nothing.
fn units_cost(rates: &[i64], good: u8, units: u16) -> i128
    requires rates { AreRates rates.now }
    requires units { units ≤ 1000 }
    ensures value { result ≡ rate_of rates.now good *ℤ pos units }
    ensures low { neg_ℤ (pos (2 ^ 72)) ≤ℤ result }
    ensures high { result ≤ℤ pos (2 ^ 72) }
{
    if usize::from(good) < rates.len() {
        times_units(rates[usize::from(good)], units)
    } else {
        0
    }
}

/// What a node costs: what it buys at the rates, less what it sells.
fn node_cost(kind: NodeKind, rates: &[i64]) -> i128
    requires kind { IsLimitedKind 32 kind }
    requires rates { AreRates rates.now }
    ensures value { result ≡ node_cost kind rates.now }
    ensures low { neg_ℤ (pos (2 ^ 72)) ≤ℤ result }
    ensures high { result ≤ℤ pos (2 ^ 72) }
{
    match kind {
        NodeKind::Choose { .. } => 0,
        NodeKind::Buy { good, units } => units_cost(rates, good, units),
        NodeKind::Sell { good, units } => -units_cost(rates, good, units),
    }
}

/// A weight, scaled.
fn times_scale(weight: i128, scale: u64) -> i128
    requires weight_low { neg_ℤ (pos 1000000000000) ≤ℤ weight }
    requires weight_high { weight ≤ℤ pos 1000000000000 }
    requires scale { scale ≤ 2 ^ 32 }
    ensures value { result ≡ pos scale *ℤ weight }
    ensures low { neg_ℤ (pos (2 ^ 72)) ≤ℤ result }
    ensures high { result ≤ℤ pos (2 ^ 72) }
{
    i128::from(scale) * weight
}

/// So many times a cost.
fn times_cost(times: u8, cost: i128) -> i128
    requires low { neg_ℤ (pos (2 ^ 72)) ≤ℤ cost }
    requires high { cost ≤ℤ pos (2 ^ 72) }
    ensures value { result ≡ pos times *ℤ cost }
    ensures low { neg_ℤ (pos (2 ^ 80)) ≤ℤ result }
    ensures high { result ≤ℤ pos (2 ^ 80) }
{
    i128::from(times) * cost
}

/// What a node nets: its weight, scaled, less so many times its cost.
fn net_weight(weight: i128, scale: u64, times: u8, cost: i128) -> i128
    requires weight_low { neg_ℤ (pos 1000000000000) ≤ℤ weight }
    requires weight_high { weight ≤ℤ pos 1000000000000 }
    requires scale { scale ≤ 2 ^ 32 }
    requires cost_low { neg_ℤ (pos (2 ^ 72)) ≤ℤ cost }
    requires cost_high { cost ≤ℤ pos (2 ^ 72) }
    ensures value { result ≡ (pos scale *ℤ weight) -ℤ (pos times *ℤ cost) }
    ensures small { IsNet result }
{
    times_scale(weight, scale) - times_cost(times, cost)
}

/// Makes the weight of one node in `out` what the node nets at rates: `scale` times its weight,
/// less `times` times what its units cost. The limits are those of `fill_net_weights`.
pub fn put_net_weight(
    out: &mut Weights,
    tree: &Tree,
    weights: &Weights,
    scale: u64,
    rates: &[i64],
    times: u8,
    node: u16,
)
    requires node { node < length tree.now }
    requires out { length out.old ≡ length tree.now }
    requires nodes { length weights.now ≡ length tree.now }
    requires weights { AreAtMostTrillion weights.now }
    requires scale { scale ≤ 2 ^ 32 }
    requires rates { AreRates rates.now }
    ensures put { out.new ≡ slice_set out.old node
        (node_net tree.now weights.now scale rates.now times node) }
    ensures small { IsNet (node_net tree.now weights.now scale rates.now times node) }
{
    // a tree names at most 32 goods
    let _nodes = tree.nodes();
    let cost = node_cost(tree.kind(node), rates);
    out.put(node, net_weight(weights.get(node), scale, times, cost));
}

/// Makes `out` the weights by which the value of a set is its net at rates: `scale` times its
/// value, less `times` times what its units cost. A unit of a good costs the good's rate, and
/// nothing where the good has no rate.
///
/// The scale is at most 2^32, each rate at most 2^62 in size, and each weight at most
/// 1,000,000,000,000. Takes no memory.
pub fn fill_net_weights(
    out: &mut Weights,
    tree: &Tree,
    weights: &Weights,
    scale: u64,
    rates: &[i64],
    times: u8,
)
    requires out { length out.old ≡ length tree.now }
    requires nodes { length weights.now ≡ length tree.now }
    requires weights { AreAtMostTrillion weights.now }
    requires scale { scale ≤ 2 ^ 32 }
    requires rates { AreRates rates.now }
    ensures { AreNetWeights tree.now weights.now scale rates.now times out.new }
{
    for node in 0..tree.nodes() {
        put_net_weight(out, tree, weights, scale, rates, times, node);
    }
}
