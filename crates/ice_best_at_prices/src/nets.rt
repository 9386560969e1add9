//! The net of a set at prices, and the greatest one.
ghost use Rattle.std.specs.Prelude.{◌≡◌, ◌*◌, ◌^◌, ◌≤◌, length, pos, neg_ℤ, ◌≤ℤ◌};
ghost use Rattle.ice_defs.specs.Rules.{net_at};
ghost use Rattle.ice_best.specs.Nets.{AreAtMostTrillion, AreNetWeights};
ghost use Rattle.ice_best_at_prices.specs.Net.{IsBestAtPrices};

use ice_best::{Fixing, Scratch, best, fill_net_weights};
use ice_terms::Prices;
use ice_tree::{NodeSet, Tree, Weights};

/// A satisfied set of the greatest net at prices, and its net: its value at weights, times the
/// prices' denominator, less what its units cost so many times.
#[derive(Drop)]
pub struct BestAtPrices {
    /// The set, one bit a node.
    pub set: NodeSet,
    /// Its net.
    pub net: i128,
}

/// Weights by which the value of a set is its net.
fn net_weights(tree: &Tree, weights: &Weights, times: u8, prices: &Prices) -> Weights
    requires nodes { length weights.now ≡ length tree.now }
    requires weights { AreAtMostTrillion weights.now }
    ensures nets { AreNetWeights tree.now weights.now prices.now.den prices.now.nums times result }
    ensures few { length tree.now ≤ 200 }
{
    let mut nets = Weights::zero(tree.nodes());
    let den = prices.den() as u64;
    fill_net_weights(&mut nets, tree, weights, den, prices.nums(), times);
    nets
}

/// The net of a set: its value at the weights, times the prices' denominator, less what its units
/// cost so many times. Where the weights are `times` times the true values, so is the net.
///
/// Each weight is at most 1,000,000,000,000 in size. A good without a price costs nothing. Takes no
/// memory.
pub fn net(tree: &Tree, set: &NodeSet, weights: &Weights, times: u8, prices: &Prices) -> i128
    requires set { length set.now ≡ length tree.now }
    requires nodes { length weights.now ≡ length tree.now }
    requires weights { AreAtMostTrillion weights.now }
    ensures value { result ≡ net_at tree.now prices.now times weights.now set.now }
    ensures low { neg_ℤ (pos (200 * 2 ^ 90)) ≤ℤ result }
    ensures high { result ≤ℤ pos (200 * 2 ^ 90) }
{
    tree.value(set, &net_weights(tree, weights, times, prices))
}

/// A satisfied set of the tree whose net is the greatest, and that net; of several sets any may be
/// taken.
///
/// With weighted values, which are in hundredths, `times` is 100. Each weight is at most
/// 1,000,000,000,000 in size. A good without a price costs nothing. Takes no memory.
pub fn best_at_prices(
    tree: &Tree,
    weights: &Weights,
    times: u8,
    prices: &Prices,
    scratch: &mut Scratch,
) -> BestAtPrices
    requires nodes { length weights.now ≡ length tree.now }
    requires weights { AreAtMostTrillion weights.now }
    ensures best { IsBestAtPrices tree.now weights.now times prices.now result.set result.net }
    ensures low { neg_ℤ (pos (200 * 2 ^ 90)) ≤ℤ result.net }
    ensures high { result.net ≤ℤ pos (200 * 2 ^ 90) }
{
    let nets = net_weights(tree, weights, times, prices);
    let nodes = tree.nodes();
    let fixing = Fixing::free(nodes);
    let mut set = NodeSet::empty(nodes);
    let Some(net) = best(tree, &nets, &fixing, scratch, &mut set) else {
        unreachable!()
    };
    BestAtPrices { set, net }
}
