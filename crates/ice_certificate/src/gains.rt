//! By how much a bidder's best set at prices beats its own.
ghost use Rattle.std.specs.Prelude.{◌≡◌, ◌*◌, ◌^◌, length, pos, neg_ℤ, ◌≤ℤ◌};
ghost use Rattle.ice_best.specs.Nets.{AreAtMostTrillion};
ghost use Rattle.ice_certificate.specs.Excess.{IsGreatestExcess};

pub use ice_best_at_prices::Scratch;
use ice_best_at_prices::{best_at_prices, net};
use ice_terms::Prices;
use ice_tree::{NodeSet, Tree, Weights};

/// A bidder's best set at prices, and by how much its net beats that of the bidder's own set.
#[derive(Drop)]
pub struct Excess {
    /// The set.
    pub set: NodeSet,
    /// What its net is above the own set's, in hundredths and times the prices' denominator.
    pub amount: i128,
}

/// The greatest amount by which a satisfied set's net at the prices beats that of the bidder's own
/// set, and such a set; of several any may be taken. A net is the worth at the weights, which are
/// in hundredths, less what the units cost, all times the prices' denominator.
///
/// Each weight is at most 1,000,000,000,000 in size. Takes no memory.
pub fn best_excess(
    tree: &Tree,
    weights: &Weights,
    own: &NodeSet,
    prices: &Prices,
    scratch: &mut Scratch,
) -> Excess
    requires own { length own.now ≡ length tree.now }
    requires nodes { length weights.now ≡ length tree.now }
    requires weights { AreAtMostTrillion weights.now }
    ensures greatest { IsGreatestExcess tree.now weights.now prices.now own.now result.set
        result.amount }
    ensures low { neg_ℤ (pos (400 * 2 ^ 90)) ≤ℤ result.amount }
    ensures high { result.amount ≤ℤ pos (400 * 2 ^ 90) }
{
    let best = best_at_prices(tree, weights, 100, prices, scratch);
    Excess {
        set: best.set,
        amount: best.net - net(tree, own, weights, 100, prices),
    }
}
