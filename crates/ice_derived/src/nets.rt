//! What the nodes of a tree net beside what they are charged.
ghost use Rattle.std.specs.Prelude.{◌≡◌, ℕ, ◌<◌, ◌≤◌, ◌-ℤ◌, length};
ghost use Rattle.ice_defs.specs.Set.{weight_of, IsSmall};
ghost use Rattle.ice_defs.specs.Conditions.{AreModest};
ghost use Rattle.ice_best.specs.Nets.{IsNet, AllNets};
ghost use Rattle.ice_derived.specs.Charges.{IsCharge, AreCharges};
ghost use Rattle.ice_derived.specs.Nets.{AreNetsLess};

use crate::rates::Rates;
use ice_best::fill_net_weights;
use ice_tree::{Tree, Weights};

/// Multipliers and tolls are counted in so many parts of the unit of values.
const PARTS: u64 = 4096;

/// A net less a charge.
fn less(net: i128, charge: i128) -> i128
    requires net { IsNet net }
    requires charge { IsCharge charge }
    ensures value { result ≡ net -ℤ charge }
    ensures small { IsSmall result }
{
    net - charge
}

/// Takes off each net what the node is charged.
fn charge(nets: &mut Weights, charges: &Weights, nodes: u16)
    requires nodes { length nets.old ≡ nodes }
    requires charges { length charges.now ≡ nodes }
    requires range { AreCharges charges.now }
    requires small { AllNets nets.old }
    ensures nodes { length nets.new ≡ nodes }
    ensures each { (n : ℕ) → n < nodes → weight_of nets.new n
        ≡ weight_of nets.old n -ℤ weight_of charges.now n }
    ensures small { (n : ℕ) → n < nodes → IsSmall (weight_of nets.new n) }
{
    for node in 0..nodes {
        let net = nets.get(node);
        let charge = charges.get(node);
        let rest = less(net, charge);
        nets.put(node, rest);
    }
}

/// The weights by which the value of a set is its net at the multipliers, less what its nodes are
/// charged.
pub(crate) fn nets_with(tree: &Tree, weights: &Weights, m: &Rates, charges: &Weights) -> Weights
    requires nodes { length weights.now ≡ length tree.now }
    requires modest { AreModest weights.now }
    requires charges { length charges.now ≡ length tree.now }
    requires range { AreCharges charges.now }
    ensures nets { AreNetsLess tree.now weights.now m.now charges.now result }
    ensures few { length tree.now ≤ 200 }
{
    let mut nets = Weights::zero(tree.nodes());
    fill_net_weights(&mut nets, tree, weights, PARTS, m.as_slice(), 1);
    charge(&mut nets, charges, tree.nodes());
    nets
}
