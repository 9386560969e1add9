//! The greatest sale of a good.
ghost use Rattle.std.specs.Prelude.{◌≡◌, ◌<◌, ℕ, pos, neg_ℤ, ◌≤ℤ◌, length};
ghost use Rattle.ice_defs.specs.Tree.{kind_of};
ghost use Rattle.ice_defs.specs.Set.{NodeSet as Nodes, IsSatisfied, leaf_units, units, weight_of};
ghost use Rattle.ice_defs.specs.Greatest.{IsGreatest};
ghost use Rattle.ice_defs.specs.Sale.{greatest_sale};

use crate::best_set::best;
use crate::fixing::Fixing;
use crate::table::Scratch;
use ice_defs::NodeKind;
use ice_tree::{NodeSet, Tree, Weights};

/// What a node of this kind sells of the good: minus its units.
fn sold_units(kind: NodeKind, good: u8) -> i128
    ensures value { result ≡ neg_ℤ (leaf_units kind good) }
    ensures low { neg_ℤ (pos 65535) ≤ℤ result }
    ensures high { result ≤ℤ pos 65535 }
{
    match kind {
        NodeKind::Sell { good: sold, units } if sold == good => i128::from(units),
        NodeKind::Buy {
            good: bought,
            units,
        } if bought == good => -i128::from(units),
        _ => 0,
    }
}

/// The weights by which the value of a set is what it sells of the good.
fn sale_weights(tree: &Tree, good: u8) -> Weights
    ensures len { length result ≡ length tree.now }
    ensures each { (n : ℕ) → n < length tree.now → weight_of result n
        ≡ neg_ℤ (leaf_units (kind_of tree.now n) good) }
    ensures low { (n : ℕ) → n < length tree.now → neg_ℤ (pos 65535) ≤ℤ weight_of result n }
    ensures high { (n : ℕ) → n < length tree.now → weight_of result n ≤ℤ pos 65535 }
{
    let nodes = tree.nodes();
    let mut weights = Weights::zero(nodes);
    for node in 0..nodes {
        weights.put(node, sold_units(tree.kind(node), good));
    }
    weights
}

/// The greatest value of minus the units of the good, over the satisfied sets: what the tree may
/// sell of it at most. It is at least 0, since the empty set sells nothing. Takes no memory.
pub fn greatest_sale(tree: &Tree, good: u8, scratch: &mut Scratch) -> i64
    ensures value { result ≡ greatest_sale tree.now good }
    ensures greatest { IsGreatest {X = Nodes} (IsSatisfied tree.now)
        (λ s. neg_ℤ (units tree.now s good)) result }
    ensures not_negative { pos 0 ≤ℤ result }
{
    let nodes = tree.nodes();
    let weights = sale_weights(tree, good);
    let fixing = Fixing::free(nodes);
    let mut set = NodeSet::empty(nodes);
    let Some(sale) = best(tree, &weights, &fixing, scratch, &mut set) else {
        unreachable!()
    };
    sale as i64
}
