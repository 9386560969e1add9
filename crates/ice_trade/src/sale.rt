//! Whether a tree may sell more than is owned.
ghost use Rattle.std.specs.Prelude.{◌≡◌, ◌≤◌, None, Some, MatchOption, length};
ghost use Rattle.ice_defs.specs.Making.{over_sale};
ghost use Rattle.ice_defs.specs.Sale.{greatest_sale as most_sold};

use ice_best::{Scratch, greatest_sale};
use ice_tree::Tree;

/// A good of which a tree may sell more than is owned, and how much of it.
#[derive(Clone, Copy)]
pub(crate) struct OverSold {
    pub(crate) good: u8,
    pub(crate) amount: i64,
}

/// The least good of which the tree may sell more than is owned.
#[tactic(auto, using(crate::proofs::Finding::sales))]
pub(crate) fn over_sale(tree: &Tree, own: &[u32]) -> Option<OverSold>
    requires { length own.now ≤ 32 }
    ensures { MatchOption result (over_sale (length own.now) tree.now own.now ≡ None)
        (λ s. (over_sale (length own.now) tree.now own.now ≡ Some s.good)
        × (s.amount ≡ most_sold tree.now s.good)) }
{
    let mut scratch = Scratch::new();
    for good in 0..own.len() as u8 {
        let amount = greatest_sale(tree, good, &mut scratch);
        if amount > i64::from(own[good as usize]) {
            return Some(OverSold { good, amount });
        }
    }
    None
}
