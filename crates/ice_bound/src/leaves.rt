//! The leaves of a tree, good by good.
ghost use Rattle.std.specs.Prelude.{◌≡◌, ◌+◌, ◌<◌, length, slice_index, slice_set, true, IfOk, ℕ};
ghost use Rattle.ice_defs.specs.Lawful.{IsLimitedKind};
ghost use Rattle.ice_defs.specs.Tree.{Tree as Nodes, kind_of};
ghost use Rattle.ice_bound.specs.Leaves.{is_leaf_of, IsNextLeaf, AreLeavesOf, AreLeaves};

use ice_tree::{NodeKind, Tree};
use std::alloc::{AllocError, Global};

/// The leaves of a tree, good by good: the first leaf of each of 32 goods, and behind each leaf the
/// next one of its good. In the place of a leaf that isn't there stands the number of nodes.
#[derive(Drop)]
pub(crate) struct Leaves {
    first: [u8; 32],
    next: [u8; 200],
}

/// The good of a leaf.
fn good_of(kind: NodeKind) -> Option<u8>
    requires { IsLimitedKind 32 kind }
    ensures some { (g : ℕ) → is_leaf_of kind g ≡ true → result ≡ Some g }
    ensures is { (g : ℕ) → result ≡ Some g → is_leaf_of kind g ≡ true }
    ensures fits { (g : ℕ) → result ≡ Some g → g < 32 }
{
    match kind {
        NodeKind::Choose { .. } => None,
        NodeKind::Buy { good, .. } => Some(good),
        NodeKind::Sell { good, .. } => Some(good),
    }
}

impl Leaves {
    /// Those of a tree.
    fn of(tree: &Tree) -> Leaves
        ensures { AreLeavesOf tree.now result }
    {
        let nodes = tree.nodes();
        let mut leaves = Leaves {
            first: [nodes as u8; 32],
            next: [0; 200],
        };
        for node in (0..nodes).rev() {
            let Some(good) = good_of(tree.kind(node)) else {
                continue;
            };
            leaves.put(good, node as u8);
        }
        leaves
    }

    /// Puts a leaf of the good in front of those that are there.
    fn put(&mut self, good: u8, node: u8)
        requires good { good < 32 }
        requires node { node < 200 }
        ensures first { self.new.first ≡ slice_set self.old.first good node }
        ensures next { self.new.next
            ≡ slice_set self.old.next node (slice_index self.old.first good) }
    {
        self.next[node as usize] = self.first[good as usize];
        self.first[good as usize] = node;
    }

    /// The first leaf of the good, or the number of nodes where there is none.
    pub(crate) fn first(&self, good: u8) -> u16
        requires { good < 32 }
        ensures { (t : Nodes) → AreLeavesOf t self.now → IsNextLeaf t good 0 result }
    {
        u16::from(self.first[good as usize])
    }

    /// The next leaf behind a leaf of the good, or the number of nodes where there is none.
    pub(crate) fn next(&self, leaf: u16) -> u16
        requires { leaf < 200 }
        ensures { (t : Nodes) (good : ℕ) → AreLeavesOf t self.now → leaf < length t
            → is_leaf_of (kind_of t leaf) good ≡ true → IsNextLeaf t good (leaf + 1) result }
    {
        u16::from(self.next[leaf as usize])
    }
}

/// The leaves of each tree.
pub(crate) fn all_leaves(alloc: Global, trees: &[Tree]) -> Result<Vec<Leaves>, AllocError>
    ensures { IfOk result (λ leaves. AreLeaves trees.now leaves.items (length trees.now)) }
{
    let mut leaves = Vec::new(alloc);
    for tree in trees {
        leaves.push(Leaves::of(tree))?;
    }
    Ok(leaves)
}
