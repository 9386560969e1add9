//! Trees and shares of the markets, and what nodes take.
ghost use Rattle.std.specs.Prelude.{◌≡◌, ◌<◌, ◌≤◌, length, IfOk};
ghost use Rattle.std.specs.List.{All};
ghost use Rattle.ice_refute.specs.Waiting.{nodes_of};
ghost use Rattle.ice_separation.specs.Derivations.{IsDerivation};

use ice_bound::Room;
use ice_separation::Derivation;
use ice_tree::{NodeKind, Tree, TreeFault, TreeMaker};
use std::alloc::{AllocError, Global};

/// A share of one.
pub(crate) const ONE: i64 = 1 << 40;

/// A tree of one leaf that sells three units of the good.
pub(crate) fn sells_three(good: u8) -> Result<Tree, TreeFault>
    requires { good < 2 }
    ensures { IfOk result (λ tree. length tree ≤ 200) }
{
    let mut maker = TreeMaker::new(2);
    maker.leaf(NodeKind::Sell { good, units: 3 }, 0, 0)?;
    let (tree, _bounds) = maker.finish()?;
    Ok(tree)
}

/// Shares of the first nodes of a tree.
pub(crate) fn shares(first: &[i64]) -> [i64; 256] {
    let mut shares = [0; 256];
    for (share, first) in shares.iter_mut().zip(first) {
        *share = *first;
    }
    shares
}

/// What the nodes of one tree take.
fn row_of(
    alloc: Global,
    trees: &[Tree],
    one: &Derivation,
    bidder: u8,
) -> Result<Vec<i128>, AllocError>
    requires nodes { nodes_of one.now.derived.amounts ≡ nodes_of trees.now }
    requires bidder { bidder < length trees.now }
{
    let amounts = one.amounts().of(bidder);
    let nodes = trees[usize::from(bidder)].nodes();
    let mut row = Vec::new(alloc);
    for node in 0..nodes {
        let amount = amounts.get(node);
        row.push(amount)?;
    }
    Ok(row)
}

/// Whether there is one derived good, shown by this multiplier of the first good, with limit 0, and
/// the nodes of each tree take these numbers of it.
pub(crate) fn is_lone(
    alloc: Global,
    trees: &[Tree],
    room: &Room,
    found: &[Derivation],
    multiplier: u16,
    rows: &[&[i128]],
) -> Result<bool, AllocError>
    requires few { length trees.now ≤ 40 }
    requires each { All (IsDerivation trees.now room.now) found.now }
{
    if found.len() != 1 {
        return Ok(false);
    }
    let one = &found[0];
    let mut is = one.good() == 0 && one.multiplier() == multiplier && one.limit() == 0;
    for bidder in 0..trees.len() as u8 {
        let row = row_of(alloc, trees, one, bidder)?;
        is = is && rows.get(usize::from(bidder)) == Some(&row.as_slice());
    }
    Ok(is)
}
