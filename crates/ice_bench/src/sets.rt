//! Calls of `best` on one tree of 196 nodes and depth 4, a weight of which changes before each
//! call.
ghost use Rattle.std.specs.Prelude.{◌≡◌, ◌<◌, length};

use ice_best::{Fixing, Scratch, best};
use ice_defs::NodeKind;
use ice_tree::{NodeSet, Tree, TreeFault, TreeMaker, Weights};

fn next(x: u64) -> u64 {
    x.wrapping_mul(6364136223846793005)
        .wrapping_add(1442695040888963407)
}

fn tree() -> Result<Tree, TreeFault> {
    let mut maker = TreeMaker::new(1);
    maker.open_choose(0, 3, 0, 0)?;
    for _branch in 0..3u8 {
        maker.open_choose(1, 4, 0, 0)?;
        for _twig in 0..8u8 {
            maker.open_choose(0, 3, 0, 0)?;
            for _leaf in 0..7u8 {
                maker.leaf(NodeKind::Buy { good: 0, units: 1 }, 0, 0)?;
            }
            maker.close()?;
        }
        maker.close()?;
    }
    maker.close()?;
    let (tree, _bounds) = maker.finish()?;
    Ok(tree)
}

fn put(weights: &mut Weights, node: u16, x: u64)
    requires { node < length weights.old }
    ensures { length weights.new ≡ length weights.old }
{
    weights.put(node, i128::from((x >> 40) as u32) - 8_000_000);
}

fn calls_on(tree: &Tree, calls: u32) -> u64 {
    let nodes = tree.nodes();
    let mut weights = Weights::zero(nodes);
    let fixing = Fixing::free(nodes);
    let mut scratch = Scratch::new();
    let mut set = NodeSet::empty(nodes);
    let mut x = 1u64;
    let mut total = 0u64;
    for node in 0..nodes {
        x = next(x);
        put(&mut weights, node, x);
    }
    for i in 0..calls {
        x = next(x);
        let node = (i % u32::from(nodes)) as u16;
        put(&mut weights, node, x);
        if let Some(value) = best(tree, &weights, &fixing, &mut scratch, &mut set) {
            total = total.wrapping_add((value & 0xffff_ffff) as u64);
        }
    }
    total
}

/// So many calls.
pub fn best_calls(calls: u32) -> u64 {
    match tree() {
        Ok(tree) => calls_on(&tree, calls),
        Err(_) => 0,
    }
}
