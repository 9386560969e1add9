//! A comparison of best sets with all sets of small trees.
ghost use Rattle.std.specs.Prelude.{◌≡◌, ◌<◌, ◌≤◌, length};

use ice_best::{Fixing, Mark, Scratch, best};
use ice_defs::NodeKind;
use ice_tree::{NodeSet, Tree, TreeFault, TreeMaker, Weights};
use std::test::Fail;

/// Numbers that look random, each from the one before it.
#[derive(Drop)]
struct Draw {
    state: u64,
}

impl Draw {
    /// The next number below `bound`.
    fn below(&mut self, bound: u16) -> u16
        requires { 0 < bound }
        ensures { result < bound }
    {
        self.state = self
            .state
            .wrapping_mul(6_364_136_223_846_793_005)
            .wrapping_add(1_442_695_040_888_963_407);
        ((self.state >> 33) % u64::from(bound)) as u16
    }
}

/// A root over one to three children, of which the first two may be choose nodes over one or two
/// leaves each: at most 8 nodes. The intervals are drawn too.
fn drawn_tree(draw: &mut Draw) -> Result<Tree, TreeFault> {
    let mut maker = TreeMaker::new(1);
    let children = 1 + draw.below(3);
    open_drawn(&mut maker, draw, children)?;
    for child in 0..children {
        if child < 2 && draw.below(2) == 0 {
            let leaves = 1 + draw.below(2);
            open_drawn(&mut maker, draw, leaves)?;
            for _leaf in 0..leaves {
                maker.leaf(NodeKind::Buy { good: 0, units: 1 }, 0, 0)?;
            }
            maker.close()?;
        } else {
            maker.leaf(NodeKind::Sell { good: 0, units: 1 }, 0, 0)?;
        }
    }
    maker.close()?;
    let (tree, _bounds) = maker.finish()?;
    Ok(tree)
}

fn open_drawn(maker: &mut TreeMaker, draw: &mut Draw, children: u16) -> Result<(), TreeFault>
    requires { children ≤ 3 }
{
    let most = draw.below(children + 1);
    let least = draw.below(most + 1);
    maker.open_choose(least, most, 0, 0)
}

fn put_weight(weights: &mut Weights, node: u16, weight: i8)
    requires { node < length weights.old }
    ensures { length weights.new ≡ length weights.old }
{
    weights.put(node, i128::from(weight));
}

/// Weights from -5 to 5.
fn drawn_weights(draw: &mut Draw, nodes: u16) -> Weights
    requires { nodes ≤ 200 }
    ensures { length result ≡ nodes }
{
    let mut weights = Weights::zero(nodes);
    for node in 0..nodes {
        let weight = draw.below(11) as i8;
        put_weight(&mut weights, node, weight - 5);
    }
    weights
}

/// Each node is Must or Never once in six times.
fn draw_marks(fixing: &mut Fixing, draw: &mut Draw) {
    for node in 0..fixing.len() {
        let mark = match draw.below(6) {
            0 => Mark::Must,
            1 => Mark::Never,
            _ => Mark::Free,
        };
        if node < fixing.len() {
            fixing.put(node, mark);
        }
    }
}

/// The set with the nodes whose bits are 1.
fn set_of(nodes: u16, bits: u32) -> NodeSet
    requires { nodes ≤ 200 }
    ensures { length result ≡ nodes }
{
    let mut set = NodeSet::empty(nodes);
    for node in 0..nodes {
        if node < 32 && (bits >> node) & 1 == 1 {
            set.put(node, true);
        }
    }
    set
}

fn meets(set: &NodeSet, fixing: &Fixing) -> bool {
    for node in 0..fixing.len().min(set.len()) {
        let fits = match fixing.get(node) {
            Mark::Free => true,
            Mark::Must => set.has(node),
            Mark::Never => !set.has(node),
        };
        if !fits {
            return false;
        }
    }
    true
}

/// The greatest value of an open set, by looking at all sets of at most 8 nodes.
fn greatest_of_all(tree: &Tree, weights: &Weights, fixing: &Fixing) -> Option<i128>
    requires { length weights.now ≡ length tree.now }
{
    let mut greatest = None;
    for bits in 0..256 {
        let set = set_of(tree.nodes(), bits);
        if tree.is_satisfied(&set).is_ok() && meets(&set, fixing) {
            let value = tree.value(&set, weights);
            if greatest.is_none_or(|other| other < value) {
                greatest = Some(value);
            }
        }
    }
    greatest
}

/// The value that is found of a drawn tree under drawn marks, and the greatest of all sets.
fn found_and_greatest(
    draw: &mut Draw,
    scratch: &mut Scratch,
) -> Result<Option<(Option<i128>, Option<i128>)>, TreeFault> {
    let tree = drawn_tree(draw)?;
    let nodes = tree.nodes();
    let weights = drawn_weights(draw, nodes);
    let mut fixing = Fixing::free(nodes);
    draw_marks(&mut fixing, draw);
    if fixing.len() != nodes {
        return Ok(None);
    }
    let mut set = NodeSet::empty(nodes);
    let found = best(&tree, &weights, &fixing, scratch, &mut set);
    Ok(Some((found, greatest_of_all(&tree, &weights, &fixing))))
}

#[test]
fn best_is_the_greatest_of_all_sets(rt: HostRuntime) -> Result<(), Fail> {
    let mut draw = Draw { state: 1 };
    let mut scratch = Scratch::new();
    let mut none = 0u16;
    for round in 0..400u16 {
        let (found, greatest) = found_and_greatest(&mut draw, &mut scratch)?.ok_or("nodes")?;
        assert_eq!(rt; found, greatest, "in round {round}");
        if found.is_none() {
            none = none.wrapping_add(1);
        }
    }
    assert!(rt; 0 < none && none < 200, "{none} trees have no open set");
    Ok(())
}
