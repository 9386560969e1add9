//! A comparison with all sets at all corners of the bounds, on small trees.
ghost use Rattle.std.specs.Prelude.{◌<◌, ◌≤◌};

use crate::rules::{set_of, verdict};
use ice_rules::{Scratch, Standing, Verdict, improvement, loss, mrpar};
use ice_terms::Prices;
use ice_tree::{Bounds, NodeKind, NodeSet, Tree, TreeFault, TreeMaker};
use std::test::Fail;

/// Numbers that look random, each from the one before it.
#[derive(Drop)]
struct Draw {
    state: u64,
}

impl Draw {
    /// The next number below `bound`.
    fn below(&mut self, bound: u16) -> u16
        requires { 0 < bound }
        ensures { result < bound }
    {
        self.state = self
            .state
            .wrapping_mul(6_364_136_223_846_793_005)
            .wrapping_add(1_442_695_040_888_963_407);
        ((self.state >> 33) % u64::from(bound)) as u16
    }
}

/// Adds a node that buys or sells, with bounds drawn from -6 to 6.
fn add_drawn(maker: &mut TreeMaker, draw: &mut Draw) -> Result<(), TreeFault> {
    let good = draw.below(2) as u8;
    let units = 1 + draw.below(2);
    let kind = if draw.below(2) == 0 {
        NodeKind::Buy { good, units }
    } else {
        NodeKind::Sell { good, units }
    };
    let lo = i64::from(draw.below(10)) - 6;
    maker.leaf(kind, lo, lo + i64::from(draw.below(8)))
}

fn open_drawn(maker: &mut TreeMaker, draw: &mut Draw, children: u16) -> Result<(), TreeFault>
    requires { children ≤ 3 }
{
    let most = draw.below(children + 1);
    let least = draw.below(most + 1);
    let lo = i64::from(draw.below(3)) - 1;
    maker.open_choose(least, most, lo, lo + i64::from(draw.below(2)))
}

/// A root over one to three children, of which the first may be a choose node over one or two
/// leaves: at most 6 nodes.
fn drawn_tree(draw: &mut Draw) -> Result<(Tree, Bounds), TreeFault> {
    let mut maker = TreeMaker::new(2);
    let children = 1 + draw.below(3);
    open_drawn(&mut maker, draw, children)?;
    for child in 0..children {
        if child == 0 && draw.below(2) == 0 {
            let leaves = 1 + draw.below(2);
            open_drawn(&mut maker, draw, leaves)?;
            for _leaf in 0..leaves {
                add_drawn(&mut maker, draw)?;
            }
            maker.close()?;
        } else {
            add_drawn(&mut maker, draw)?;
        }
    }
    maker.close()?;
    maker.finish()
}

/// What the node costs, times the prices' denominator.
fn cost(kind: NodeKind, nums: [i64; 2]) -> i64 {
    match kind {
        NodeKind::Choose { .. } => 0,
        NodeKind::Buy { good, units } => nums[usize::from(good % 2)].wrapping_mul(i64::from(units)),
        NodeKind::Sell { good, units } => {
            nums[usize::from(good % 2)]
                .wrapping_mul(i64::from(units))
                .wrapping_neg()
        }
    }
}

/// The nets of all sets of at most 6 nodes, each at all corners of the bounds, and which sets are
/// satisfied. A set and a corner are numbers whose bits are the nodes inside, or those at their
/// upper values.
#[derive(Drop)]
struct Nets {
    nets: [[i64; 64]; 64],
    satisfied: [bool; 64],
    losses: [i64; 64],
}

/// The net of one set at one corner.
fn net_at(
    tree: &Tree,
    bounds: &Bounds,
    den: i64,
    nums: [i64; 2],
    set: usize,
    corner: usize,
) -> i64 {
    let mut net = 0i64;
    for node in 0..tree.nodes().min(bounds.len()).min(6) {
        if (set >> node) & 1 == 1 {
            let value = if (corner >> node) & 1 == 1 {
                bounds.hi(node)
            } else {
                bounds.lo(node)
            };
            net = net
                .wrapping_add(den.wrapping_mul(value))
                .wrapping_sub(cost(tree.kind(node), nums));
        }
    }
    net
}

impl Nets {
    fn of(tree: &Tree, bounds: &Bounds, den: i64, nums: [i64; 2]) -> Nets {
        let mut nets = [[0; 64]; 64];
        let mut satisfied = [false; 64];
        for set in 0..64usize {
            let nodes = tree.nodes();
            satisfied[set] = nodes <= 6
                && set >> nodes == 0
                && tree.is_satisfied(&set_of(nodes, set as u16)).is_ok();
            for corner in 0..64usize {
                nets[set][corner] = net_at(tree, bounds, den, nums, set, corner);
            }
        }
        let mut all = Nets {
            nets,
            satisfied,
            losses: [0; 64],
        };
        for set in 0..64usize {
            all.losses[set] = all.loss(set);
        }
        all
    }

    /// The greatest gain of one set over another at a corner.
    fn most(&self, one: usize, other: usize) -> i64
        requires one { one < 64 }
        requires other { other < 64 }
    {
        let mut most = i64::MIN;
        for corner in 0..64usize {
            most = most.max(self.nets[one][corner].wrapping_sub(self.nets[other][corner]));
        }
        most
    }

    /// The least gain of one set over another at a corner.
    fn least(&self, one: usize, other: usize) -> i64
        requires one { one < 64 }
        requires other { other < 64 }
    {
        self.most(other, one).wrapping_neg()
    }

    fn loss(&self, set: usize) -> i64
        requires { set < 64 }
    {
        let mut loss = i64::MIN;
        for other in 0..64usize {
            if self.satisfied[other] {
                loss = loss.max(self.most(other, set));
            }
        }
        loss
    }

    fn mrpar(&self, set: usize) -> bool
        requires { set < 64 }
    {
        for best in 0..64usize {
            if self.satisfied[best]
                && self.losses[best] == 0
                && (self.losses[set] == 0 || self.least(best, set) > 0)
            {
                return true;
            }
        }
        false
    }

    /// Whether a set gains more than this at all corners.
    fn gains_more(&self, set: usize, least: i64) -> bool
        requires { set < 64 }
    {
        for other in 0..64usize {
            if self.satisfied[other] && self.least(other, set) > least {
                return true;
            }
        }
        false
    }
}

/// Bounds inside the old ones.
fn drawn_inside(old: &Bounds, draw: &mut Draw) -> ([i64; 6], [i64; 6]) {
    let mut lo = [0; 6];
    let mut hi = [0; 6];
    for node in 0..old.len().min(6) {
        let place = usize::from(node);
        lo[place] = old
            .hi(node)
            .min(old.lo(node).wrapping_add(i64::from(draw.below(3))));
        hi[place] = lo[place].max(old.hi(node).wrapping_sub(i64::from(draw.below(3))));
    }
    (lo, hi)
}

/// What the rules must find of a set, by all sets and corners.
#[derive(Drop)]
struct Expected {
    loss: i128,
    mrpar: bool,
    improves: bool,
    verdict: Verdict,
}

/// What they must find where the loss must fall by so much, by the nets at the old bounds and at
/// the new ones.
fn expected_of(before: &Nets, after: &Nets, set: usize, fall: i64) -> Expected
    requires { set < 64 }
{
    let most = before.losses[set].wrapping_sub(fall);
    let left = after.losses[set];
    let improves = left == 0 || left <= most || after.gains_more(set, most);
    let mrpar = after.mrpar(set);
    let verdict = if !mrpar {
        Verdict::Mrpar
    } else if !improves {
        Verdict::Improve
    } else {
        Verdict::Accepted
    };
    Expected {
        loss: i128::from(before.losses[set]),
        mrpar,
        improves,
        verdict,
    }
}

/// The loss at the old bounds, and whether the rules hold at the new ones; None where the arguments
/// are not those of one tree.
fn found(
    tree: &Tree,
    old: &Bounds,
    new: &Bounds,
    set: &NodeSet,
    prices: &Prices,
    improve: i64,
    scratch: &mut Scratch,
) -> Option<(i128, bool, bool)> {
    let nodes = tree.nodes();
    if old.len() != nodes || new.len() != nodes || set.len() != nodes {
        return None;
    }
    if tree.is_satisfied(set).is_err() {
        return None;
    }
    let at = Standing {
        tree,
        bounds: old,
        set,
        prices,
    };
    let then = Standing {
        tree,
        bounds: new,
        set,
        prices,
    };
    let improves = improvement(&at, new, improve, scratch);
    Some((loss(&at, scratch), mrpar(&then, scratch), improves))
}

/// A tree with bounds, narrower ones, which are listed too, and prices.
#[derive(Drop)]
struct Case<'a> {
    tree: &'a Tree,
    old: &'a Bounds,
    new: &'a Bounds,
    lo: &'a [i64],
    hi: &'a [i64],
    prices: &'a Prices,
    improve: i64,
}

/// Whether the rules find of a set what they must find.
fn agrees(case: &Case<'_>, set: &NodeSet, want: &Expected, scratch: &mut Scratch) -> bool {
    let tree = case.tree;
    let improve = case.improve;
    let rules = found(tree, case.old, case.new, set, case.prices, improve, scratch);
    let judged = verdict(tree, case.old, case.lo, case.hi, set, case.prices, improve);
    rules == Some((want.loss, want.mrpar, want.improves)) && judged == Some(want.verdict)
}

/// How many sets have been refused by the first rule, and by the second, and accepted.
#[derive(Drop)]
struct Counts {
    first: u16,
    second: u16,
    accepted: u16,
}

impl Counts {
    fn add(&mut self, verdict: Verdict) {
        match verdict {
            Verdict::Mrpar => self.first = self.first.wrapping_add(1),
            Verdict::Improve => self.second = self.second.wrapping_add(1),
            _ => self.accepted = self.accepted.wrapping_add(1),
        }
    }
}

/// The first satisfied set of which the rules find something else than by all sets and corners.
fn first_at_fault(
    case: &Case<'_>,
    before: &Nets,
    after: &Nets,
    fall: i64,
    counts: &mut Counts,
    scratch: &mut Scratch,
) -> Option<u16> {
    let nodes = case.tree.nodes();
    for bits in 0..64u16 {
        let place = usize::from(bits);
        let set = set_of(nodes, bits);
        if !before.satisfied[place] || case.tree.is_satisfied(&set).is_err() {
            continue;
        }
        let want = expected_of(before, after, place, fall);
        if !agrees(case, &set, &want, scratch) {
            return Some(bits);
        }
        counts.add(want.verdict);
    }
    None
}

/// The same of a drawn tree with drawn bounds and prices.
fn first_of_drawn(
    draw: &mut Draw,
    counts: &mut Counts,
    scratch: &mut Scratch,
) -> Result<Option<u16>, Fail> {
    let (tree, old) = drawn_tree(draw)?;
    let nums = [i64::from(draw.below(7)), i64::from(draw.below(7))];
    let den = 1 + i64::from(draw.below(3));
    let improve = i64::from(draw.below(4));
    let terms = [i128::from(nums[0]), i128::from(nums[1])];
    let prices = Prices::new(den, &terms).ok_or("prices")?;
    let (lo, hi) = drawn_inside(&old, draw);
    let nodes = tree.nodes();
    if nodes > 6 {
        return Err("nodes".into());
    }
    let lo = &lo[..usize::from(nodes)];
    let hi = &hi[..usize::from(nodes)];
    let Ok(new) = tree.set_bounds(lo, hi) else {
        return Err("bounds".into());
    };
    let before = Nets::of(&tree, &old, den, nums);
    let after = Nets::of(&tree, &new, den, nums);
    let case = Case {
        tree: &tree,
        old: &old,
        new: &new,
        lo,
        hi,
        prices: &prices,
        improve,
    };
    let fall = improve.wrapping_mul(den);
    Ok(first_at_fault(&case, &before, &after, fall, counts, scratch))
}

#[test]
fn the_rules_agree_with_all_sets_and_corners(rt: HostRuntime) -> Result<(), Fail> {
    let mut draw = Draw { state: 1 };
    let mut scratch = Scratch::new();
    let mut counts = Counts {
        first: 0,
        second: 0,
        accepted: 0,
    };
    for round in 0..60u16 {
        let fault = first_of_drawn(&mut draw, &mut counts, &mut scratch)?;
        assert_eq!(rt; fault, None, "in round {round}");
    }
    let counts = [counts.accepted, counts.first, counts.second];
    assert!(rt; 20 < counts[0] && 20 < counts[1] && 20 < counts[2]);
    Ok(())
}
