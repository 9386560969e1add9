//! A tree as packages and choices, and how its greatest net rises as amounts are raised.
ghost use Rattle.std.specs.Prelude.{◌<◌, ◌≤◌, length};

use arrayvec::ArrayVec;
use ice_relaxation::Openness;
use ice_tree::{NodeKind, Tree};
use std::cmp::Reverse;

/// One, in the parts of 2^-40 in which shares are counted.
pub(crate) const ONE: i64 = 1 << 40;

/// A share up to this counts as none.
const NEARLY: i64 = ONE >> 20;

/// Multipliers and nets are counted in so many parts.
pub(crate) const PARTS: i64 = 4096;

/// No amount is raised past this.
const MOST: i64 = 1 << 20;

/// What a node is.
#[derive(Clone, Copy)]
enum Part {
    /// It is below a package, or never taken.
    Beside,
    /// A lone leaf, or a node that brings the same leaves along each time.
    Package,
    /// A node that takes so many of its children at least and at most.
    Choice { need: u16, room: u16 },
}

/// A tree as packages and choices, with the shares of its packages and what these take, which is
/// rounded from the units of one good. Nets are in 4096ths: 4096 times what a package takes, less
/// what its units cost at the multiplier of the good. Node numbers are below 200.
#[derive(Clone, Copy)]
pub(crate) struct Form {
    parts: [Part; 256],
    /// The package that each node is in.
    packages: [Option<u8>; 256],
    shares: [i64; 256],
    /// The units of the good that each package buys, and less than none where it sells.
    units: [i64; 256],
    amounts: [i64; 256],
    /// The net of each package, and the greatest of each choice where it is inside.
    nets: [i64; 256],
    /// What a child has to net to be as good as one that its choice takes.
    bars: [i64; 256],
    /// By how much the greatest net falls where a node has to be inside.
    lacks: [i64; 256],
}

/// The units of the good that a node buys, and less than none where it sells.
fn units_of(kind: NodeKind, good: u8) -> i64 {
    match kind {
        NodeKind::Buy { good: other, units } if other == good => i64::from(units),
        NodeKind::Sell { good: other, units } if other == good => -i64::from(units),
        _ => 0,
    }
}

impl Form {
    /// That of no tree yet.
    pub(crate) fn new() -> Form {
        Form {
            parts: [Part::Beside; 256],
            packages: [None; 256],
            shares: [0; 256],
            units: [0; 256],
            amounts: [0; 256],
            nets: [0; 256],
            bars: [0; 256],
            lacks: [0; 256],
        }
    }

    /// Makes it that of a tree with these shares of nodes, of which this is open.
    pub(crate) fn fill(&mut self, tree: &Tree, shares: &[i64; 256], openness: &Openness) {
        for node in 0..tree.nodes() {
            let place = usize::from(node);
            let open = openness.of(node);
            let above = self.packages[usize::from(tree.parent(node))];
            self.parts[place] = Part::Beside;
            self.packages[place] = None;
            if open.is_reached {
                if node > 0 && above.is_some() {
                    self.packages[place] = above;
                } else if open.is_whole {
                    self.parts[place] = Part::Package;
                    self.packages[place] = Some(node as u8);
                } else {
                    self.parts[place] = Part::Choice {
                        need: open.need,
                        room: open.room,
                    };
                }
            }
            self.shares[place] = shares[place].clamp(0, ONE);
        }
    }

    /// Looks at the units of this good.
    pub(crate) fn take_good(&mut self, tree: &Tree, good: u8) {
        self.units = [0; 256];
        for node in 0..tree.nodes() {
            if let Some(package) = self.packages[usize::from(node)] {
                let units = &mut self.units[usize::from(package)];
                *units = units.wrapping_add(units_of(tree.kind(node), good));
            }
        }
    }

    /// Whether the node is a package.
    pub(crate) fn is_package(&self, node: u8) -> bool {
        matches!(self.parts[usize::from(node)], Part::Package)
    }

    /// The share of a package.
    pub(crate) fn share(&self, node: u8) -> i64 {
        self.shares[usize::from(node)]
    }

    /// Whether there is a share of the node.
    pub(crate) fn has_share(&self, node: u8) -> bool {
        self.shares[usize::from(node)] > NEARLY
    }

    /// How many units of the good a package buys or sells.
    pub(crate) fn lot(&self, node: u8) -> u64 {
        self.units[usize::from(node)].unsigned_abs()
    }

    /// What a package takes.
    pub(crate) fn amount(&self, node: u8) -> i64 {
        self.amounts[usize::from(node)]
    }

    /// Makes what each package takes its units times the multiplier, rounded down.
    fn round_down(&mut self, tree: &Tree, multiplier: i64) {
        for node in 0..tree.nodes() {
            let place = usize::from(node);
            let cost = multiplier.wrapping_mul(self.units[place]);
            self.amounts[place] = cost.div_euclid(PARTS);
            self.nets[place] = cost.rem_euclid(PARTS).wrapping_neg();
        }
    }

    /// Raises what a package takes by so many.
    fn raise(&mut self, node: u8, times: i64) {
        let place = usize::from(node);
        self.amounts[place] = self.amounts[place].wrapping_add(times);
        self.nets[place] = self.nets[place].wrapping_add(times.wrapping_mul(PARTS));
    }

    /// The nets of the children that a choice may take, the greatest first.
    fn offers(&self, tree: &Tree, node: u16) -> ArrayVec<i64, 200>
        requires few { length tree.now ≤ 200 }
        requires node { node < length tree.now }
    {
        let mut offers = ArrayVec::new();
        for &child in tree.children(node) {
            let place = usize::from(child);
            if !matches!(self.parts[place], Part::Beside) && !offers.is_full() {
                offers.push(self.nets[place]);
            }
        }
        offers.sort_unstable_by_key(|net| Reverse(*net));
        offers
    }

    /// Works out what a choice nets, and what another child would have to net.
    fn choose(&mut self, tree: &Tree, node: u16, need: u16, room: u16)
        requires few { length tree.now ≤ 200 }
        requires node { node < length tree.now }
    {
        let mut sum: i64 = 0;
        let mut bar = 0;
        let mut taken: u16 = 0;
        for &net in &self.offers(tree, node) {
            if taken >= room || taken >= need && net <= 0 {
                break;
            }
            sum = sum.wrapping_add(net);
            bar = net;
            taken = taken.saturating_add(1);
        }
        self.nets[usize::from(node)] = sum;
        self.bars[usize::from(node)] = if taken < room { bar.min(0) } else { bar };
    }

    /// Works out the greatest net of the tree.
    fn weigh(&mut self, tree: &Tree) -> i64 {
        for node in (0..tree.nodes()).rev() {
            if let Part::Choice { need, room } = self.parts[usize::from(node)] {
                self.choose(tree, node, need, room);
            }
        }
        self.nets[0].max(0)
    }

    /// Works out by how much the greatest net falls where each node has to be inside.
    fn fill_lacks(&mut self, tree: &Tree) {
        self.lacks[0] = self.nets[0].wrapping_neg().max(0);
        for node in 0..tree.nodes() {
            if let Part::Choice { .. } = self.parts[usize::from(node)] {
                self.fill_lacks_below(tree, node);
            }
        }
    }

    /// The same of the children of a choice.
    fn fill_lacks_below(&mut self, tree: &Tree, node: u16)
        requires few { length tree.now ≤ 200 }
        requires node { node < length tree.now }
    {
        let bar = self.bars[usize::from(node)];
        let lack = self.lacks[usize::from(node)];
        for &child in tree.children(node) {
            let short = bar.wrapping_sub(self.nets[usize::from(child)]).max(0);
            self.lacks[usize::from(child)] = lack.wrapping_add(short);
        }
    }

    /// The packages of which there is a share and that were rounded down, those first that a raise
    /// costs least.
    fn rounded(&self, tree: &Tree) -> ArrayVec<u8, 200> {
        let mut nodes = ArrayVec::new();
        for node in 0..tree.nodes() {
            let number = node as u8;
            let is_rounded = self.nets[usize::from(node)] < 0;
            if self.is_package(number) && self.has_share(number) && is_rounded && !nodes.is_full() {
                nodes.push(number);
            }
        }
        nodes.sort_unstable_by_key(|node| self.nets[usize::from(*node)]);
        nodes
    }

    /// Rounds what packages take of so many 4096ths of a unit: down, and then by one more for those
    /// that a raise costs least, as many as give most. The greatest net of the tree.
    pub(crate) fn round(&mut self, tree: &Tree, multiplier: i64) -> i64 {
        self.round_down(tree, multiplier);
        let nodes = self.rounded(tree);
        let mut sum: i64 = 0;
        let mut most = 0;
        let mut kept = 0;
        for (place, node) in nodes.iter().enumerate() {
            self.raise(*node, 1);
            sum = sum.wrapping_add(self.share(*node));
            let gain = sum.wrapping_sub(self.weigh(tree).wrapping_mul(ONE / PARTS));
            if gain > most {
                most = gain;
                kept = place.saturating_add(1);
            }
        }
        for (place, node) in nodes.iter().enumerate() {
            if place >= kept {
                self.raise(*node, -1);
            }
        }
        let net = self.weigh(tree);
        self.fill_lacks(tree);
        net
    }

    /// Raises what a package takes as long as the greatest net rises by no more than the rest. By
    /// how much it rises.
    pub(crate) fn raise_within(&mut self, tree: &Tree, node: u8, rest: i64) -> i64 {
        let lack = self.lacks[usize::from(node)];
        let room = MOST.wrapping_sub(self.amount(node)).max(0);
        let times = lack.wrapping_add(rest).div_euclid(PARTS).clamp(0, room);
        if times == 0 {
            return 0;
        }
        self.raise(node, times);
        self.weigh(tree);
        self.fill_lacks(tree);
        times.wrapping_mul(PARTS).wrapping_sub(lack).max(0)
    }
}
