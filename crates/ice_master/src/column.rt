//! Sets of one bidder's tree, as columns of a linear program.

use crate::nodes::Nodes;

/// A set of nodes of one bidder's tree.
#[derive(Clone, Copy)]
pub struct Column {
    pub nodes: Nodes,
    /// The amount that it is worth.
    pub(crate) value: i64,
    /// What it buys of each good, and less than nothing where it sells.
    pub units: [i32; 16],
    /// The bidder whose tree it is of.
    pub bidder: u8,
}

impl Column {
    /// The set with no node.
    pub(crate) fn empty(bidder: u8) -> Column {
        Column {
            nodes: Nodes::NONE,
            value: 0,
            units: [0; 16],
            bidder,
        }
    }

    /// Adds nodes that are worth this together.
    pub(crate) fn add(&mut self, nodes: &Nodes, worth: i64) {
        self.nodes.insert_all(nodes);
        self.value = self.value.wrapping_add(worth);
    }

    /// Adds units of a good. No sum comes to more than 200,000.
    pub(crate) fn add_units(&mut self, good: u8, units: i32) {
        let most = 1 << 20;
        let sum = &mut self.units[usize::from(good % 16)];
        *sum = sum.wrapping_add(units.clamp(-most, most));
    }

    /// Its units of a good.
    pub(crate) fn units_of(&self, good: u8) -> i64 {
        i64::from(self.units[usize::from(good % 16)])
    }

    /// A number that is seldom the same for two sets.
    pub(crate) fn hash(&self) -> u64 {
        self.nodes
            .hash()
            .wrapping_add(u64::from(self.bidder).wrapping_mul(0x9e37_79b9))
    }

    /// Whether it is the same set of the same tree as another one.
    pub(crate) fn is(&self, other: &Column) -> bool {
        self.bidder == other.bidder && self.nodes.is(&other.nodes)
    }
}
