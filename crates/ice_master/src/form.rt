//! A tree under its marks as a short list of operations.
ghost use Rattle.std.specs.Prelude.{◌<◌, ◌≤◌, length};

use crate::nodes::Nodes;
use ice_relaxation::{Choice, Leaf, Openness, Operation, Row, Rule, Work};
use ice_tree::{NodeKind, Tree};

/// The amounts of the weights of one tree, node by node.
pub type Worths = [i64; 200];

/// The operations of one tree under its marks, each choice after its operands. A tree has at most
/// 200 nodes, so a byte holds each number and each place, and no count comes to 255, where it would
/// stop.
#[derive(Clone, Copy)]
pub(crate) struct Form {
    list: [Operation; 256],
    /// The nodes that each operation brings along each time.
    nodes: [Nodes; 256],
    count: u8,
    operands: [u8; 256],
    operand_count: u8,
    leaves: [Leaf; 256],
    leaf_count: u8,
    is_forced: bool,
    is_live: bool,
}

impl Form {
    /// That of no tree yet.
    pub(crate) fn new() -> Form {
        Form {
            list: [Operation::BLANK; 256],
            nodes: [Nodes::NONE; 256],
            count: 0,
            operands: [0; 256],
            operand_count: 0,
            leaves: [Leaf::BLANK; 256],
            leaf_count: 0,
            is_forced: false,
            is_live: false,
        }
    }

    /// Makes it that of a tree with these worths, of which this is open.
    pub(crate) fn fill(&mut self, tree: &Tree, worths: &Worths, openness: &Openness) {
        let root = openness.of(0);
        self.count = 0;
        self.operand_count = 0;
        self.leaf_count = 0;
        self.is_forced = root.is_forced;
        self.is_live = root.is_live;
        let mut numbers = [0; 200];
        for node in (0..tree.nodes()).rev() {
            let open = openness.of(node);
            if open.is_reached && !open.is_whole {
                self.add_rows(tree, worths, openness, node, &mut numbers);
                numbers[usize::from(node)] = self.add_choice(
                    tree, worths, openness, node, &numbers,
                );
            }
        }
        if root.is_reached && root.is_whole {
            self.add_row(tree, worths, openness, 0);
        }
    }

    /// Adds the rows below a choice, and notes the number of each one's node.
    fn add_rows(
        &mut self,
        tree: &Tree,
        worths: &Worths,
        openness: &Openness,
        node: u16,
        numbers: &mut [u8; 200],
    )
        requires few { length tree.now ≤ 200 }
        requires node { node < length tree.now }
    {
        for &below in tree.children(node) {
            let child = openness.of(below);
            if child.is_reached && child.is_whole {
                numbers[usize::from(below)] = self.add_row(tree, worths, openness, below);
            }
        }
    }

    /// Adds the row of a node that brings the same nodes along each time. Its number.
    fn add_row(&mut self, tree: &Tree, worths: &Worths, openness: &Openness, node: u16) -> u8
        requires { node < 200 }
    {
        let first = self.leaf_count;
        let last = openness.of(node).last;
        let mut nodes = Nodes::NONE;
        let mut worth: i64 = 0;
        for below in node..tree.nodes() {
            if below > last {
                break;
            }
            if openness.of(below).is_reached {
                nodes.insert(below as u8);
                worth = worth.wrapping_add(worths[usize::from(below)]);
                self.add_leaf(tree.kind(below));
            }
        }
        let end = self.leaf_count;
        let operation = Operation {
            worth,
            node: node as u8,
            work: Work::Row(Row { first, end }),
        };
        self.add(operation, nodes)
    }

    /// Adds a leaf to the row that is made.
    fn add_leaf(&mut self, kind: NodeKind) {
        let (good, units) = match kind {
            NodeKind::Choose { .. } => return,
            NodeKind::Buy { good, units } => (good, i32::from(units)),
            NodeKind::Sell { good, units } => (good, -i32::from(units)),
        };
        self.leaves[usize::from(self.leaf_count)] = Leaf { units, good };
        self.leaf_count = self.leaf_count.saturating_add(1);
    }

    /// Adds the choice of a node among its children. Its number.
    fn add_choice(
        &mut self,
        tree: &Tree,
        worths: &Worths,
        openness: &Openness,
        node: u16,
        numbers: &[u8; 200],
    ) -> u8
        requires few { length tree.now ≤ 200 }
        requires node { node < length tree.now }
    {
        let open = openness.of(node);
        let along = self.operand_count;
        self.add_operands(tree, openness, node, numbers, true);
        let offered = self.operand_count;
        self.add_operands(tree, openness, node, numbers, false);
        let end = self.operand_count;
        let mut nodes = Nodes::NONE;
        nodes.insert(node as u8);
        let operation = Operation {
            worth: worths[usize::from(node)],
            node: node as u8,
            work: Work::Choice(Choice {
                rule: Rule::of(open.need, open.room, end.saturating_sub(offered)),
                along,
                offered,
                end,
            }),
        };
        self.add(operation, nodes)
    }

    /// Adds those children of a node to the choice that is made that come along with it, or those
    /// that it may take.
    fn add_operands(
        &mut self,
        tree: &Tree,
        openness: &Openness,
        node: u16,
        numbers: &[u8; 200],
        are_along: bool,
    )
        requires few { length tree.now ≤ 200 }
        requires node { node < length tree.now }
    {
        let open = openness.of(node);
        for &below in tree.children(node) {
            let child = openness.of(below);
            if child.is_reached && open.brings(&child) == are_along {
                self.operands[usize::from(self.operand_count)] = numbers[usize::from(below)];
                self.operand_count = self.operand_count.saturating_add(1);
            }
        }
    }

    /// Adds an operation. Its number.
    fn add(&mut self, operation: Operation, nodes: Nodes) -> u8 {
        let number = self.count;
        self.list[usize::from(number)] = operation;
        self.nodes[usize::from(number)] = nodes;
        self.count = self.count.saturating_add(1);
        number
    }

    /// Works out anew what the operations are worth, by the worths of the nodes they bring along.
    pub(crate) fn weigh(&mut self, worths: &Worths) {
        for number in 0..self.count {
            let mut nodes = self.nodes[usize::from(number)];
            let mut worth: i64 = 0;
            for _node in 0..200 {
                let Some(node) = nodes.take_first() else {
                    break;
                };
                worth = worth.wrapping_add(worths[usize::from(node % 200)]);
            }
            self.list[usize::from(number)].worth = worth;
        }
    }

    /// How many operations there are.
    pub(crate) fn len(&self) -> u8 {
        self.count
    }

    /// Whether the root must be inside.
    pub(crate) fn is_forced(&self) -> bool {
        self.is_forced
    }

    /// Whether some set may meet the marks.
    pub(crate) fn is_open(&self) -> bool {
        self.is_live || !self.is_forced
    }

    /// The number of the root's operation: the last one. None where there is none.
    pub(crate) fn root(&self) -> Option<u8> {
        if self.count == 0 {
            None
        } else {
            Some(self.count - 1)
        }
    }

    /// The root's operation, where the root may be left out.
    pub(crate) fn optional_root(&self) -> Option<u8> {
        if self.is_forced { None } else { self.root() }
    }

    /// An operation.
    pub(crate) fn operation(&self, number: u8) -> &Operation {
        &self.list[usize::from(number)]
    }

    /// The nodes that an operation brings along each time.
    pub(crate) fn nodes(&self, number: u8) -> &Nodes {
        &self.nodes[usize::from(number)]
    }

    /// An operand.
    pub(crate) fn operand(&self, place: u8) -> u8 {
        self.operands[usize::from(place)]
    }

    /// A leaf of a row.
    pub(crate) fn leaf(&self, place: u8) -> &Leaf {
        &self.leaves[usize::from(place)]
    }
}
