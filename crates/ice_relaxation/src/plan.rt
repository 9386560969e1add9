//! The operations of a tree, and how they are built from what its marks leave open.
ghost use Rattle.std.specs.Prelude.{◌≡◌, ◌<◌, ◌≤◌, length};

use crate::number::{Number, NumberSet};
use crate::openness::Openness;
use crate::operation::{Above, Choice, Leaf, Operation, Row, Rule, Work, bit_of};
use ice_tree::{NodeKind, Tree, Weights};

/// The operations of one tree under its marks, the rows first, and each choice after its operands.
/// Numbers of operations and places of operands and leaves all fit in a byte, since a tree has at
/// most 200 nodes; this spares the tests whether they are in range. So no count is raised past 255,
/// where it would stop.
#[derive(Clone, Copy)]
pub(crate) struct Plan {
    list: [Operation; 256],
    count: u8,
    /// For each operation, a bit for each good that leaves at its node or below it buy or sell.
    goods: [u32; 256],
    /// For each operation, the one above it.
    above: [Above; 256],
    /// How many of them are rows.
    rows: u8,
    /// For each good, the rows that have it.
    rows_of: [NumberSet; 32],
    operands: [Number; 256],
    operand_count: u8,
    leaves: [Leaf; 256],
    leaf_count: u8,
    /// Whether the root must be inside.
    is_forced: bool,
}

/// A number in 64ths that steps can be reckoned with.
fn in_64ths(worth: i128) -> i64 {
    let most = 1 << 60;
    worth.saturating_mul(64).clamp(-most, most) as i64
}

impl Plan {
    /// That of no tree yet.
    pub(crate) fn new() -> Plan {
        Plan {
            list: [Operation::BLANK; 256],
            count: 0,
            goods: [0; 256],
            above: [Above::Nothing; 256],
            rows: 0,
            rows_of: [NumberSet::EMPTY; 32],
            operands: [Number::FIRST; 256],
            operand_count: 0,
            leaves: [Leaf::BLANK; 256],
            leaf_count: 0,
            is_forced: false,
        }
    }

    /// Makes it that of a tree with these weights, of which this is open.
    pub(crate) fn fill(&mut self, tree: &Tree, weights: &Weights, openness: &Openness)
        requires { length weights.now ≡ length tree.now }
    {
        self.count = 0;
        self.operand_count = 0;
        self.leaf_count = 0;
        self.is_forced = openness.of(0).is_forced;
        self.rows_of = [NumberSet::EMPTY; 32];
        let mut numbers = [Number::FIRST; 200];
        for node in (0..tree.nodes()).rev() {
            let open = openness.of(node);
            if open.is_reached && open.is_whole && !openness.is_bound(tree, node) {
                let row = self.row(tree, weights, openness, node);
                numbers[usize::from(node)] = self.add(row);
            }
        }
        self.rows = self.count;
        for node in (0..tree.nodes()).rev() {
            let open = openness.of(node);
            if open.is_reached && !open.is_whole {
                let choice = self.choice(tree, weights.get(node), openness, node, &numbers);
                numbers[usize::from(node)] = self.add(choice);
            }
        }
    }

    /// Adds an operation. Its number.
    fn add(&mut self, operation: Operation) -> Number {
        let number = self.next_number();
        self.list[number.place()] = operation;
        self.above[number.place()] = Above::Nothing;
        self.count = self.count.saturating_add(1);
        number
    }

    /// The number of the operation that is added next.
    fn next_number(&self) -> Number {
        Number::new(self.count)
    }

    /// The row of a node that brings the same leaves along each time.
    fn row(&mut self, tree: &Tree, weights: &Weights, openness: &Openness, node: u16) -> Operation
        requires few { length tree.now ≤ 200 }
        requires weights { length weights.now ≡ length tree.now }
        requires node { node < length tree.now }
    {
        let last = openness.of(node).last;
        let first = self.leaf_count;
        let mut worth: i128 = 0;
        let mut goods = 0;
        for below in node..tree.nodes() {
            if below > last {
                break;
            }
            if openness.of(below).is_reached {
                worth = worth.saturating_add(weights.get(below));
                goods |= self.add_leaf(tree.kind(below));
            }
        }
        self.note_row(goods);
        let end = self.leaf_count;
        Operation {
            worth: in_64ths(worth),
            node: node as u8,
            work: Work::Row(Row { first, end }),
        }
    }

    /// Adds a leaf to the row that is made. The bit of its good.
    fn add_leaf(&mut self, kind: NodeKind) -> u32 {
        let (good, units) = match kind {
            NodeKind::Choose { .. } => return 0,
            NodeKind::Buy { good, units } => (good % 32, i32::from(units)),
            NodeKind::Sell { good, units } => (good % 32, -i32::from(units)),
        };
        self.leaves[usize::from(self.leaf_count)] = Leaf { units, good };
        self.leaf_count = self.leaf_count.saturating_add(1);
        bit_of(good)
    }

    /// Notes for each of these goods that the row that is made has it.
    fn note_row(&mut self, goods: u32) {
        let row = self.next_number();
        self.goods[row.place()] = goods;
        let mut left = goods;
        for _good in 0..goods.count_ones() {
            let good = left.trailing_zeros() % 32;
            left &= left.wrapping_sub(1);
            self.rows_of[good as usize].insert(row);
        }
    }

    /// The choice of a node of this weight among its children.
    fn choice(
        &mut self,
        tree: &Tree,
        weight: i128,
        openness: &Openness,
        node: u16,
        numbers: &[Number; 200],
    ) -> Operation
        requires few { length tree.now ≤ 200 }
        requires node { node < length tree.now }
    {
        let open = openness.of(node);
        let along = self.operand_count;
        let number = self.next_number();
        self.add_operands(tree, openness, node, numbers, Above::Along(number));
        let offered = self.operand_count;
        self.add_operands(tree, openness, node, numbers, Above::Offered(number));
        let end = self.operand_count;
        self.goods[number.place()] = self.goods_of(along, end);
        Operation {
            worth: in_64ths(weight),
            node: node as u8,
            work: Work::Choice(Choice {
                rule: Rule::of(open.need, open.room, end.saturating_sub(offered)),
                along,
                offered,
                end,
            }),
        }
    }

    /// Adds those children of a node to the choice that is made that come along with it, or those
    /// that it may take.
    fn add_operands(
        &mut self,
        tree: &Tree,
        openness: &Openness,
        node: u16,
        numbers: &[Number; 200],
        above: Above,
    )
        requires few { length tree.now ≤ 200 }
        requires node { node < length tree.now }
    {
        let open = openness.of(node);
        let are_along = matches!(above, Above::Along(_));
        for &below in tree.children(node) {
            let child = openness.of(below);
            if child.is_reached && open.brings(&child) == are_along {
                self.add_operand(numbers[usize::from(below)], above);
            }
        }
    }

    /// Adds an operand to the choice that is made, which is above it from now on.
    fn add_operand(&mut self, operand: Number, above: Above) {
        self.operands[usize::from(self.operand_count)] = operand;
        self.operand_count = self.operand_count.saturating_add(1);
        self.above[operand.place()] = above;
    }

    /// The goods of the operands at these places.
    fn goods_of(&self, first: u8, end: u8) -> u32 {
        let mut goods = 0;
        for place in first..end {
            goods |= self.goods(self.operand(place));
        }
        goods
    }

    /// How many operations there are.
    pub(crate) fn len(&self) -> u8 {
        self.count
    }

    /// Whether all of them but the root's are rows.
    pub(crate) fn is_flat(&self) -> bool {
        u16::from(self.rows) + 1 >= u16::from(self.count)
    }

    /// Whether the root must be inside.
    pub(crate) fn is_forced(&self) -> bool {
        self.is_forced
    }

    /// The number of the root's operation: the last one. None where there is none.
    pub(crate) fn root(&self) -> Option<Number> {
        if self.count == 0 {
            None
        } else {
            Some(Number::new(self.count - 1))
        }
    }

    /// An operation.
    pub(crate) fn operation(&self, number: Number) -> &Operation {
        &self.list[number.place()]
    }

    /// A bit for each good that leaves at an operation's node or below it buy or sell.
    pub(crate) fn goods(&self, number: Number) -> u32 {
        self.goods[number.place()]
    }

    /// The operation above one.
    pub(crate) fn above(&self, number: Number) -> Above {
        self.above[number.place()]
    }

    /// The rows that have a good.
    pub(crate) fn rows_with(&self, good: u8) -> NumberSet {
        self.rows_of[usize::from(good % 32)]
    }

    /// An operand.
    pub(crate) fn operand(&self, place: u8) -> Number {
        self.operands[usize::from(place)]
    }

    /// All operands.
    pub(crate) fn operands(&self) -> &[Number; 256] {
        &self.operands
    }

    /// A leaf of a row.
    pub(crate) fn leaf(&self, place: u8) -> Leaf {
        self.leaves[usize::from(place)]
    }
}
