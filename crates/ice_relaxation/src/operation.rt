//! What an operation is: the work at one node of a tree.

use crate::number::Number;

/// Which of the offered operands a choice takes, beside those that come along.
#[derive(Clone, Copy)]
pub enum Rule {
    /// None.
    Bound,
    /// Each that adds value.
    Each,
    /// The best one, where it adds value.
    BestGain,
    /// The best one.
    Best,
    /// As many of the best as are needed, and then those that add value, as long as there is room.
    Several {
        /// So many are needed.
        need: u8,
        /// There is room for so many.
        room: u8,
    },
}

/// A node that brings the same leaves along each time: a run of the list's leaves.
#[derive(Clone, Copy)]
pub struct Row {
    /// Where its leaves begin.
    pub first: u8,
    /// Where they end.
    pub end: u8,
}

/// A node with a choice among its children: a run of the list's operands.
#[derive(Clone, Copy)]
pub struct Choice {
    /// Which of the offered operands it takes.
    pub rule: Rule,
    /// Where the operands that come along begin.
    pub along: u8,
    /// Where these end, and those begin that are offered.
    pub offered: u8,
    /// Where the offered ones end.
    pub end: u8,
}

/// What is worked out at a node.
#[derive(Clone, Copy)]
pub enum Work {
    /// What its leaves cost.
    Row(Row),
    /// What its operands add.
    Choice(Choice),
}

/// The operation that has another one as its operand.
#[derive(Clone, Copy)]
pub(crate) enum Above {
    /// None, since this one is the root's.
    Nothing,
    /// One that it comes along with.
    Along(Number),
    /// One that may take it.
    Offered(Number),
}

/// The work at one node.
#[derive(Clone, Copy)]
pub struct Operation {
    /// What the node is worth, with what it brings along each time, in parts of one.
    pub worth: i64,
    /// The number of the node.
    pub node: u8,
    /// What is worked out there.
    pub work: Work,
}

/// What a leaf buys, and less than nothing where it sells.
#[derive(Clone, Copy)]
pub struct Leaf {
    /// So many units.
    pub units: i32,
    /// Of this good.
    pub good: u8,
}

impl Rule {
    /// How a node takes some of so many offered children, so many of which are needed and have
    /// room. No more are needed, or have room, than are offered.
    pub fn of(need: u16, room: u16, offered: u8) -> Rule {
        let most = u16::from(offered);
        match (need, room) {
            _ if offered == 0 => Rule::Bound,
            (0, 1) => Rule::BestGain,
            (1, 1) => Rule::Best,
            (0, room) if room >= most => Rule::Each,
            (need, room) => Rule::Several {
                need: need.min(most) as u8,
                room: room.min(most) as u8,
            },
        }
    }
}

impl Operation {
    /// That of no node yet.
    pub const BLANK: Operation = Operation {
        worth: 0,
        node: 0,
        work: Work::Row(Row { first: 0, end: 0 }),
    };
}

impl Leaf {
    /// That of no node yet.
    pub const BLANK: Leaf = Leaf { units: 0, good: 0 };
}

/// The bit of a good.
pub(crate) fn bit_of(good: u8) -> u32 {
    1 << (good % 32)
}
