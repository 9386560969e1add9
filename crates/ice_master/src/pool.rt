//! The columns that were found, each once, and what they are worth under the marks of a side.
ghost use Rattle.std.specs.Prelude.{◌<◌};

use crate::column::Column;
use crate::nodes::Nodes;
use crate::scale::BREACH;
use std::alloc::{AllocError, Global};

/// There is room for so many columns.
const MOST: u16 = 8192;

/// A solve begins with room for at least so many more.
const SPARE: u16 = 2048;

/// So many slots are looked up in, twice as many as columns.
const SLOTS: u32 = 16384;

/// What a slot holds that names no column.
const NONE: u16 = u16::MAX;

/// What the marks of one tree ask of a set.
#[derive(Clone, Copy)]
struct Demand {
    must: Nodes,
    never: Nodes,
    /// Whether the marks were looked at.
    is_known: bool,
}

/// The columns that were found, each with a number. Those of the empty sets come first, one for
/// each bidder, whose number it has.
#[derive(Drop)]
pub struct Pool {
    columns: Vec<Column>,
    count: u16,
    /// So many are those of the empty sets.
    bidders: u8,
    /// The numbers of columns, each at its hash or in the first free slot behind it.
    slots: Vec<u16>,
    /// How often the pool was emptied.
    age: u32,
    demands: [Demand; 64],
    /// What a number stands for that names none.
    blank: Column,
}

/// The slot behind so many others.
fn slot(place: u64) -> usize
    ensures { result < 16384 }
{
    (place % 16384) as usize
}

impl Pool {
    /// That of no set but the empty ones.
    pub(crate) fn new(alloc: Global, bidders: u8) -> Result<Pool, AllocError> {
        let blank = Column::empty(0);
        let nothing = Demand {
            must: Nodes::NONE,
            never: Nodes::NONE,
            is_known: false,
        };
        let columns = vec![in alloc; blank; usize::from(MOST)]?;
        let slots = vec![in alloc; NONE; 16384]?;
        let mut pool = Pool {
            columns,
            count: 0,
            bidders,
            slots,
            age: 0,
            demands: [nothing; 64],
            blank,
        };
        pool.begin();
        Ok(pool)
    }

    /// Forgets all sets but the empty ones.
    fn begin(&mut self) {
        for slot in self.slots.iter_mut() {
            *slot = NONE;
        }
        self.count = 0;
        for bidder in 0..self.bidders {
            self.add(Column::empty(bidder));
        }
    }

    /// Makes room for the columns of a solve, where it must by forgetting those there are. What was
    /// kept of their numbers is of another age then.
    pub fn make_room(&mut self) {
        if self.count > MOST - SPARE {
            self.age = self.age.wrapping_add(1);
            self.begin();
        }
    }

    /// The age of the columns.
    pub fn age(&self) -> u32 {
        self.age
    }

    /// Adds a column where it isn't there. Its number. None where there is no room.
    pub(crate) fn add(&mut self, column: Column) -> Option<u16> {
        let hash = column.hash();
        for step in 0..SLOTS {
            let place = slot(hash.wrapping_add(u64::from(step)));
            let number = self.number_at(place);
            if number == NONE {
                return self.put(place, column);
            }
            if self.column(number).is(&column) {
                return Some(number);
            }
        }
        None
    }

    /// The number in a slot.
    fn number_at(&self, place: usize) -> u16 {
        match self.slots.get(place) {
            Some(number) => *number,
            None => NONE,
        }
    }

    /// Adds a column at a free slot. None where there is no room.
    fn put(&mut self, place: usize, column: Column) -> Option<u16> {
        let number = self.count;
        let kept = self.columns.get_mut(usize::from(number))?;
        *kept = column;
        if let Some(slot) = self.slots.get_mut(place) {
            *slot = number;
        }
        self.count = self.count.saturating_add(1);
        Some(number)
    }

    /// The column of a number.
    pub fn column(&self, number: u16) -> &Column {
        match self.columns.get(usize::from(number)) {
            Some(column) => column,
            None => &self.blank,
        }
    }

    /// Whether the marks of a tree ask this, and are known to.
    pub(crate) fn asks(&self, bidder: u8, must: &Nodes, never: &Nodes) -> bool {
        let demand = &self.demands[usize::from(bidder % 64)];
        demand.is_known && demand.must.is(must) && demand.never.is(never)
    }

    /// Sets what the marks of a tree ask.
    pub(crate) fn demand(&mut self, bidder: u8, must: Nodes, never: Nodes) {
        self.demands[usize::from(bidder % 64)] = Demand {
            must,
            never,
            is_known: true,
        };
    }

    /// Whether the marks leave a node of a tree free.
    pub(crate) fn is_free(&self, bidder: u8, node: u8) -> bool {
        let demand = &self.demands[usize::from(bidder % 64)];
        !demand.must.has(node) && !demand.never.has(node)
    }

    /// What a column is worth under the marks: far less where it breaks them.
    pub fn value(&self, number: u16) -> i64 {
        let column = self.column(number);
        let demand = &self.demands[usize::from(column.bidder % 64)];
        if column.nodes.meets(&demand.must, &demand.never) {
            column.value
        } else {
            column.value.wrapping_sub(BREACH)
        }
    }
}
