//! Derived goods: what the nodes of the trees take of each, and how much there may be of it.
ghost use Rattle.std.specs.Prelude.{◌<◌, IfSome};

use ice_master::{Column, Market, Master, Nodes, Worths};
use std::alloc::{AllocError, Global};

/// There are at most so many rows: one for each good, and behind them one for each derived good.
pub(crate) const MOST_ROWS: u8 = 144;

/// A number for each row or place. A byte is a place in it.
pub(crate) type Line = [i64; 256];

/// A smaller number for each row.
type Units = [i32; 256];

/// What one node takes of a derived good, less than nothing where it gives some. It is meant to be
/// at most 2^20 in size.
#[derive(Clone, Copy)]
pub struct Taken {
    /// The bidder's number.
    pub bidder: u8,
    /// The number of the node in its tree.
    pub node: u16,
    /// The amount.
    pub amount: i32,
}

/// What the nodes of a tree take.
#[derive(Clone, Copy)]
struct Takes {
    /// The nodes that may take something.
    takers: Nodes,
    /// What each node takes of each row; of goods nothing is told.
    amounts: [Units; 256],
}

/// The derived goods of a market, and the units of sets, row by row.
#[derive(Drop)]
pub(crate) struct Derived {
    pub(crate) market: Market,
    /// The limit of each row that is in use; the goods have 0.
    limits: [Option<i64>; 256],
    /// The rows are below this.
    pub(crate) rows: u8,
    /// What the nodes of each bidder's tree take.
    takes: Vec<Takes>,
    /// The units of the sets that were looked at, by number.
    units: Vec<Units>,
    /// Those of a set with no number.
    blank: Units,
}

impl Derived {
    /// None yet, of the market of a master.
    pub(crate) fn new(alloc: Global, master: &Master) -> Result<Derived, AllocError> {
        let nothing = Takes {
            takers: Nodes::NONE,
            amounts: [[0; 256]; 256],
        };
        let mut limits = [None; 256];
        for good in 0..master.market.goods {
            limits[usize::from(good)] = Some(0);
        }
        Ok(Derived {
            market: master.market,
            limits,
            rows: master.market.goods,
            takes: vec![in alloc; nothing; usize::from(master.market.bidders)]?,
            units: vec![in alloc; [0; 256]; 8192]?,
            blank: [0; 256],
        })
    }

    /// The row of a derived good.
    pub(crate) fn row_of(&self, number: u8) -> u8 {
        self.market.goods.saturating_add(number)
    }

    /// The first row that isn't in use. None where all are.
    pub(crate) fn free_row(&self) -> Option<u8>
        ensures { IfSome result (λ row. row < 144) }
    {
        for row in 0..MOST_ROWS {
            if self.limits[usize::from(row)].is_none() {
                return Some(row);
            }
        }
        None
    }

    /// The limit of a row.
    pub(crate) fn limit(&self, row: u8) -> i64 {
        self.limits[usize::from(row)].unwrap_or(0)
    }

    /// Makes a row that of a derived good.
    pub(crate) fn put(&mut self, row: u8, taken: &[Taken], limit: i64) {
        self.limits[usize::from(row)] = Some(limit);
        self.rows = self.rows.max(row.saturating_add(1));
        for part in taken {
            if let Some(takes) = self.takes.get_mut(usize::from(part.bidder)) {
                if part.node < 200 {
                    takes.takers.insert(part.node as u8);
                    takes.amounts[usize::from(part.node)][usize::from(row)] = part.amount;
                }
            }
        }
    }

    /// Makes a row free.
    pub(crate) fn drop_row(&mut self, row: u8) {
        self.limits[usize::from(row)] = None;
        let last = (0..self.rows).rfind(|row| self.limits[usize::from(*row)].is_some());
        self.rows = last.map_or(0, |row| row.saturating_add(1));
        for takes in self.takes.iter_mut() {
            for node in 0..256 {
                takes.amounts[node][usize::from(row)] = 0;
            }
        }
    }

    /// Works out the units of a set that has this number.
    pub(crate) fn look_at(&mut self, number: u16, column: &Column) {
        let mut units = [0; 256];
        for good in 0..self.market.goods {
            units[usize::from(good)] = column.units[usize::from(good % 16)];
        }
        if let Some(takes) = self.takes.get(usize::from(column.bidder)) {
            let mut nodes = takes.takers.common(&column.nodes);
            for _node in 0..200 {
                let Some(node) = nodes.take_first() else {
                    break;
                };
                for row in 0..256 {
                    let amount = takes.amounts[usize::from(node)][row];
                    units[row] = units[row].wrapping_add(amount);
                }
            }
        }
        if let Some(kept) = self.units.get_mut(usize::from(number)) {
            *kept = units;
        }
    }

    /// The units of a set that was looked at.
    pub(crate) fn units_of(&self, number: u16) -> &Units {
        match self.units.get(usize::from(number)) {
            Some(units) => units,
            None => &self.blank,
        }
    }

    /// What units cost where the rows cost this.
    pub(crate) fn cost_of(&self, units: &Units, costs: &Line) -> i64 {
        let mut cost: i64 = 0;
        for row in 0..self.rows {
            let units = i64::from(units[usize::from(row)]);
            cost = cost.wrapping_add(costs[usize::from(row)].wrapping_mul(units));
        }
        cost
    }

    /// What the nodes of a tree are charged where the rows cost this.
    pub(crate) fn charges(&self, bidder: u8, costs: &Line) -> Worths {
        let mut charges = [0; 200];
        if let Some(takes) = self.takes.get(usize::from(bidder)) {
            let mut nodes = takes.takers;
            for _node in 0..200 {
                let Some(node) = nodes.take_first() else {
                    break;
                };
                let amounts = &takes.amounts[usize::from(node)];
                charges[usize::from(node % 200)] = self.cost_of(amounts, costs);
            }
        }
        charges
    }

    /// What the limits cost where the rows cost this.
    pub(crate) fn on_limits(&self, costs: &Line) -> i64 {
        let mut cost: i64 = 0;
        for row in 0..self.rows {
            let limit = self.limit(row);
            cost = cost.wrapping_add(costs[usize::from(row)].wrapping_mul(limit));
        }
        cost
    }
}
