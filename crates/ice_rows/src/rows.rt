//! The derived goods of a market as further rows of its linear program.
ghost use Rattle.std.specs.Prelude.{◌<◌, ◌≤◌, IfSome};

use crate::basis::Basis;
use crate::derived::{Derived, Line, MOST_ROWS, Taken};
use crate::solving::net_of;
use crate::tableau::Tableau;
use ice_master::{Basic, Master, Shares, add_share};
use std::alloc::{AllocError, Global};

/// The derived goods of a market, as further rows of the linear program of its master, and a basis,
/// from which a solve goes on. All calls are with the master of `new`. There are at most 144 goods
/// and derived goods together, and limits are meant to be 0 to 2^20.
///
/// Only `new` takes memory: 9,000,000 bytes, and 263,000 for each bidder.
#[derive(Drop)]
pub struct Rows {
    pub(crate) derived: Derived,
    pub(crate) tableau: Tableau,
    /// The columns that the last pricing found to gain ..
    pub(crate) gaining: [Basic; 256],
    /// .. and how many there are.
    pub(crate) gaining_count: u8,
    /// What the rows cost where the last solve saw its least bound.
    pub(crate) costs: Line,
}

impl Rows {
    /// No derived goods yet.
    pub fn new(alloc: Global, master: &Master) -> Result<Rows, AllocError> {
        Ok(Rows {
            derived: Derived::new(alloc, master)?,
            tableau: Tableau::new(alloc, &master.pool)?,
            gaining: [Basic::Slack(0); 256],
            gaining_count: 0,
            costs: [0; 256],
        })
    }

    /// The numbers of derived goods are below this.
    pub fn len(&self) -> u8
        ensures { result ≤ 144 }
    {
        let derived = self.derived.rows.saturating_sub(self.derived.market.goods);
        derived.min(MOST_ROWS)
    }

    /// Whether there is no room for another one.
    pub fn is_full(&self) -> bool {
        self.derived.free_row().is_none()
    }

    /// Adds a derived good. Its number, the least that is free. None, and nothing changes, where
    /// there is no room. What names no bidder or no node below 200 is passed over. The next solve
    /// goes on from the basis there is, also where its mix takes more than the limit.
    pub fn put(&mut self, taken: &[Taken], limit: i64) -> Option<u8>
        ensures { IfSome result (λ n. n < 144) }
    {
        let row = self.derived.free_row()?;
        self.derived.put(row, taken, limit);
        Some(row.saturating_sub(self.derived.market.goods))
    }

    /// Keeps the derived goods of these numbers and drops the others.
    pub fn keep(&mut self, kept: &[bool; 144]) {
        for number in 0..self.len() {
            if !kept[usize::from(number)] {
                self.derived.drop_row(self.derived.row_of(number));
            }
        }
    }

    /// What the mix is worth at which the last solve ended, in 4096ths.
    pub fn objective(&self, master: &Master) -> i64 {
        master.scale.nearest_4096ths(self.tableau.objective())
    }

    /// The multipliers of the goods that gave the least bound of the last solve, in 4096ths.
    pub fn multipliers(&self, master: &Master) -> [i64; 32] {
        let mut multipliers = [0; 32];
        for good in 0..self.derived.market.goods {
            let cost = self.costs[usize::from(good)];
            multipliers[usize::from(good % 32)] = master.scale.nearest_4096ths(cost);
        }
        multipliers
    }

    /// The tolls on the derived goods that gave it, in 4096ths.
    pub fn tolls(&self, master: &Master) -> [i64; 144] {
        let mut tolls = [0; 144];
        for number in 0..self.len() {
            let cost = self.costs[usize::from(self.derived.row_of(number))];
            tolls[usize::from(number)] = master.scale.nearest_4096ths(cost);
        }
        tolls
    }

    /// The bound of the side of the last look at multipliers and tolls, all in 4096ths.
    pub fn bound_at(
        &self,
        master: &mut Master,
        multipliers: &[i64; 32],
        tolls: &[i64; 144],
    ) -> i64 {
        let mut costs = [0; 256];
        for good in 0..self.derived.market.goods {
            let multiplier = multipliers[usize::from(good % 32)];
            costs[usize::from(good)] = master.scale.of_4096ths(multiplier);
        }
        for number in 0..self.len() {
            let toll = tolls[usize::from(number)];
            costs[usize::from(self.derived.row_of(number))] = master.scale.of_4096ths(toll);
        }
        let mut total = self.derived.on_limits(&costs);
        for bidder in 0..self.derived.market.bidders {
            let net = net_of(master, &self.derived, bidder, &costs);
            total = total.wrapping_add(net);
        }
        master.scale.covering_4096ths(total)
    }

    /// The share of each node of a tree in the mix of the last solve, in parts of 2^-40.
    pub fn shares_of(&self, master: &Master, bidder: u8) -> Shares {
        let mut shares = [0; 256];
        let key = master.pool.column(self.tableau.basis.key(bidder));
        add_share(&mut shares, &key.nodes, self.tableau.key_share(bidder));
        for place in 0..self.tableau.rows {
            if let Basic::Set {
                number,
                bidder: owner,
            } = self.tableau.basis.basic(place)
            {
                if owner == bidder {
                    let share = self.tableau.shares[usize::from(place)];
                    add_share(&mut shares, &master.pool.column(number).nodes, share);
                }
            }
        }
        shares
    }

    /// The basis at which the last solve ended.
    pub fn basis(&self) -> Basis {
        self.tableau.basis
    }

    /// Lets the next solve go on from a basis.
    pub fn start_from(&mut self, basis: &Basis) {
        self.tableau.basis = *basis;
    }
}
