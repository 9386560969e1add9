//! A basis with what follows from it: the shares of its columns, and what a unit of each row costs.

use crate::basis::Basis;
use crate::derived::{Derived, Line};
use crate::inverse::Inverse;
use ice_master::{Basic, LEAST_PIVOT, NEARLY, ONE, Pool, clamped, product};
use std::alloc::{AllocError, Global};

/// A basis with what follows from it.
#[derive(Drop)]
pub(crate) struct Tableau {
    pub(crate) basis: Basis,
    pub(crate) inverse: Box<Inverse>,
    /// How often the inverse was updated.
    pub(crate) updates: u8,
    pub(crate) rows: u8,
    /// How much of each basic there is, in parts of 2^-40.
    pub(crate) shares: Line,
    /// The amount that a unit of each row costs.
    pub(crate) costs: Line,
    /// What the key columns leave of each row.
    supply: Line,
    /// What the key columns are worth together.
    key_value: i64,
}

impl Tableau {
    /// That of the first basis.
    pub(crate) fn new(alloc: Global, pool: &Pool) -> Result<Tableau, AllocError> {
        Ok(Tableau {
            basis: Basis::first(pool.age()),
            inverse: Box::new(alloc, Inverse::zero())?,
            updates: 0,
            rows: 0,
            shares: [0; 256],
            costs: [0; 256],
            supply: [0; 256],
            key_value: 0,
        })
    }

    /// Works out anew all that follows from the basis, which is the first one from now on where it
    /// names columns of another age or stands for no mix.
    pub(crate) fn renew(&mut self, pool: &Pool, derived: &mut Derived) {
        self.rows = derived.rows;
        if self.basis.age != pool.age() || !self.follow(pool, derived) {
            self.basis = Basis::first(pool.age());
            self.follow(pool, derived);
        }
    }

    /// Works out all that follows from the basis. Whether it stands for a mix.
    fn follow(&mut self, pool: &Pool, derived: &mut Derived) -> bool {
        self.invert(pool, derived);
        self.settle(pool, derived);
        self.exchange_lacks(derived);
        self.settle(pool, derived);
        self.is_mix(derived)
    }

    /// Makes the inverse anew, from that of the first basis. What is left over of a row stays at
    /// its place. Each other basic takes the place of which it makes up for most, and leaves the
    /// basis where it makes up for none.
    fn invert(&mut self, pool: &Pool, derived: &mut Derived) {
        for bidder in 0..derived.market.bidders {
            let key = self.basis.key(bidder);
            derived.look_at(key, pool.column(key));
        }
        let old = self.basis.basics;
        let mut is_taken = [false; 256];
        let first = Basis::first(self.basis.age);
        let basics = first.basics;
        self.basis.basics = basics;
        self.inverse.clear();
        self.updates = 0;
        for basic in old {
            if let Basic::Slack(row) = basic {
                is_taken[usize::from(row)] = true;
            }
        }
        for basic in old {
            match basic {
                Basic::Slack(_) => {}
                Basic::Lack(_) => self.bring(basic, &mut is_taken, derived),
                Basic::Set { number, .. } => {
                    derived.look_at(number, pool.column(number));
                    self.bring(basic, &mut is_taken, derived);
                }
            }
        }
    }

    /// Brings a basic to the place that isn't taken of which it makes up for most.
    fn bring(&mut self, basic: Basic, is_taken: &mut [bool; 256], derived: &Derived) {
        let amounts = self
            .inverse
            .times(&self.units_of(basic, derived), self.rows);
        let mut best = None;
        let mut most = LEAST_PIVOT;
        for place in 0..self.rows {
            let size = amounts[usize::from(place)].saturating_abs();
            if !is_taken[usize::from(place)] && size > most {
                best = Some(place);
                most = size;
            }
        }
        if let Some(place) = best {
            is_taken[usize::from(place)] = true;
            self.put_basic(place, basic, &amounts);
        }
    }

    /// Puts a basic at a place, of which so much of each other one makes up for one.
    pub(crate) fn put_basic(&mut self, place: u8, basic: Basic, amounts: &Line) {
        self.inverse.pivot(place, amounts, self.rows);
        self.basis.basics[usize::from(place)] = basic;
    }

    /// Where less than nothing of a row is left over that much is lacking, and the other way round.
    fn exchange_lacks(&mut self, derived: &Derived) {
        for place in 0..self.rows {
            if self.shares[usize::from(place)] < -NEARLY {
                match self.basis.basic(place) {
                    Basic::Slack(row) => self.exchange(place, Basic::Lack(row), derived),
                    Basic::Lack(row) => self.exchange(place, Basic::Slack(row), derived),
                    Basic::Set { .. } => {}
                }
            }
        }
    }

    /// Puts a basic at a place whatever leaves it.
    pub(crate) fn exchange(&mut self, place: u8, basic: Basic, derived: &Derived) {
        let amounts = self
            .inverse
            .times(&self.units_of(basic, derived), self.rows);
        self.put_basic(place, basic, &amounts);
    }

    /// Whether no share is less than nothing.
    fn is_mix(&self, derived: &Derived) -> bool {
        let lowest = (0..self.rows)
            .map(|place| self.shares[usize::from(place)])
            .min();
        let lowest_key = (0..derived.market.bidders)
            .map(|bidder| self.key_share(bidder))
            .min();
        lowest.unwrap_or(0) >= -NEARLY && lowest_key.unwrap_or(0) >= -NEARLY
    }

    /// Works out the shares and the costs, by the inverse.
    pub(crate) fn settle(&mut self, pool: &Pool, derived: &Derived) {
        let mut worths = [0; 256];
        for place in 0..self.rows {
            let basic = self.basis.basic(place);
            worths[usize::from(place)] = self.worth_of(basic, pool, derived);
            self.supply[usize::from(place)] = derived.limit(place);
        }
        self.key_value = 0;
        for bidder in 0..derived.market.bidders {
            let key = self.basis.key(bidder);
            let units = derived.units_of(key);
            self.key_value = self.key_value.wrapping_add(pool.value(key));
            for row in 0..self.rows {
                let supply = &mut self.supply[usize::from(row)];
                *supply = supply.wrapping_sub(i64::from(units[usize::from(row)]));
            }
        }
        self.shares = self.inverse.times(&self.supply, self.rows);
        self.costs = self.inverse.costs(&worths, self.rows);
    }

    /// The units of a basic; those of a set beside its bidder's key column.
    pub(crate) fn units_of(&self, basic: Basic, derived: &Derived) -> Line {
        let mut units = [0; 256];
        match basic {
            Basic::Slack(row) => units[usize::from(row)] = 1,
            Basic::Lack(row) => units[usize::from(row)] = -1,
            Basic::Set { number, bidder } => {
                let set = derived.units_of(number);
                let key = derived.units_of(self.basis.key(bidder));
                for row in 0..256 {
                    units[row] = i64::from(set[row]) - i64::from(key[row]);
                }
            }
        }
        units
    }

    /// What a basic is worth; a set beside its bidder's key column.
    fn worth_of(&self, basic: Basic, pool: &Pool, derived: &Derived) -> i64 {
        match basic {
            Basic::Set { number, bidder } => {
                let key = self.basis.key(bidder);
                pool.value(number).wrapping_sub(pool.value(key))
            }
            Basic::Slack(row) if row >= derived.market.goods => 0,
            other => derived.market.worth(other),
        }
    }

    /// What is gained by a unit of a basic that isn't in the basis.
    pub(crate) fn gain_of(&self, basic: Basic, pool: &Pool, derived: &Derived) -> i64 {
        let worth = self.worth_of(basic, pool, derived);
        match basic {
            Basic::Slack(row) => worth.wrapping_sub(self.costs[usize::from(row)]),
            Basic::Lack(row) => worth.wrapping_add(self.costs[usize::from(row)]),
            Basic::Set { number, bidder } => {
                let net = self.net_of(number, pool, derived);
                net.wrapping_sub(self.net_of(self.basis.key(bidder), pool, derived))
            }
        }
    }

    /// What a set nets.
    pub(crate) fn net_of(&self, number: u16, pool: &Pool, derived: &Derived) -> i64 {
        let cost = derived.cost_of(derived.units_of(number), &self.costs);
        pool.value(number).wrapping_sub(cost)
    }

    /// The share of a bidder's key column: what its other columns leave of it.
    pub(crate) fn key_share(&self, bidder: u8) -> i64 {
        let mut share = ONE;
        for place in 0..self.rows {
            if self.basis.owner(place) == Some(bidder) {
                share = share.wrapping_sub(self.shares[usize::from(place)]);
            }
        }
        share
    }

    /// What the mix is worth that the basis stands for.
    pub(crate) fn objective(&self) -> i64 {
        let mut cost: i128 = 0;
        for row in 0..self.rows {
            let row = usize::from(row);
            cost = cost.wrapping_add(product(self.costs[row], self.supply[row]));
        }
        clamped(i128::from(self.key_value).wrapping_add(cost))
    }
}
