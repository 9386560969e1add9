//! A basis with what follows from it: the shares of its columns and the multipliers of the goods.

use crate::basis::{Basic, Basis};
use crate::inverse::Inverse;
use crate::market::Market;
use crate::pool::Pool;
use crate::scale::{LEAST_PIVOT, ONE, clamped, product};

/// A basis with what follows from it.
#[derive(Drop)]
pub(crate) struct Tableau {
    pub(crate) market: Market,
    pub(crate) basis: Basis,
    pub(crate) inverse: Inverse,
    /// How much of each basic there is, in parts of 2^-40.
    pub(crate) shares: [i64; 16],
    /// The amount that a unit of each good costs.
    pub(crate) multipliers: [i64; 16],
    /// The units of the key columns together.
    key_units: [i64; 16],
    /// What the key columns are worth together.
    key_value: i64,
}

impl Tableau {
    /// That of the first basis.
    pub(crate) fn new(market: Market, pool: &Pool) -> Tableau {
        Tableau {
            market,
            basis: Basis::first(pool.age()),
            inverse: Inverse::unit(market.goods),
            shares: [0; 16],
            multipliers: [0; 16],
            key_units: [0; 16],
            key_value: 0,
        }
    }

    /// Works out anew all that follows from the basis, which is the first one from now on where it
    /// names columns of another age or can't be inverted.
    pub(crate) fn renew(&mut self, pool: &Pool) {
        if self.basis.age != pool.age() || !self.invert(pool) {
            self.basis = Basis::first(pool.age());
            self.inverse = Inverse::unit(self.market.goods);
        }
        self.add_keys(pool);
        self.settle(pool);
    }

    /// Makes the inverse anew. The basics change places. False where there is none.
    fn invert(&mut self, pool: &Pool) -> bool {
        self.inverse = Inverse::unit(self.market.goods);
        let basics = self.basis.basics;
        let mut taken: u16 = 0;
        for number in 0..self.market.goods {
            let basic = basics[usize::from(number % 16)];
            let amounts = self.inverse.times(&self.units_of(basic, pool));
            let place = self.best_place(&amounts, taken);
            if amounts[usize::from(place % 16)].saturating_abs() < LEAST_PIVOT {
                return false;
            }
            self.inverse.pivot(place, &amounts);
            self.basis.basics[usize::from(place % 16)] = basic;
            taken |= 1 << (place % 16);
        }
        true
    }

    /// The place that isn't taken of the greatest amount in size.
    fn best_place(&self, amounts: &[i64; 16], taken: u16) -> u8 {
        let mut best = 0;
        let mut most = -1;
        for place in 0..self.market.goods {
            let size = amounts[usize::from(place % 16)].saturating_abs();
            if (taken >> (place % 16)) & 1 == 0 && size > most {
                best = place;
                most = size;
            }
        }
        best
    }

    /// Adds up the key columns.
    fn add_keys(&mut self, pool: &Pool) {
        self.key_units = [0; 16];
        self.key_value = 0;
        for bidder in 0..self.market.bidders {
            let key = self.basis.key(bidder);
            self.add_key(key, 1, pool);
        }
    }

    /// Adds a key column to the sums, or takes it away.
    fn add_key(&mut self, number: u16, times: i64, pool: &Pool) {
        let column = pool.column(number);
        for good in 0..self.market.goods {
            let sum = &mut self.key_units[usize::from(good % 16)];
            *sum = sum.wrapping_add(column.units_of(good).wrapping_mul(times));
        }
        let value = pool.value(number).wrapping_mul(times);
        self.key_value = self.key_value.wrapping_add(value);
    }

    /// Gives a bidder another key column.
    pub(crate) fn put_key(&mut self, bidder: u8, number: u16, pool: &Pool) {
        let key = self.basis.key(bidder);
        self.add_key(key, -1, pool);
        self.basis.keys[usize::from(bidder % 64)] = number;
        self.add_key(number, 1, pool);
    }

    /// Works out the shares and the multipliers, by the inverse.
    pub(crate) fn settle(&mut self, pool: &Pool) {
        let mut supply = [0; 16];
        let mut worths = [0; 16];
        for place in 0..self.market.goods {
            let number = usize::from(place % 16);
            supply[number] = self.key_units[number].wrapping_neg();
            worths[number] = self.worth_of(self.basis.basic(place), pool);
        }
        self.shares = self.inverse.times(&supply);
        self.multipliers = self.inverse.costs(&worths);
    }

    /// The units of a basic; those of a set beside its bidder's key column.
    pub(crate) fn units_of(&self, basic: Basic, pool: &Pool) -> [i64; 16] {
        let mut units = [0; 16];
        match basic {
            Basic::Slack(good) => units[usize::from(good % 16)] = 1,
            Basic::Lack(good) => units[usize::from(good % 16)] = -1,
            Basic::Set { number, bidder } => {
                let column = pool.column(number);
                let key = pool.column(self.basis.key(bidder));
                for good in 0..self.market.goods {
                    let more = column.units_of(good).wrapping_sub(key.units_of(good));
                    units[usize::from(good % 16)] = more;
                }
            }
        }
        units
    }

    /// What a basic is worth; a set beside its bidder's key column.
    fn worth_of(&self, basic: Basic, pool: &Pool) -> i64 {
        match basic {
            Basic::Set { number, bidder } => {
                let key = self.basis.key(bidder);
                pool.value(number).wrapping_sub(pool.value(key))
            }
            other => self.market.worth(other),
        }
    }

    /// What a column nets at the multipliers.
    pub(crate) fn net_of(&self, number: u16, pool: &Pool) -> i64 {
        let column = pool.column(number);
        let mut net = pool.value(number);
        for good in 0..self.market.goods {
            let multiplier = self.multipliers[usize::from(good % 16)];
            net = net.wrapping_sub(multiplier.wrapping_mul(column.units_of(good)));
        }
        net
    }

    /// What is gained by a unit of a basic that isn't in the basis.
    pub(crate) fn gain_of(&self, basic: Basic, pool: &Pool) -> i64 {
        match basic {
            Basic::Slack(good) => self
                .market
                .worth(basic)
                .wrapping_sub(self.multipliers[usize::from(good % 16)]),
            Basic::Lack(good) => self
                .market
                .worth(basic)
                .wrapping_add(self.multipliers[usize::from(good % 16)]),
            Basic::Set { number, bidder } => {
                let key = self.basis.key(bidder);
                self.net_of(number, pool)
                    .wrapping_sub(self.net_of(key, pool))
            }
        }
    }

    /// The places of a bidder's columns, a bit for each.
    pub(crate) fn places_of(&self, bidder: u8) -> u16 {
        let mut places = 0;
        for place in 0..self.market.goods {
            if self.basis.basic(place).bidder() == Some(bidder) {
                places |= 1 << (place % 16);
            }
        }
        places
    }

    /// The share of a bidder's key column: what its other columns leave of it.
    pub(crate) fn key_share(&self, bidder: u8) -> i64 {
        let places = self.places_of(bidder);
        let mut share = ONE;
        for place in 0..self.market.goods {
            if (places >> (place % 16)) & 1 == 1 {
                share = share.wrapping_sub(self.shares[usize::from(place % 16)]);
            }
        }
        share
    }

    /// What the mix is worth that the basis stands for.
    pub(crate) fn objective(&self) -> i64 {
        let mut cost: i128 = 0;
        for good in 0..self.market.goods {
            let number = usize::from(good % 16);
            cost = cost.wrapping_add(product(self.multipliers[number], self.key_units[number]));
        }
        clamped(i128::from(self.key_value).wrapping_sub(cost))
    }
}
