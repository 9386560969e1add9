//! What the trees net together at multipliers, and their best sets.

use crate::basis::Basic;
use crate::master::Master;
use crate::scale::NO_GAIN;

/// A bound, and the multipliers that give it.
#[derive(Clone, Copy)]
pub(crate) struct Seen {
    pub(crate) total: i64,
    pub(crate) multipliers: [i64; 16],
}

impl Master {
    /// The bound of the side of the last look at multipliers, both in 64ths.
    pub fn bound_at(&mut self, multipliers: &[i64; 32]) -> i64 {
        let mut amounts = [0; 16];
        for good in 0..self.market.goods {
            let number = usize::from(good % 16);
            amounts[number] = self.scale.of_64ths(multipliers[number]);
        }
        let mut total: i64 = 0;
        for form in self.forms.iter() {
            total = total.wrapping_add(self.outcome.evaluate(form, &amounts));
        }
        self.scale.covering_64ths(total)
    }

    /// The multipliers, where those of goods that may be left over aren't below 0.
    fn lawful_multipliers(&self) -> [i64; 16] {
        let mut multipliers = self.tableau.multipliers;
        for good in 0..self.market.goods {
            let multiplier = &mut multipliers[usize::from(good % 16)];
            if !self.market.is_exact(good) {
                *multiplier = (*multiplier).max(0);
            }
        }
        multipliers
    }

    /// The multipliers at which the last solve ended, each the greatest number of 64ths that isn't
    /// above it.
    pub fn floors(&self) -> [i64; 32] {
        let multipliers = self.lawful_multipliers();
        let mut floors = [0; 32];
        for good in 0..self.market.goods {
            let number = usize::from(good % 16);
            floors[number] = self.scale.floor_64ths(multipliers[number]);
        }
        floors
    }

    /// The bound at the multipliers. The best sets that gain are noted.
    pub(crate) fn price(&mut self) -> Seen {
        let multipliers = self.lawful_multipliers();
        let mut total: i64 = 0;
        self.gaining_count = 0;
        for bidder in 0..self.market.bidders {
            total = total.wrapping_add(self.price_tree(bidder, &multipliers));
        }
        Seen { total, multipliers }
    }

    /// The greatest net of a tree. Its best set is noted where that gains.
    fn price_tree(&mut self, bidder: u8, multipliers: &[i64; 16]) -> i64 {
        let Some(form) = self.forms.get(usize::from(bidder)) else {
            return 0;
        };
        let net = self.outcome.evaluate(form, multipliers);
        let key = self.tableau.basis.key(bidder);
        let gain = net.wrapping_sub(self.tableau.net_of(key, &self.pool));
        if gain > NO_GAIN {
            let column = self.outcome.best_set(form, bidder);
            if let Some(number) = self.pool.add(column) {
                self.gaining[usize::from(self.gaining_count % 64)] = Basic::Set { number, bidder };
                self.gaining_count = self.gaining_count.saturating_add(1);
            }
        }
        net
    }
}
