//! A pivot: one column enters the basis, and another one leaves it.

use crate::basis::Basic;
use crate::leaving::{Leaving, Limit};
use crate::pool::Pool;
use crate::scale::ONE;
use crate::tableau::Tableau;

impl Tableau {
    /// Lets a basic enter the basis. False where nothing leaves for it.
    pub(crate) fn enter(&mut self, entering: Basic, pool: &Pool) -> bool {
        let amounts = self.inverse.times(&self.units_of(entering, pool));
        let limit = self.limit(entering, &amounts);
        match limit.leaving {
            None => return false,
            Some(Leaving::Basic(place)) => self.put_basic(place, entering, &amounts),
            Some(Leaving::Key(bidder)) => self.replace_key(bidder, entering, pool),
        }
        self.settle(pool);
        true
    }

    /// Puts a basic at a place.
    fn put_basic(&mut self, place: u8, entering: Basic, amounts: &[i64; 16]) {
        self.inverse.pivot(place, amounts);
        self.basis.basics[usize::from(place % 16)] = entering;
    }

    /// How far a basic may enter of which so much of each other one makes up for one.
    fn limit(&self, entering: Basic, amounts: &[i64; 16]) -> Limit {
        let mut limit = Limit::NONE;
        let own = entering.bidder();
        let mut seen: u64 = 0;
        for place in 0..self.market.goods {
            let number = usize::from(place % 16);
            limit.offer(self.shares[number], amounts[number], Leaving::Basic(place));
        }
        for place in 0..self.market.goods {
            if let Some(bidder) = self.basis.basic(place).bidder() {
                if (seen >> (bidder % 64)) & 1 == 0 {
                    seen |= 1 << (bidder % 64);
                    self.offer_key(&mut limit, bidder, own, amounts);
                }
            }
        }
        if let Some(bidder) = own {
            if (seen >> (bidder % 64)) & 1 == 0 {
                self.offer_key(&mut limit, bidder, own, amounts);
            }
        }
        limit
    }

    /// Takes into account when a bidder's key column comes to nothing.
    fn offer_key(&self, limit: &mut Limit, bidder: u8, own: Option<u8>, amounts: &[i64; 16]) {
        let places = self.places_of(bidder);
        let mut share = ONE;
        let mut rate = if own == Some(bidder) { ONE } else { 0 };
        for place in 0..self.market.goods {
            if (places >> (place % 16)) & 1 == 1 {
                let number = usize::from(place % 16);
                share = share.wrapping_sub(self.shares[number]);
                rate = rate.wrapping_sub(amounts[number]);
            }
        }
        limit.offer(share, rate, Leaving::Key(bidder));
    }

    /// Lets a basic enter for a bidder's key column, whose place another column of the bidder
    /// takes: that of the greatest share, or else the one that enters.
    fn replace_key(&mut self, bidder: u8, entering: Basic, pool: &Pool) {
        let places = self.places_of(bidder);
        match self.heir(places) {
            Some((place, heir)) => {
                self.inverse.turn(place, places);
                self.put_key(bidder, heir, pool);
                let amounts = self.inverse.times(&self.units_of(entering, pool));
                self.put_basic(place, entering, &amounts);
            }
            None => {
                if let Basic::Set { number, .. } = entering {
                    self.put_key(bidder, number, pool);
                }
            }
        }
    }

    /// The place and the number of the column of the greatest share, of those at these places.
    fn heir(&self, places: u16) -> Option<(u8, u16)> {
        let mut heir = None;
        let mut most = i64::MIN;
        for place in 0..self.market.goods {
            let share = self.shares[usize::from(place % 16)];
            if (places >> (place % 16)) & 1 == 1 && share > most {
                if let Basic::Set { number, .. } = self.basis.basic(place) {
                    heir = Some((place, number));
                    most = share;
                }
            }
        }
        heir
    }
}
