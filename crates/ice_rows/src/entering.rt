//! A pivot: one column enters the basis, and another one leaves it.

use crate::derived::{Derived, Line};
use crate::tableau::Tableau;
use ice_master::{Basic, Leaving, Limit, ONE, Pool};

/// The inverse is made anew after so many updates.
const MOST_UPDATES: u8 = 40;

impl Tableau {
    /// Lets a basic enter the basis. False where nothing leaves for it.
    pub(crate) fn enter(&mut self, entering: Basic, pool: &Pool, derived: &mut Derived) -> bool {
        let amounts = self
            .inverse
            .times(&self.units_of(entering, derived), self.rows);
        match self.limit(entering, &amounts).leaving {
            None => return false,
            Some(Leaving::Basic(place)) => self.put_basic(place, entering, &amounts),
            Some(Leaving::Key(bidder)) => self.replace_key(bidder, entering, derived),
        }
        self.updates = self.updates.saturating_add(1);
        if self.updates > MOST_UPDATES {
            self.renew(pool, derived);
        } else {
            self.settle(pool, derived);
        }
        true
    }

    /// How far a basic may enter of which so much of each other one makes up for one.
    fn limit(&self, entering: Basic, amounts: &Line) -> Limit {
        let mut limit = Limit::NONE;
        let mut shares = [ONE; 256];
        let mut rates: Line = [0; 256];
        if let Some(bidder) = entering.bidder() {
            rates[usize::from(bidder)] = ONE;
        }
        for place in 0..self.rows {
            let share = self.shares[usize::from(place)];
            let rate = amounts[usize::from(place)];
            limit.offer(share, rate, Leaving::Basic(place));
            if let Some(bidder) = self.basis.owner(place) {
                let bidder = usize::from(bidder);
                shares[bidder] = shares[bidder].wrapping_sub(share);
                rates[bidder] = rates[bidder].wrapping_sub(rate);
            }
        }
        for bidder in 0..=255_u8 {
            let number = usize::from(bidder);
            limit.offer(shares[number], rates[number], Leaving::Key(bidder));
        }
        limit
    }

    /// Lets a basic enter for a bidder's key column, whose place another column of the bidder
    /// takes: that of the greatest share, or else the one that enters.
    fn replace_key(&mut self, bidder: u8, entering: Basic, derived: &Derived) {
        let mut heir = None;
        let mut most = i64::MIN;
        let mut is_own = [false; 256];
        for place in 0..self.rows {
            if let Basic::Set {
                number,
                bidder: owner,
            } = self.basis.basic(place)
            {
                let share = self.shares[usize::from(place)];
                is_own[usize::from(place)] = owner == bidder;
                if owner == bidder && share > most {
                    heir = Some((place, number));
                    most = share;
                }
            }
        }
        if let Some((place, heir)) = heir {
            self.inverse.turn(place, &is_own, self.rows);
            self.basis.keys[usize::from(bidder)] = heir;
            self.exchange(place, entering, derived);
        } else if let Basic::Set { number, .. } = entering {
            self.basis.keys[usize::from(bidder)] = number;
        }
    }
}
