//! The dual of a side with derived goods, by column generation.

use crate::derived::{Derived, Line};
use crate::rows::Rows;
use ice_master::{Aim, Basic, LACK, Master, NO_GAIN};

/// A solve prices the trees at most so often ..
const MOST_PRICINGS: u8 = 200;

/// .. and pivots at most so often for one pricing.
const MOST_PIVOTS: u8 = 200;

/// A side with a bound below this is taken for one that nothing meets.
const HOPELESS: i64 = -LACK;

/// The greatest net of a tree where the rows cost this.
pub(crate) fn net_of(master: &mut Master, derived: &Derived, bidder: u8, costs: &Line) -> i64 {
    let mut multipliers = [0; 16];
    for good in 0..16 {
        multipliers[good] = costs[good];
    }
    master.charged_net(bidder, &multipliers, &derived.charges(bidder, costs))
}

impl Rows {
    /// The dual of the side of the master's last look, from the basis of the last solve or the one
    /// that was put in its place: the least bound that was seen, in 4096ths, and `i64::MAX` where
    /// none was. Ends at the latest after 200 pricings with 200 pivots for each. Of the master only
    /// the sets that were found change.
    pub fn solve(&mut self, master: &mut Master, aim: Aim) -> i64 {
        master.pool.make_room();
        self.tableau.renew(&master.pool, &mut self.derived);
        self.gaining_count = 0;
        let close = master.scale.of_64ths(aim.close);
        let keep = master.scale.of_64ths(aim.keep);
        let mut least = i64::MAX;
        self.costs = [0; 256];
        for _pricing in 0..MOST_PRICINGS {
            self.pivot(master, keep);
            let worth = self.tableau.objective();
            if worth >= keep {
                break;
            }
            let costs = self.lawful_costs();
            let total = self.price(master, &costs);
            if total < least {
                least = total;
                self.costs = costs;
            }
            let is_near = total.wrapping_sub(worth) <= NO_GAIN;
            if least < close.max(HOPELESS) || is_near || self.gaining_count == 0 {
                break;
            }
        }
        if least == i64::MAX {
            i64::MAX
        } else {
            master.scale.covering_4096ths(least)
        }
    }

    /// Lets columns enter as long as one gains that is known to, the one that gains most first.
    fn pivot(&mut self, master: &Master, keep: i64) {
        for _pivot in 0..MOST_PIVOTS {
            let Some(entering) = self.most_gaining(master) else {
                return;
            };
            let enters = self
                .tableau
                .enter(entering, &master.pool, &mut self.derived);
            if !enters || self.tableau.objective() >= keep {
                return;
            }
        }
    }

    /// What gains most of the rows' units that may be left over or lacking and the columns that the
    /// last pricing found. None where nothing gains.
    fn most_gaining(&self, master: &Master) -> Option<Basic> {
        let mut best = None;
        let mut most = NO_GAIN;
        for row in 0..self.tableau.rows {
            self.compare(Basic::Slack(row), master, &mut best, &mut most);
            self.compare(Basic::Lack(row), master, &mut best, &mut most);
        }
        for number in 0..self.gaining_count {
            let basic = self.gaining[usize::from(number)];
            self.compare(basic, master, &mut best, &mut most);
        }
        best
    }

    /// Takes a basic for the best one where it gains more.
    fn compare(&self, basic: Basic, master: &Master, best: &mut Option<Basic>, most: &mut i64) {
        let gain = self.tableau.gain_of(basic, &master.pool, &self.derived);
        if gain > *most {
            *best = Some(basic);
            *most = gain;
        }
    }

    /// What the rows cost, where those that may be left over cost no less than nothing.
    fn lawful_costs(&self) -> Line {
        let market = &self.derived.market;
        let mut costs = self.tableau.costs;
        for row in 0..self.tableau.rows {
            if row >= market.goods || !market.is_exact(row) {
                let cost = &mut costs[usize::from(row)];
                *cost = (*cost).max(0);
            }
        }
        costs
    }

    /// The bound where the rows cost this. The best sets that gain are noted.
    fn price(&mut self, master: &mut Master, costs: &Line) -> i64 {
        let mut total = self.derived.on_limits(costs);
        self.gaining_count = 0;
        for bidder in 0..self.derived.market.bidders {
            let net = net_of(master, &self.derived, bidder, costs);
            total = total.wrapping_add(net);
            let key = self.tableau.basis.key(bidder);
            let key_net = self.tableau.net_of(key, &master.pool, &self.derived);
            if net.wrapping_sub(key_net) > NO_GAIN {
                self.note(master, bidder);
            }
        }
        total
    }

    /// Notes the best set of the tree that was priced.
    fn note(&mut self, master: &mut Master, bidder: u8) {
        if let Some(number) = master.add_charged(bidder) {
            self.derived.look_at(number, master.pool.column(number));
            self.gaining[usize::from(self.gaining_count)] = Basic::Set { number, bidder };
            self.gaining_count = self.gaining_count.saturating_add(1);
        }
    }
}
