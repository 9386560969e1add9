//! The dual of a side, by column generation.

use crate::basis::Basic;
use crate::master::Master;
use crate::pricing::Seen;
use crate::scale::{LACK, NO_GAIN};

/// A solve prices the trees at most so often ..
const MOST_PRICINGS: u8 = 200;

/// .. and pivots at most so often for one pricing.
const MOST_PIVOTS: u8 = 200;

/// A side with a bound below this is taken for one that nothing meets.
const HOPELESS: i64 = -LACK;

/// When a solve may end before the dual is found. Both are in 64ths.
#[derive(Clone, Copy)]
pub struct Aim {
    /// It may end where a bound is below this ..
    pub close: i64,
    /// .. and where it is known that no bound is below this.
    pub keep: i64,
}

/// What a solve found.
#[derive(Clone, Copy)]
pub struct Dual {
    /// The least bound that was seen, in 64ths, and the greatest number where none was.
    pub bound: i64,
    /// The multipliers of the goods that give it, rounded to 64ths.
    pub multipliers: [i64; 32],
}

impl Aim {
    /// To find the dual.
    pub const DUAL: Aim = Aim {
        close: i64::MIN,
        keep: i64::MAX,
    };
}

impl Master {
    /// The dual of the side of the last look, from the basis of the last solve or the one that was
    /// put in its place. Ends at the latest after 200 pricings with 200 pivots for each.
    pub fn solve(&mut self, aim: Aim) -> Dual {
        self.pool.make_room();
        self.tableau.renew(&self.pool);
        self.gaining_count = 0;
        let close = self.scale.of_64ths(aim.close);
        let keep = self.scale.of_64ths(aim.keep);
        let mut least = Seen {
            total: i64::MAX,
            multipliers: [0; 16],
        };
        for _pricing in 0..MOST_PRICINGS {
            self.pivot(keep);
            let worth = self.tableau.objective();
            if worth >= keep {
                break;
            }
            let seen = self.price();
            if seen.total < least.total {
                least = seen;
            }
            let is_near = seen.total.wrapping_sub(worth) <= NO_GAIN;
            let is_closed = least.total < close || least.total < HOPELESS;
            if is_closed || is_near || self.gaining_count == 0 {
                break;
            }
        }
        self.dual(&least)
    }

    /// What was found, in 64ths.
    fn dual(&self, seen: &Seen) -> Dual {
        let mut multipliers = [0; 32];
        for good in 0..self.market.goods {
            let amount = seen.multipliers[usize::from(good % 16)];
            multipliers[usize::from(good % 16)] = self.scale.nearest_64ths(amount);
        }
        let bound = if seen.total == i64::MAX {
            i64::MAX
        } else {
            self.scale.covering_64ths(seen.total)
        };
        Dual { bound, multipliers }
    }

    /// Lets columns enter as long as one gains that is known to, the one that gains most first.
    fn pivot(&mut self, keep: i64) {
        for _pivot in 0..MOST_PIVOTS {
            let Some(entering) = self.most_gaining() else {
                return;
            };
            if !self.tableau.enter(entering, &self.pool) || self.tableau.objective() >= keep {
                return;
            }
        }
    }

    /// What gains most of the units that may be left over or lacking and the columns that the last
    /// pricing found. None where nothing gains.
    fn most_gaining(&self) -> Option<Basic> {
        let mut best = None;
        let mut most = NO_GAIN;
        for good in 0..self.market.goods {
            for basic in [Basic::Slack(good), Basic::Lack(good)] {
                let gain = self.tableau.gain_of(basic, &self.pool);
                if gain > most {
                    best = Some(basic);
                    most = gain;
                }
            }
        }
        for number in 0..self.gaining_count {
            let basic = self.gaining[usize::from(number % 64)];
            let gain = self.tableau.gain_of(basic, &self.pool);
            if gain > most {
                best = Some(basic);
                most = gain;
            }
        }
        best
    }
}
