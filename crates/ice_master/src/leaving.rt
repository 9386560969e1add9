//! What leaves a basis as a column enters.

use crate::scale::{LEAST_PIVOT, product};

/// A share up to this is as good as none: one part in 2^30.
const NO_SHARE: i64 = 1 << 10;

/// What leaves the basis.
#[derive(Clone, Copy)]
pub enum Leaving {
    /// The basic at a place.
    Basic(u8),
    /// The key column of a bidder.
    Key(u8),
}

/// How far a column may enter, and what leaves for it: what comes to nothing first.
#[derive(Clone, Copy)]
pub struct Limit {
    /// The share of what leaves ..
    share: i64,
    /// .. and how fast it falls.
    rate: i64,
    /// None where nothing leaves.
    pub leaving: Option<Leaving>,
}

impl Limit {
    /// None yet.
    pub const NONE: Limit = Limit {
        share: 0,
        rate: 0,
        leaving: None,
    };

    /// Takes it where this share comes to nothing earlier, or as early and falls faster.
    pub fn offer(&mut self, share: i64, rate: i64, leaving: Leaving) {
        if rate < LEAST_PIVOT {
            return;
        }
        let share = if share <= NO_SHARE { 0 } else { share };
        let mine = product(self.share, rate);
        let other = product(share, self.rate);
        if self.leaving.is_none() || other < mine || other == mine && rate > self.rate {
            *self = Limit {
                share,
                rate,
                leaving: Some(leaving),
            };
        }
    }
}
