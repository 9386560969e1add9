//! What of a market stays the same: how many goods it has, and which of them are exact.

use crate::basis::Basic;
use crate::scale::LACK;

/// How many goods and bidders there are, and which goods may not be left over.
#[derive(Clone, Copy)]
pub struct Market {
    /// So many goods, at most 16.
    pub goods: u8,
    /// So many bidders.
    pub bidders: u8,
    exact: [bool; 16],
}

impl Market {
    /// That of these goods, each exact or not.
    pub(crate) fn of(exact: &[bool], bidders: u8) -> Market {
        let mut market = Market {
            goods: 0,
            bidders,
            exact: [false; 16],
        };
        for is_exact in exact {
            if market.goods < 16 {
                market.exact[usize::from(market.goods % 16)] = *is_exact;
                market.goods = market.goods.saturating_add(1);
            }
        }
        market
    }

    /// Whether no unit of a good may be left over.
    pub fn is_exact(&self, good: u8) -> bool {
        self.exact[usize::from(good % 16)]
    }

    /// What units that are left over or lacking are worth; a set none by itself.
    pub fn worth(&self, basic: Basic) -> i64 {
        match basic {
            Basic::Slack(good) if self.is_exact(good) => -LACK,
            Basic::Lack(_) => -LACK,
            _ => 0,
        }
    }
}
