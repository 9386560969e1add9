//! The mix of sets that a solve ended at.

use crate::basis::Basic;
use crate::master::Master;
use crate::nodes::Nodes;
use crate::scale::ONE;

/// A share up to this counts as none, and one that lacks no more than this as whole.
pub const NEARLY: i64 = ONE >> 20;

/// The shares of the nodes of one tree.
pub type Shares = [i64; 256];

/// Adds the share of a set to those of its nodes.
pub fn add_share(shares: &mut Shares, nodes: &Nodes, share: i64) {
    for node in 0..=255_u8 {
        if nodes.has(node) {
            let sum = &mut shares[usize::from(node)];
            *sum = sum.wrapping_add(share);
        }
    }
}

impl Master {
    /// Whether the mix of the last solve is one whole set of each bidder, with no unit lacking, and
    /// of an exact good none left over.
    pub fn is_whole(&self) -> bool {
        for place in 0..self.market.goods {
            let basic = self.tableau.basis.basic(place);
            let share = self.tableau.shares[usize::from(place % 16)];
            let is_none = share <= NEARLY;
            let is_right = match basic {
                Basic::Set { .. } => is_none || share >= ONE - NEARLY,
                other => is_none || self.market.worth(other) == 0,
            };
            if !is_right {
                return false;
            }
        }
        true
    }

    /// The set of a bidder of which the mix of the last solve has most.
    pub fn set_of(&self, bidder: u8) -> Nodes {
        let mut most = self.tableau.key_share(bidder);
        let mut chosen = self.tableau.basis.key(bidder);
        for place in 0..self.market.goods {
            let share = self.tableau.shares[usize::from(place % 16)];
            if let Basic::Set {
                number,
                bidder: owner,
            } = self.tableau.basis.basic(place)
            {
                if owner == bidder && share > most {
                    most = share;
                    chosen = number;
                }
            }
        }
        self.pool.column(chosen).nodes
    }

    /// The share of each node of a tree in the mix.
    pub(crate) fn shares_of(&self, bidder: u8) -> Shares {
        let mut shares = [0; 256];
        let key = self.pool.column(self.tableau.basis.key(bidder));
        let share = self.tableau.key_share(bidder);
        add_share(&mut shares, &key.nodes, share);
        for place in 0..self.market.goods {
            if let Basic::Set {
                number,
                bidder: owner,
            } = self.tableau.basis.basic(place)
            {
                if owner == bidder {
                    let column = self.pool.column(number);
                    let share = self.tableau.shares[usize::from(place % 16)];
                    add_share(&mut shares, &column.nodes, share);
                }
            }
        }
        shares
    }
}
