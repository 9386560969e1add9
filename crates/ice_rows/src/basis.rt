//! Bases of the linear program with derived goods.

use ice_master::Basic;

/// A basis: for each bidder its key column, and a basic for each row. It is kept for the children
/// of a side, which go on from it. Derived goods that come or go later don't spoil it.
#[derive(Clone, Copy)]
pub struct Basis {
    pub(crate) keys: [u16; 256],
    pub(crate) basics: [Basic; 256],
    /// The age of the columns that it names.
    pub(crate) age: u32,
}

impl Basis {
    /// The basis in which each bidder has its empty set, and of each row all is left over.
    pub(crate) fn first(age: u32) -> Basis {
        let mut basis = Basis {
            keys: [0; 256],
            basics: [Basic::Slack(0); 256],
            age,
        };
        for number in 0..=255_u8 {
            basis.keys[usize::from(number)] = u16::from(number);
            basis.basics[usize::from(number)] = Basic::Slack(number);
        }
        basis
    }

    /// The number of a bidder's key column.
    pub(crate) fn key(&self, bidder: u8) -> u16 {
        self.keys[usize::from(bidder)]
    }

    /// The basic at a place.
    pub(crate) fn basic(&self, place: u8) -> Basic {
        self.basics[usize::from(place)]
    }

    /// The bidder whose set is at a place. None where it is no set.
    pub(crate) fn owner(&self, place: u8) -> Option<u8> {
        self.basic(place).bidder()
    }
}
