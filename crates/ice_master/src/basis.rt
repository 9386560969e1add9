//! Bases of the linear program that mixes sets of the bidders.

/// What may be in a basis beside the key columns of the bidders.
#[derive(Clone, Copy)]
pub enum Basic {
    /// The units of a good that are left over.
    Slack(u8),
    /// The units of a good that are lacking.
    Lack(u8),
    /// A set of a bidder beside its key column.
    Set {
        /// The number of the set.
        number: u16,
        /// The bidder.
        bidder: u8,
    },
}

impl Basic {
    /// The bidder whose set it is. None where it is no set.
    pub fn bidder(self) -> Option<u8> {
        match self {
            Basic::Set { bidder, .. } => Some(bidder),
            _ => None,
        }
    }
}

/// A basis: for each bidder its key column, and as many basics as there are goods. It is kept for
/// the children of a side, which go on from it.
#[derive(Clone, Copy)]
pub struct Basis {
    pub(crate) keys: [u16; 64],
    pub(crate) basics: [Basic; 16],
    /// The age of the columns that it names.
    pub(crate) age: u32,
}

impl Basis {
    /// The basis in which each bidder has its empty set, and all units of a good are left over.
    pub(crate) fn first(age: u32) -> Basis {
        let mut basis = Basis {
            keys: [0; 64],
            basics: [Basic::Slack(0); 16],
            age,
        };
        for bidder in 0..64_u8 {
            basis.keys[usize::from(bidder)] = u16::from(bidder);
        }
        for good in 0..16_u8 {
            basis.basics[usize::from(good)] = Basic::Slack(good);
        }
        basis
    }

    /// The number of a bidder's key column.
    pub(crate) fn key(&self, bidder: u8) -> u16 {
        self.keys[usize::from(bidder % 64)]
    }

    /// The basic at a place.
    pub(crate) fn basic(&self, place: u8) -> Basic {
        self.basics[usize::from(place % 16)]
    }
}
