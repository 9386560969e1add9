//! Cuts: rows of bidders that are added to a program.
ghost use Rattle.std.specs.Prelude.{◌≡◌, ◌<◌, length};
ghost use Rattle.ice_defs.specs.Trade.{tree_of};

use crate::asked::Asked;
use crate::gaps::Gap;
use crate::numbers::{product, sum};
use crate::work::GivenUp;
use ice_certificate::units_above;
use ice_pricing::Provisional;
use ice_tree::NodeSet;

/// What the row of a cut keeps small.
#[derive(Clone, Copy, PartialEq, Eq)]
pub(crate) enum Kind {
    /// What the bidder would gain by the set: to what the stage allows.
    Gain,
    /// What the bidder pays above its own set's cost: to the last column.
    Low,
    /// What its own set costs above what the bidder pays: to the last column.
    High,
}

/// A cut of a bidder by a set, with the worth and the units that its row has. By its gain they are
/// those of the set above the bidder's own one, in hundredths. By a gap the set is the bidder's
/// own, and they are what it pays, times what the stage asks, and the set's units; with their signs
/// turned where it pays less.
#[derive(Drop)]
pub(crate) struct Cut {
    pub(crate) bidder: u8,
    pub(crate) set: NodeSet,
    pub(crate) kind: Kind,
    worth: i128,
    units: [i128; 32],
}

impl Cut {
    /// The cut of a bidder's set.
    pub(crate) fn of(trade: &Provisional<'_>, bidder: u8, set: &NodeSet) -> Cut
        requires bidder { bidder < length trade.now.trees }
        requires nodes { length set.now ≡ length (tree_of trade.now.trees bidder) }
    {
        let tree = trade.tree(bidder);
        let own = tree.units(trade.own(bidder));
        let taken = tree.units(set);
        let mut units = [0; 32];
        for good in 0..32u8 {
            units[usize::from(good)] = units_above(&taken, &own, good);
        }
        Cut {
            bidder,
            set: *set,
            kind: Kind::Gain,
            worth: trade.worth_above(bidder, set),
            units,
        }
    }

    /// The cut of a gap. None where there is no such bidder.
    pub(crate) fn of_gap(trade: &Provisional<'_>, gap: &Gap) -> Option<Cut> {
        if gap.bidder >= trade.bidders() {
            return None;
        }
        let set = trade.own(gap.bidder);
        let own = trade.tree(gap.bidder).units(set);
        let kind = gap.kind();
        let mut units = [0; 32];
        for good in 0..32u8 {
            units[usize::from(good)] = kind.signed(i128::from(own.get(good)));
        }
        Some(Cut {
            bidder: gap.bidder,
            set: *set,
            kind,
            worth: kind.signed(gap.paid),
            units,
        })
    }

    /// The same cut once more.
    pub(crate) fn copy(&self) -> Cut {
        Cut {
            bidder: self.bidder,
            set: self.set,
            kind: self.kind,
            worth: self.worth,
            units: self.units,
        }
    }

    /// What the row has at a column.
    pub(crate) fn at(&self, column: u8, goods: u8, asked: &Asked) -> i128 {
        if column >= goods {
            return match self.kind {
                Kind::Gain => asked.last,
                Kind::Low | Kind::High => 1,
            };
        }
        self.units.get(usize::from(column)).copied().unwrap_or(0)
    }

    /// What the row is at least.
    pub(crate) fn least(&self, asked: &Asked) -> Result<i128, GivenUp> {
        match self.kind {
            Kind::Gain => sum(
                product(asked.times, self.worth)?,
                asked.allowed.wrapping_neg(),
            ),
            Kind::Low | Kind::High => Ok(self.worth),
        }
    }

    /// By what the multiplier of the row is divided to be a weight.
    pub(crate) fn parts(&self, asked: &Asked) -> i128 {
        match self.kind {
            Kind::Gain => asked.parts,
            Kind::Low | Kind::High => 1,
        }
    }
}

impl Kind {
    /// A number as a row of this kind has it: its sign is turned where the bidder pays less.
    fn signed(self, number: i128) -> i128 {
        match self {
            Kind::Gain | Kind::Low => number,
            Kind::High => number.wrapping_neg(),
        }
    }
}
