//! An exchange of flat bids.
ghost use Rattle.std.specs.Prelude.{◌≡◌, length};
ghost use Rattle.ice_xor.specs.Lawful.{IsFlatExchange};

use crate::bidders::FlatBidder;
use ice_terms::Settings;
use ice_trade::ExchangeMaker;
use std::marker::Model;

/// An exchange of flat bids: its settings, 1 to 32 goods, and 1 to 40 bidders with their owned
/// amounts and packages. Only `read_flat` makes one.
pub struct FlatExchange {
    /// The settings and the goods, with no bidder.
    pub(crate) goods: ExchangeMaker,
    pub(crate) bidders: Vec<FlatBidder>,
}

// By hand, so that each exit that drops one has one call to prove, and not all its parts.
impl Drop for FlatExchange {
    fn drop(self) {
        let FlatExchange {
            goods: _,
            bidders: _,
        } = self;
    }
}

impl Model for FlatExchange {
    ghost use Rattle.ice_xor.specs.FlatBids as flat;
    ghost use Rattle.ice_xor.specs.Kept.{flat_kept, IsFlatKept};

    ghost Value = { flat.FlatExchange };

    ghost view = { λ f. flat_kept f.goods f.bidders.items };

    ghost invariant = { λ f. IsFlatKept f.goods f.bidders.items };
}

impl FlatExchange {
    /// Its settings.
    pub fn settings(&self) -> Settings
        ensures { result ≡ self.now.settings }
    {
        self.goods.settings()
    }

    /// How many goods it has, 1 to 32.
    pub fn goods(&self) -> u8
        ensures value { result ≡ length self.now.goods }
        ensures lawful { IsFlatExchange self.now }
    {
        self.goods.goods()
    }

    /// Its bidders, 1 to 40.
    pub fn bidders(&self) -> &[FlatBidder]
        ensures value { result.now ≡ self.now.bidders }
        ensures lawful { IsFlatExchange self.now }
    {
        &self.bidders
    }
}
