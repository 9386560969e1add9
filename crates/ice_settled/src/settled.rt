//! What a settlement gives.
ghost use Rattle.std.specs.Prelude.{◌≡◌};
ghost use Rattle.ice_settled.specs.Shown.{closing_with};

use ice_price::Pricing;
use ice_regret::Regret;
use ice_search::Found;
use ice_threshold::Payments;
use ice_trade::Exchange;
use ice_tree::Bounds;
use ice_vickrey::Marginal;

/// The last settlement of a session.
pub struct Closing {
    /// The exchange.
    pub exchange: Exchange,
    /// The bidders' bounds, one of each bidder.
    pub bounds: Vec<Bounds>,
    /// The settlement's number, from 0.
    pub number: u8,
    /// The final sets: the best assignment at lower values.
    pub best: Found,
    /// Their regret, which closes the session, unless no round is left.
    pub regret: Regret,
    /// What the market is worth without each bidder in order, and its Vickrey discount.
    pub marginals: Vec<Marginal>,
    /// What the bidders pay.
    pub payments: Payments,
}

// By hand, so that each exit that drops one has one call to prove, and not all its parts.
impl Drop for Closing {
    fn drop(self) {
        let Closing {
            exchange: _,
            bounds: _,
            number: _,
            best: _,
            regret: _,
            marginals: _,
            payments: _,
        } = self;
    }
}

/// What is left of the last settlement of a session behind the groups without each bidder: all but
/// these.
pub struct Charged {
    /// The exchange.
    pub exchange: Exchange,
    /// The bidders' bounds, one of each bidder.
    pub bounds: Vec<Bounds>,
    /// The settlement's number, from 0.
    pub number: u8,
    /// The final sets: the best assignment at lower values.
    pub best: Found,
    /// Their regret, which closes the session, unless no round is left.
    pub regret: Regret,
    /// The Vickrey discount of each bidder in order.
    pub vickreys: Vec<i128>,
    /// What the bidders pay.
    pub payments: Payments,
}

// By hand, so that each exit that drops one has one call to prove, and not all its parts.
impl Drop for Charged {
    fn drop(self) {
        let Charged {
            exchange: _,
            bounds: _,
            number: _,
            best: _,
            regret: _,
            vickreys: _,
            payments: _,
        } = self;
    }
}

impl Charged {
    /// The whole of it, with what the market is worth without each bidder.
    pub fn with(self, marginals: Vec<Marginal>) -> Closing
        ensures { result ≡ closing_with self marginals }
    {
        let Charged {
            exchange,
            bounds,
            number,
            best,
            regret,
            vickreys: _,
            payments,
        } = self;
        Closing {
            exchange,
            bounds,
            number,
            best,
            regret,
            marginals,
            payments,
        }
    }
}

/// A settlement that opens a round.
pub struct Opening {
    /// The settlement's number, from 0.
    pub number: u8,
    /// The final sets: the best assignment at lower values.
    pub best: Found,
    /// Their regret.
    pub regret: Regret,
    /// The provisional sets: the best assignment at weighted values.
    pub provisional: Found,
    /// Their prices, with what shows that they are accurate and balanced.
    pub pricing: Pricing,
}

// By hand, so that each exit that drops one has one call to prove, and not all its parts.
impl Drop for Opening {
    fn drop(self) {
        let Opening {
            number: _,
            best: _,
            regret: _,
            provisional: _,
            pricing: _,
        } = self;
    }
}

/// What a settlement had before it was halted.
pub struct Halt {
    /// The exchange.
    pub exchange: Exchange,
    /// The bidders' bounds, one of each bidder.
    pub bounds: Vec<Bounds>,
    /// The settlement's number, from 0.
    pub number: u8,
    /// The final sets, where they were found.
    pub best: Option<Found>,
    /// Their regret, where it was found.
    pub regret: Option<Regret>,
    /// The provisional sets, where they were found.
    pub provisional: Option<Found>,
    /// What the market is worth without the first bidders, as far as it was found.
    pub marginals: Vec<Marginal>,
}

// By hand, so that each exit that drops one has one call to prove, and not all its parts.
impl Drop for Halt {
    fn drop(self) {
        let Halt {
            exchange: _,
            bounds: _,
            number: _,
            best: _,
            regret: _,
            provisional: _,
            marginals: _,
        } = self;
    }
}
