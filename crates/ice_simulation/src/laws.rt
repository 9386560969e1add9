//! Laws of sessions of proxies that run.
ghost use Rattle.ice_simulation.specs.Laws.{RoundStands, ProxyRoundGoesOn, ProxyRoundEnds, TruthsHold};

/// In a round of a session that runs, proxies may bid.
pub fn round_stands()
    ensures { RoundStands }
{}

/// A round in which the first of their bids are judged is one of proxies as far as it has come.
pub fn proxy_round_goes_on()
    ensures { ProxyRoundGoesOn }
{}

/// Behind a round in which all are judged the session is still one of proxies, its bounds hold the
/// truths, and each bid is accepted.
pub fn proxy_round_ends()
    ensures { ProxyRoundEnds }
{}

/// Where bids have no fault, the opening bounds hold the true values that they say.
pub fn truths_hold()
    ensures { TruthsHold }
{}
