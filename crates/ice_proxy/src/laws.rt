//! Laws of proxy bidders.
ghost use Rattle.ice_proxy.specs.Laws.{ProposalIsAround, FirstProposalIsOld, LateProposalIsTruth, ProxyAttemptThere, ProxyAttemptIsOne, TighterIsAccepted, LaterIsTighter, LaterIsAccepted, WidthsAreHalved, LargeImproveAsksNothing, ProxiesHold, ProxiesReachRegret};

/// A proposal holds the truth and reaches nowhere beyond the old bounds, and its bounds are lawful.
pub fn proposal_is_around()
    ensures { ProposalIsAround }
{}

/// The first proposal is the old bounds.
pub fn first_proposal_is_old()
    ensures { FirstProposalIsOld }
{}

/// From attempt 31 on it is the truth itself.
pub fn late_proposal_is_truth()
    ensures { LateProposalIsTruth }
{}

/// Some attempt is the least that is accepted.
pub fn proxy_attempt_is_there()
    ensures { ProxyAttemptThere }
{}

/// There is one such attempt.
pub fn proxy_attempt_is_one()
    ensures { ProxyAttemptIsOne }
{}

/// Bounds that lie inside accepted ones are accepted too.
pub fn tighter_is_accepted()
    ensures { TighterIsAccepted }
{}

/// A later attempt lies inside an earlier one.
pub fn later_is_tighter()
    ensures { LaterIsTighter }
{}

/// So from the least attempt that is accepted on, all are.
pub fn later_is_accepted()
    ensures { LaterIsAccepted }
{}

/// An attempt divides each width by two so many times, or by more.
pub fn widths_are_halved()
    ensures { WidthsAreHalved }
{}

/// Where more is required than a bidder may lack, the second rule asks nothing.
pub fn large_improve_asks_nothing()
    ensures { LargeImproveAsksNothing }
{}

/// In a right session of proxies the bounds hold the truths at each settlement, and each bid is
/// accepted.
pub fn proxies_hold()
    ensures { ProxiesHold }
{}

/// Where such a session closes, no feasible trade beats the final one at the true values by more
/// than the regret.
pub fn proxies_reach_regret()
    ensures { ProxiesReachRegret }
{}
