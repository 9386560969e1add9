//! What a right session is and what it promises, the headline, and laws of both. It has no code.
#![tactic(auto)]

ghost use Rattle.ice_headline_laws.specs.Headline.{RightGivesHeadline};
ghost use Rattle.ice_headline_laws.specs.Promises.{FinalBoundsAreBounds, RivalShowsRegret};

/// Every right session has the headline.
pub fn right_gives_headline()
    ensures { RightGivesHeadline }
{}

/// Rounds leave bounds that are bounds of the bidders' trees.
pub fn final_bounds_are_bounds()
    ensures { FinalBoundsAreBounds }
{}

/// The rival of the last settlement shows that its regret is exact.
pub fn rival_shows_regret()
    ensures { RivalShowsRegret }
{}
