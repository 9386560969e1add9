//! A law of verdicts.
ghost use Rattle.ice_rules.specs.Laws.{ExactBidIsAccepted};

/// A bid that states its true values exactly, inside its bounds, is never refused for them.
pub fn exact_bids_are_accepted()
    ensures { ExactBidIsAccepted }
{}
