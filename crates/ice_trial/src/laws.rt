//! Laws of true values: bids that state them are accepted and become the bounds, and then no regret
//! is left.
ghost use Rattle.ice_trial.specs.Laws.{ExactBoundsHaveNoRegret, TruthsAreAccepted};

/// Where all values are exact, an assignment that none beats has no regret.
pub fn exact_bounds_have_no_regret()
    ensures { ExactBoundsHaveNoRegret }
{}

/// Where each bidder states its true values in a round, inside its bounds, all bids are accepted,
/// and the true values are the next bounds.
pub fn truths_are_accepted()
    ensures { TruthsAreAccepted }
{}
