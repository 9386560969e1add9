//! Laws of what is known of a round.
ghost use Rattle.ice_verdicts.specs.Laws.{RoundBegins, RoundGoesOn, VerdictIsNext};

/// A round of which no bidder's bounds are changed and none is marked is one without submissions.
pub fn round_begins()
    ensures { RoundBegins }
{}

/// The verdict by what is known of a round is the next one after all submissions that lead there.
pub fn verdict_is_next()
    ensures { VerdictIsNext }
{}

/// And what an accepted submission changes leads to the round after it.
pub fn round_goes_on()
    ensures { RoundGoesOn }
{}
