//! Laws over the definitions of Threshold discounts.
ghost use Rattle.ice_threshold.specs.Laws.{CutIsThreshold, CutDownIsThreshold, PassingIsLeast, LeastPasses};

/// What the least payable cut leaves of the Vickrey discounts are Threshold discounts.
pub fn cut_is_threshold()
    ensures { CutIsThreshold }
{}

/// So are fractions that equal these.
pub fn cut_down_is_threshold()
    ensures { CutDownIsThreshold }
{}

/// A cut that passes its test is the least payable one.
pub fn passing_is_least()
    ensures { PassingIsLeast }
{}

/// The least payable cut passes its test.
pub fn least_passes()
    ensures { LeastPasses }
{}
