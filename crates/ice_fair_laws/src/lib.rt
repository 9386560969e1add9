//! Laws of fair prices: what the fairness test shows, whole numbers that decide it, and what the
//! fairness stage's least points say.
#![tactic(auto)]

ghost use Rattle.ice_fair_laws.specs.Laws.{TestGivesFair, TestGivesLeast};
ghost use Rattle.ice_fair_laws.specs.Run.{FairTracesSolve, FairIsFeasible, FairIsWithin, FairPoolIsProper, LeastIsFair, DualsPassFairness, LoweredTogether, FirstMayFollowFair, FairIsShaped};
ghost use Rattle.ice_fair_laws.specs.Whole.{GreatestGapIsDistance, TestIsWhole, AskedIsLow, HeldIsSized, CertifiedIsSmall};

/// Prices whose rows pass the accuracy test, and whose certificate passes the fairness test, are
/// fair: no accurate prices come nearer to the payments.
pub fn test_gives_fair()
    ensures { TestGivesFair }
{}

/// No accurate prices have a smaller distance than one whose certificate passes the fairness test.
pub fn test_gives_least()
    ensures { TestGivesLeast }
{}

/// A fraction is the distance exactly where it is the greatest gap, over the prices' denominator
/// and that of the payments.
pub fn greatest_gap_is_distance()
    ensures { GreatestGapIsDistance }
{}

/// The fairness test's equality is one of whole numbers.
pub fn test_is_whole()
    ensures { TestIsWhole }
{}

/// What a certificate asks for is never below 0.
pub fn asked_is_low()
    ensures { AskedIsLow }
{}

/// What the held numbers weigh of numbers within a limit is within that limit times all of them.
pub fn held_is_sized()
    ensures { HeldIsSized }
{}

/// The solution of the fairness stage at a pool is a least point of its program, with its duals.
pub fn fair_traces_solve()
    ensures { FairTracesSolve }
{}

/// With accurate prices and their violation, the fairness program has a feasible point over each
/// pool.
pub fn fair_is_feasible()
    ensures { FairIsFeasible }
{}

/// The prices of a point of the fairness program are within the cap.
pub fn fair_is_within()
    ensures { FairIsWithin }
{}

/// The pools of the fairness stage have satisfied sets alone, at most 200.
pub fn fair_pool_is_proper()
    ensures { FairPoolIsProper }
{}

/// Where no set is to be added, the prices of the least point are fair, and the point's last number
/// is their distance.
pub fn least_is_fair()
    ensures { LeastIsFair }
{}

/// The duals of such a least point give a certificate that passes the fairness test.
pub fn duals_pass_fairness()
    ensures { DualsPassFairness }
{}

/// Two lists of duals, each times a factor, lowered and brought to one least common denominator,
/// are weights.
pub fn lowered_together()
    ensures { LoweredTogether }
{}

/// A best set of the first bidder that violates a solution may follow the pool.
pub fn first_may_follow_fair()
    ensures { FirstMayFollowFair }
{}

/// Each row of the fairness program has as many coefficients as there are costs.
pub fn fair_is_shaped()
    ensures { FairIsShaped }
{}

/// Prices that a certificate shows to be accurate have a violation of at most what the worth of its
/// rows allows.
pub fn certified_is_small()
    ensures { CertifiedIsSmall }
{}
