//! Laws of the exact pricing run: what its least points say of prices, of rows and of the pool.
#![tactic(auto)]

ghost use Rattle.ice_pricing_laws.specs.Ends.{LeastHasViolation, AccuracyStageEnds, AccurateStageGives, BalanceComesAfter, BalanceStageEnds, RunIsFeasible, RunIsWithin};
ghost use Rattle.ice_pricing_laws.specs.Feasible.{AccuracyIsFeasible, BalanceIsFeasible, AccuracyIsWithin, BalanceIsWithin};
ghost use Rattle.ice_pricing_laws.specs.Laws.{LeastIsAccurate, LeastIsBalanced};
ghost use Rattle.ice_pricing_laws.specs.Lowest.{PricesAreLowest};
ghost use Rattle.ice_pricing_laws.specs.Pools.{ViolatorIsNew, PoolStaysDistinct, RunPoolIsProper, DistinctIsShort};
ghost use Rattle.ice_pricing_laws.specs.Scans.{ScanFindsNone, ScanGivesViolation, FirstMayFollow, CertificateFits, StageIsUnlimited};
ghost use Rattle.ice_pricing_laws.specs.Sizes.{AccuracyIsSized, BalanceIsSized, StageIsShaped};
ghost use Rattle.ice_pricing_laws.specs.Traces.{TracesSolve};
ghost use Rattle.ice_pricing_laws.specs.Weights.{DualsPassAccuracy, DualsPassBalance, AccuracyMoves, LoweredAreWeights};

/// The solution of a stage at a pool is a least point of its program, with its duals.
pub fn traces_solve()
    ensures { TracesSolve }
{}

/// Where no set is to be added, the least point of the accuracy program has accurate prices, and
/// their violation is the point's.
pub fn least_is_accurate()
    ensures { LeastIsAccurate }
{}

/// With the violation of accurate prices, and where no set is to be added, the least point of the
/// balance program has balanced prices.
pub fn least_is_balanced()
    ensures { LeastIsBalanced }
{}

/// The accuracy program has a feasible point over each pool.
pub fn accuracy_is_feasible()
    ensures { AccuracyIsFeasible }
{}

/// With the violation of some prices within the cap, the balance program has a feasible point over
/// each pool.
pub fn balance_is_feasible()
    ensures { BalanceIsFeasible }
{}

/// The prices of a point of the accuracy program are within the cap.
pub fn accuracy_is_within()
    ensures { AccuracyIsWithin }
{}

/// The prices of a least point of the balance program are within the cap.
pub fn balance_is_within()
    ensures { BalanceIsWithin }
{}

/// A set that violates a point isn't in the pool.
pub fn violator_is_new()
    ensures { ViolatorIsNew }
{}

/// A pool that has no set of a bidder twice has none after a set that violates is added.
pub fn pool_stays_distinct()
    ensures { PoolStaysDistinct }
{}

/// The pool of a run has satisfied sets alone, at most 200, and none of a bidder twice.
pub fn run_pool_is_proper()
    ensures { RunPoolIsProper }
{}

/// The duals of a least point of the accuracy program, over one denominator, give rows that pass
/// the accuracy test.
pub fn duals_pass_accuracy()
    ensures { DualsPassAccuracy }
{}

/// Those of the balance program, times 100 times the violation's denominator, give rows that pass
/// the balance test.
pub fn duals_pass_balance()
    ensures { DualsPassBalance }
{}

/// Rows that pass the accuracy test at some prices pass it at all prices of the same violation.
pub fn accuracy_moves()
    ensures { AccuracyMoves }
{}

/// Duals that are multiplied, lowered and brought to their least common denominator are weights.
pub fn lowered_are_weights()
    ensures { LoweredAreWeights }
{}

/// A pool that has no set of a bidder twice has at most as many members as there are satisfied
/// sets.
pub fn distinct_is_short()
    ensures { DistinctIsShort }
{}

/// Prices over the least common denominator of their lowest terms have no common divisor with it.
pub fn prices_are_lowest()
    ensures { PricesAreLowest }
{}

/// Where no set is to be added, the prices of the least point have a violation.
pub fn least_has_violation()
    ensures { LeastHasViolation }
{}

/// Where the accuracy stage of a run has no set to add, its prices are accurate and its certificate
/// passes.
pub fn accuracy_stage_ends()
    ensures { AccuracyStageEnds }
{}

/// An accuracy stage that is past gave accurate prices of the violation that the balance stage
/// keeps.
pub fn accurate_stage_gives()
    ensures { AccurateStageGives }
{}

/// A state of the balance stage comes after an accuracy stage.
pub fn balance_comes_after()
    ensures { BalanceComesAfter }
{}

/// Where the balance stage of a run has no set to add, its prices are balanced and both
/// certificates pass.
pub fn balance_stage_ends()
    ensures { BalanceStageEnds }
{}

/// No program of a run is infeasible.
pub fn run_is_feasible()
    ensures { RunIsFeasible }
{}

/// The prices of each solution of a run are within the cap.
pub fn run_is_within()
    ensures { RunIsWithin }
{}

/// Where no bidder has a best set that violates a solution, no set is to be added.
pub fn scan_finds_none()
    ensures { ScanFindsNone }
{}

/// The greatest excess of the bidders' best sets is the violation.
pub fn scan_gives_violation()
    ensures { ScanGivesViolation }
{}

/// A best set of the first bidder that violates a solution may follow the pool.
pub fn first_may_follow()
    ensures { FirstMayFollow }
{}

/// A certificate whose denominator and weights are at most 2^32 isn't too large.
pub fn certificate_fits()
    ensures { CertificateFits }
{}

/// A stage that has no set to add and whose prices and certificate fit is at no limit.
pub fn stage_is_unlimited()
    ensures { StageIsUnlimited }
{}

/// How large the numbers of the accuracy program are.
pub fn accuracy_is_sized()
    ensures { AccuracyIsSized }
{}

/// How large the numbers of the balance program are.
pub fn balance_is_sized()
    ensures { BalanceIsSized }
{}

/// Each row of a program has as many coefficients as there are costs.
pub fn stage_is_shaped()
    ensures { StageIsShaped }
{}
