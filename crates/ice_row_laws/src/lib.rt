//! Laws of the rows that certify prices: prices that pass the tests are accurate and balanced.
#![tactic(auto)]

ghost use Rattle.ice_row_laws.specs.Laws.{TestsGiveAccurate, TestsGiveBalanced};
ghost use Rattle.ice_row_laws.specs.Sums.{ZeroIsSums, RowIsAdded, SumsDecideAccuracy, SumsDecideBalance};
ghost use Rattle.ice_row_laws.specs.Sizes.{SumsAreWithin};

/// Prices whose rows pass the accuracy test are accurate: no prices within the cap have a smaller
/// violation.
pub fn tests_give_accurate()
    ensures { TestsGiveAccurate }
{}

/// Prices whose rows pass both tests are balanced: no accurate prices have a smaller greatest
/// price.
pub fn tests_give_balanced()
    ensures { TestsGiveBalanced }
{}

/// Sums of 0 are those of no rows.
pub fn zero_is_sums()
    ensures { ZeroIsSums }
{}

/// The sums of rows, with one row more, are the sums of the longer list.
pub fn row_is_added()
    ensures { RowIsAdded }
{}

/// Rows pass the accuracy test exactly where their sums do.
pub fn sums_decide_accuracy()
    ensures { SumsDecideAccuracy }
{}

/// Rows pass the balance test exactly where their sums do.
pub fn sums_decide_balance()
    ensures { SumsDecideBalance }
{}

/// Rows within limits have sums within as many times those limits as there are rows.
pub fn sums_are_within()
    ensures { SumsAreWithin }
{}
