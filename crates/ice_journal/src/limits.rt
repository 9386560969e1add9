//! Limits of the numbers of records that stand in records of several forms.

/// The greatest size of a total, and the greatest regret.
pub(crate) const TOTAL: i64 = 400_000_000_000_000;

/// The greatest size of a multiplier: 2^56.
pub(crate) const MULTIPLIER: i64 = 72_057_594_037_927_936;

/// The greatest size of a multiplier or a toll of version 3: 2^62.
pub(crate) const TOLL: i64 = 4_611_686_018_427_387_904;

/// The greatest size of an amount of a derived good: 2^20.
pub(crate) const AMOUNT: i64 = 1_048_576;

/// The greatest size of a limit of a derived good: 2^40.
pub(crate) const LIMIT: i64 = 1_099_511_627_776;

/// The greatest denominator, and the greatest weight of a row: 2^32.
pub(crate) const DENOMINATOR: u64 = 4_294_967_296;
