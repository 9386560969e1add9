//! Laws of logs, which hold of the definitions.

ghost use Rattle.ice_refute.specs.Laws.{LogRefutes, LogIsShort, LogCloses, LogByRefutes, LimitsAreKept, PlainPasses, LogStays, LawfulGrows};

/// Where a log passes, and each of its leaves has one multiplier for each good, no feasible
/// assignment that meets its start is worth more than its target.
#[tactic(auto, using(crate::proofs::Refutes::log_refutes))]
pub fn logs_refute()
    ensures { LogRefutes }
{}

/// Where a start has one mark for each node, and n of its nodes are free, a log from it that passes
/// has fewer than 2^n branch steps, and fewer than 2^(n+1) steps.
#[tactic(auto, using(crate::proofs::Counting::log_is_short))]
pub fn logs_are_short()
    ensures { LogIsShort }
{}

/// A log that passes closes all sides, and each of its steps stands in one.
#[tactic(auto, using(crate::proofs::Closing::log_closes))]
pub fn logs_close()
    ensures { LogCloses }
{}

/// Where a log by lawful derived goods passes, no feasible assignment that meets its start is worth
/// more than its target.
#[tactic(auto, using(crate::proofs::Refutes::log_by_refutes))]
pub fn logs_by_refute()
    ensures { LogByRefutes }
{}

/// Every feasible assignment takes at most the limit of each of a list of lawful derived goods.
pub fn limits_are_kept()
    ensures { LimitsAreKept }
{}

/// A log by goods alone passes exactly where the same log passes by derived goods, with 64 times
/// its multipliers and no tolls, whatever these goods are.
pub fn plain_logs_pass()
    ensures { PlainPasses }
{}

/// A log whose tolls are on the derived goods that were made so far passes among all of them.
pub fn logs_stay()
    ensures { LogStays }
{}

/// A list of derived goods is lawful where it has none, or where the last one follows from a lawful
/// list of the others.
pub fn lawful_lists_grow()
    ensures { LawfulGrows }
{}
