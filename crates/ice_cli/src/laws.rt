//! Laws of the answers.
ghost use Rattle.ice_cli.specs.Completeness.{CheckCompletes, CheckIsDecided, SpentHasGap, RegretCompletes, RunCompletes};

/// With told bytes within the limit and no fault of the outside, `check` ends with yes, no, a
/// refusal, or for want of memory.
#[tactic(auto, using(crate::proofs::Completing::check_completes))]
pub fn check_completes()
    ensures { CheckCompletes }
{}

/// But for want of memory, which of these it is, and what is written, is a function of the bytes.
#[tactic(auto, using(crate::proofs::Completing::check_is_decided))]
pub fn check_is_decided()
    ensures { CheckIsDecided }
{}

/// Of what a command wrote that ended because its branches were spent, `gap` writes a gap, or ends
/// for want of memory: with these bytes told and within the limit, and no fault of the outside.
pub fn spent_has_gap()
    ensures { SpentHasGap }
{}

/// With an exchange file that is told, valid and within the limit, no fault of the outside, and at
/// least twice 2 to the number of nodes as branches, `regret` ends with a regret, or for want of
/// memory.
pub fn regret_completes()
    ensures { RegretCompletes }
{}

/// With files that are told, valid and within the limit, no fault of the outside, and branches
/// enough for every search that a session may have, `run` ends with a session that is closed or
/// stays open, at a limit of its pricing, or for want of memory. Where the settings allow no round,
/// it doesn't end at a limit.
pub fn run_completes()
    ensures { RunCompletes }
{}
