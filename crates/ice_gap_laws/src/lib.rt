//! Journals that stop at a search that spent its branches: what the tests behind the stop are, and
//! what it means that they pass. It has no code but a plain enum.
#![tactic(auto)]

ghost use Rattle.ice_gap_laws.specs.Laws.{OneGapAnswer, GapIsRight, GapEndIsAnswer, GapIsWritten};

mod answer;

pub use answer::GapAnswer;

/// But for want of memory, bytes have one answer.
#[tactic(auto, using(crate::proofs::Single::one_gap_answer))]
pub fn bytes_have_one_gap_answer()
    ensures { OneGapAnswer }
{}

/// What is answered where the records end is the answer to their bytes.
#[tactic(auto, using(crate::proofs::Ending::gap_end_is_answer))]
pub fn gap_end_is_answer()
    ensures { GapEndIsAnswer }
{}

/// The sets of a gap can be done and have its value, and nothing that can be done is worth more
/// than its bound.
#[tactic(auto, using(crate::proofs::Right::gap_is_right))]
pub fn gap_is_right()
    ensures { GapIsRight }
{}

/// What a writer writes where a search spent its branches, is a gap to the checker.
#[tactic(auto, using(crate::proofs::Written::gap_is_written))]
pub fn gap_is_written()
    ensures { GapIsWritten }
{}
