//! Laws of the checker of bytes.
ghost use Rattle.ice_check.specs.Standing.{RecordsAreShort};
ghost use Rattle.ice_check.specs.Laws.{OrderOfRoundsKeepsYes};

/// The text of a record has at most 8,192 bytes.
#[tactic(auto, using(crate::proofs::Short::records_are_short))]
pub fn records_are_short()
    ensures { RecordsAreShort }
{}

/// The yes to a session, and its regret and surplus, don't depend on the order in which the
/// submissions of different bidders come in a round.
pub fn order_of_rounds_keeps_yes()
    ensures { OrderOfRoundsKeepsYes }
{}
