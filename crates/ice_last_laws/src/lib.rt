//! Laws of the last settlement of a closed session: what its journal says of it, and what is then
//! known of its payments.
#![tactic(auto)]

ghost use Rattle.ice_last_laws.specs.Last.{DoneIsLast, LastIsPaid};

/// Where the records of a session lead to its end, they state a right session, whose last
/// settlement is that of the end, with the payments that were said.
pub fn done_is_last()
    ensures { DoneIsLast }
{}

/// Its bidders have satisfied sets and pay fractions, each with a denominator that divides that of
/// the cut.
pub fn last_is_paid()
    ensures { LastIsPaid }
{}
