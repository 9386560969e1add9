//! Laws of a settlement on its way: what it has found may be written, and the journal that ends
//! there is unended, with whole groups.
ghost use Rattle.ice_session_laws.specs.FoundLaws.{SettlingMayBeWritten, OfferMayBeWritten, SettlingIsUnended, OfferIsUnended};

/// Final sets with their regret, and the groups without the first bidders, have numbers that their
/// records may have.
pub fn settling_may_be_written()
    ensures { SettlingMayBeWritten }
{}

/// So have the provisional sets.
pub fn offer_may_be_written()
    ensures { OfferMayBeWritten }
{}

/// The journal of a session that ends behind these passes every test so far, and no stop stands in
/// it.
pub fn settling_is_unended()
    ensures { SettlingIsUnended }
{}

/// So does the one that ends behind the provisional sets.
pub fn offer_is_unended()
    ensures { OfferIsUnended }
{}
