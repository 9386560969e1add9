//! Laws of parts with tolls, which hold of the definitions.
ghost use Rattle.ice_tolled_log.specs.Laws.{TolledIsPart};

/// A part takes multipliers and tolls with no wrong sign, and the bound at them.
pub fn tolled_are_parts()
    ensures { TolledIsPart }
{}
