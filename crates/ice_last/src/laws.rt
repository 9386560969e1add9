//! Laws of last settlements, which hold of the definitions.
ghost use Rattle.ice_last.specs.Laws.{OneLastAnswer};

/// But for want of memory, bytes have one answer: a last settlement, or one reason why there is
/// none.
pub fn bytes_have_one_last()
    ensures { OneLastAnswer }
{}
