//! A law of what `statement` answers, which holds of the definitions.
ghost use Rattle.ice_statement.specs.Laws.{OneStatementAnswer};

/// But for want of memory, bytes have one answer for a name: that there is a statement, which is
/// one by a law of `ice_statement_laws`, or one reason why there is none.
pub fn bytes_have_one_statement()
    ensures { OneStatementAnswer }
{}
