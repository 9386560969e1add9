//! What is written is read again, and what is no JSON: laws of the definitions, which hold of every
//! file.
ghost use Rattle.ice_read.specs.Laws.{WrittenIsRead, LineFormIsNoJson};

/// The text of a lawful exchange is read again as that exchange.
#[tactic(auto, using(crate::proofs::TextAgain::written_is_read))]
pub fn written_is_read()
    ensures { WrittenIsRead }
{}

/// Bytes that begin as a file in line form are refused as no JSON.
#[tactic(auto, using(crate::proofs::LineForm::line_form))]
pub fn line_form_is_no_json()
    ensures { LineFormIsNoJson }
{}
