//! Laws of private statements and of their audit. It has no code.
#![tactic(auto)]

ghost use Rattle.ice_statement_laws.specs.Laws.{RightPartsPass, StatementsPass, AuditIsOne, AnswerIsOne, AuditSaysYes, StatementHidesOthers, YesIsRight, StatementIsOne};
ghost use Rattle.ice_statement_laws.specs.Gathering.{GatheredIsStatement, LinesAreOne};

/// Two closed journals that agree in what is published and in what is one bidder's own give it the
/// same bytes.
#[tactic(auto, using(crate::proofs::Accepting::statement_hides_others))]
pub fn statement_hides_others()
    ensures { StatementHidesOthers }
{}

/// The bytes of a journal have one statement for a name.
#[tactic(auto, using(crate::proofs::Proved::statement_is_one))]
pub fn statement_is_one()
    ensures { StatementIsOne }
{}

/// What is gathered of a journal record by record is the statement of its named bidder.
#[tactic(auto, using(crate::proofs::Gathered::gathered_is_statement))]
pub fn gathered_is_statement()
    ensures { GatheredIsStatement }
{}

/// A journal has one statement for a name, as lines.
#[tactic(auto, using(crate::proofs::Gathered::lines_are_one))]
pub fn lines_are_one()
    ensures { LinesAreOne }
{}

/// The audit passes the lines of a right part.
#[tactic(auto, using(crate::proofs::Proved::right_parts_pass))]
pub fn right_parts_pass()
    ensures { RightPartsPass }
{}

/// The audit passes every statement of a closed journal that passes every test.
#[tactic(auto, using(crate::proofs::Proved::statements_pass))]
pub fn statements_pass()
    ensures { StatementsPass }
{}

/// The audit of lines has one outcome.
#[tactic(auto, using(crate::proofs::Deciding::audit_is_one))]
pub fn audit_is_one()
    ensures { AuditIsOne }
{}

/// But for want of memory, the audit of bytes has one answer.
#[tactic(auto, using(crate::proofs::Proved::answer_is_one))]
pub fn answer_is_one()
    ensures { AnswerIsOne }
{}

/// To every text that a statement has the audit says yes, with the bidder's payment, or answers
/// want of memory.
#[tactic(auto, using(crate::proofs::Proved::audit_says_yes))]
pub fn audit_says_yes()
    ensures { AuditSaysYes }
{}

/// What the audit says yes to is the lines of a right part, with its payment.
#[tactic(auto, using(crate::proofs::Proved::yes_is_right))]
pub fn yes_is_right()
    ensures { YesIsRight }
{}
