//! How far the records of a journal have come.
ghost use Rattle.std.specs.Prelude.{◌≡◌, ℕ, suc, false, length, IsTrue, IfSome, IfOk, OnOk, OnErr, IsOk};
ghost use Rattle.ice_journal.specs.Lines.{record_of};
ghost use Rattle.ice_journal.specs.Ranges.{IsRecord};
ghost use Rattle.ice_journal_laws.specs.Progress.{Progress};
ghost use Rattle.ice_journal_laws.specs.Answers.{EndsWith};
ghost use Rattle.ice_check_records.specs.Stages.{IsProgress, is_ready_stage, IsAtLine, IsKept, LeadsOn, TakesFurther, failed_stage};
ghost use Rattle.ice_check_records.specs.Taking.{failure_at};
ghost use Rattle.ice_check_records.specs.Due.{awaits_prices, TellsDue};
ghost use Rattle.ice_check_records.specs.Closed.{TellsClosed};

use crate::closed::ClosedSession;
use crate::describing::{begin, describe};
use crate::due::DueRegret;
use crate::groups::Groups;
use crate::halt::Halt;
use crate::head::Head;
use ice_check_offer::Fault;
use ice_journal::Line;
use ice_journal_laws::{Answer, CheckEnd, Rule};
use ice_section::Section;
use std::alloc::{AllocError, Global};
use std::mem;

/// How far the records of a journal have come.
#[derive(Drop)]
pub(crate) enum Stage {
    /// No record is read yet.
    Begin,
    /// The first record is no head of a kind that is checked.
    OtherKind,
    /// The exchange is being described.
    Describing(Head, Box<Section>),
    /// What stands behind the exchange is being stated, or the journal has ended.
    Behind(Box<Groups>),
    /// The first failed test.
    Failed { line: u64, rule: Rule },
    /// No memory was left for a record.
    OutOfMemory,
}

/// The stage of a fault that is found at the line with this number.
fn failed(number: u64, fault: Fault) -> Stage
    ensures { result ≡ failed_stage (failure_at number fault) }
{
    match fault {
        Fault::Here(rule) => Stage::Failed { line: number, rule },
        Fault::List(rule) => Stage::Failed {
            line: number.saturating_sub(1),
            rule,
        },
    }
}

impl Stage {
    /// The stage after a record up to the one that ends the exchange.
    fn described(self, alloc: Global, line: &Line) -> Result<Stage, Halt>
        requires before { is_ready_stage self ≡ false }
        requires kept { IsKept self }
        requires lawful { IsRecord (record_of line.now) }
        ensures { LeadsOn self (record_of line.now) result }
    {
        match self {
            Stage::Begin => begin(alloc, line),
            Stage::Describing(head, section) => describe(alloc, head, section, line),
            Stage::OutOfMemory => Err(Halt::NoMemory),
            Stage::OtherKind | Stage::Behind(_) | Stage::Failed { .. } => unreachable!(),
        }
    }

    /// Takes a record up to the one that ends the exchange. Where memory runs out, no more records
    /// are taken. Never inlined, since each record would pay for the size of its locals.
    #[inline(never)]
    fn describe(&mut self, alloc: Global, number: u64, line: &Line) -> Result<(), AllocError>
        requires before { is_ready_stage self.old ≡ false }
        requires within { IsAtLine number self.old }
        requires lawful { IsRecord (record_of line.now) }
        ensures after { OnOk result ((p : Progress) → IsProgress number self.old p
            → TakesFurther number self.new p (record_of line.now)) }
        ensures within { IsAtLine (suc number) self.new }
        ensures stopped { OnErr result (self.new ≡ Stage.OutOfMemory) }
    {
        match mem::replace(self, Stage::OutOfMemory).described(alloc, line) {
            Ok(next) => {
                *self = next;
                Ok(())
            }
            Err(Halt::Fails(fault)) => {
                *self = failed(number, fault);
                Ok(())
            }
            Err(Halt::NoMemory) => Err(AllocError),
        }
    }

    /// Takes a record, which stands in the line with this number. Where memory runs out, no more
    /// records are taken.
    pub(crate) fn take(&mut self, alloc: Global, number: u64, line: &Line) -> Result<(), AllocError>
        requires within { IsAtLine number self.old }
        requires lawful { IsRecord (record_of line.now) }
        ensures after { OnOk result ((p : Progress) → IsProgress number self.old p
            → TakesFurther number self.new p (record_of line.now)) }
        ensures within { IsAtLine (suc number) self.new }
        ensures stopped { OnErr result (self.new ≡ Stage.OutOfMemory) }
        ensures ready { IsTrue (is_ready_stage self.old) → IsOk result }
        ensures stays { IsTrue (is_ready_stage self.old) → IsTrue (is_ready_stage self.new) }
    {
        match self {
            Stage::Behind(groups) => {
                if let Err(fault) = groups.take(line) {
                    *self = failed(number, fault);
                }
                Ok(())
            }
            Stage::OtherKind | Stage::Failed { .. } => Ok(()),
            Stage::Begin | Stage::Describing(_, _) | Stage::OutOfMemory => {
                self.describe(alloc, number, line)
            }
        }
    }

    /// What the tests find, where the records so far are the whole journal and the line with this
    /// number would be the next.
    pub(crate) fn answer(&self, number: u64) -> Result<Answer, CheckEnd>
        requires { IsKept self.now }
        ensures { (p : Progress) → IsProgress number self.now p → EndsWith p result }
    {
        let short = Answer::No {
            line: number,
            rule: Rule::Short,
        };
        match self {
            Stage::Begin | Stage::OtherKind => Err(CheckEnd::OtherKind),
            Stage::Describing(_, _) => Ok(short),
            Stage::Behind(groups) => Ok(groups.answer().unwrap_or(short)),
            Stage::Failed { line, rule } => Ok(Answer::No {
                line: *line,
                rule: *rule,
            }),
            Stage::OutOfMemory => Err(CheckEnd::NoMemory),
        }
    }

    /// The session, where the journal is one and has closed.
    pub(crate) fn into_session(self, alloc: Global) -> Result<Option<ClosedSession>, AllocError>
        requires { IsKept self }
        ensures { IfOk result (λ found. (n : ℕ) (p : Progress) → IsProgress n self p
            → TellsClosed found p) }
    {
        match self {
            Stage::Behind(groups) => Box::into_inner(groups).into_session(alloc),
            _ => Ok(None),
        }
    }

    /// The settlement whose regret comes next, where one does.
    pub(crate) fn due(&self) -> Option<DueRegret<'_>>
        requires { IsKept self.now }
        ensures tells { (n : ℕ) (p : Progress) → IsProgress n self.now p → TellsDue result p }
        ensures count { IfSome result (λ due. length due.bounds.now
            ≡ length due.exchange.now.bidders) }
    {
        match self {
            Stage::Behind(groups) => groups.due(),
            _ => None,
        }
    }

    /// Whether the prices of a settlement come next, or a stop in their place.
    pub(crate) fn awaits_prices(&self) -> bool
        ensures { (n : ℕ) (p : Progress) → IsProgress n self.now p → result ≡ awaits_prices p }
    {
        match self {
            Stage::Behind(groups) => groups.awaits_prices(),
            _ => false,
        }
    }
}
