//! What is known of the lines of a statement so far.
ghost use Rattle.std.specs.Prelude.{◌≡◌, suc, List, length, OnOk};
ghost use Rattle.ice_statement_laws.specs.Statement as spec;
ghost use Rattle.ice_statement_laws.specs.Texts.{IsLine};
ghost use Rattle.ice_audit.specs.Lines.{line_of};
ghost use Rattle.ice_audit.specs.Auditing.{Follows, IsKeptAt, GoesBehind, AnswersLines};

use crate::answer::AuditAnswer;
use crate::auditor::{Auditor, Stop};
use crate::line::StatementLine;
use ice_journal_laws::Rule;
use std::alloc::{AllocError, Global};

/// What is known of the lines of a statement so far.
#[derive(Drop)]
pub(crate) enum Standing {
    /// They pass every test.
    Going(Auditor),
    /// The first failed test: its line and its rule.
    Failed { line: u64, rule: Rule },
}

impl Standing {
    /// The line of this number fails a test. Never inlined, since each line would pay for the size
    /// of a machine that is let go.
    #[inline(never)]
    fn fail(&mut self, line: u64, rule: Rule)
        ensures { self.new ≡ Standing.Failed line rule }
    {
        *self = Standing::Failed { line, rule };
    }

    /// Takes one more line, which has this number.
    pub(crate) fn take(
        &mut self,
        alloc: Global,
        number: u64,
        line: &StatementLine,
    ) -> Result<(), AllocError>
        requires kept { IsKeptAt self.old }
        requires lawful { IsLine (line_of line.now) }
        ensures { OnOk result (GoesBehind number self.old (line_of line.now) self.new) }
    {
        match self {
            Standing::Going(auditor) => match auditor.take(alloc, line) {
                Ok(()) => Ok(()),
                Err(Stop::Fails(rule)) => {
                    self.fail(number, rule);
                    Ok(())
                }
                Err(Stop::NoMemory) => Err(AllocError),
            },
            Standing::Failed { .. } => Ok(()),
        }
    }

    /// The answer, where the next line would have this number and there is none.
    pub(crate) fn answer(&self, number: u64) -> AuditAnswer
        requires kept { IsKeptAt self.now }
        ensures { (lines : List spec.StatementLine) → number ≡ suc (length lines)
            → Follows self.now lines → AnswersLines lines result }
    {
        match self {
            Standing::Going(auditor) => match auditor.payment() {
                Some(payment) => AuditAnswer::Yes { payment },
                None => AuditAnswer::No {
                    line: number,
                    rule: Rule::Short,
                },
            },
            Standing::Failed { line, rule } => AuditAnswer::No {
                line: *line,
                rule: *rule,
            },
        }
    }
}
