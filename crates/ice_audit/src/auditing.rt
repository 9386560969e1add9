//! The audit of the bytes of a statement.
ghost use Rattle.ice_audit.specs.Answers.{AnswersAudit};

use crate::answer::AuditAnswer;
use crate::auditor::Auditor;
use crate::line::read_line;
use crate::standing::Standing;
use ice_journal::Room;
use ice_journal_laws::CheckEnd;
use ice_line::split_line;
use std::alloc::Global;

/// Audits the bytes of a statement.
///
/// `Grammar` or `Unended` is answered exactly where a line is neither a record nor another line of
/// a statement, or the last one has no newline, and names the least such line. Else the answer is
/// `Yes` exactly where every test passes, with the bidder's payment, or `No` with the first failed
/// test. Where lines are wanted behind the last one, that is `Short`, at the line after it.
/// `NoMemory` is answered where memory runs out, and `OtherKind` never.
pub fn audit(alloc: Global, bytes: &[u8]) -> Result<AuditAnswer, CheckEnd>
    ensures { AnswersAudit bytes.now result }
{
    let mut standing = Standing::Going(Auditor::Name);
    let mut room = Room::new();
    let mut rest = bytes;
    let mut number: u64 = 1;
    while let Some((text, after)) = split_line(rest) {
        let Some(line) = read_line(text, &mut room) else {
            return Err(CheckEnd::Grammar { line: number });
        };
        if standing.take(alloc, number, &line).is_err() {
            return Err(CheckEnd::NoMemory);
        }
        number += 1;
        rest = after;
    }
    if !rest.is_empty() {
        return Err(CheckEnd::Unended { line: number });
    }
    Ok(standing.answer(number))
}
