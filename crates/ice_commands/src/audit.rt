//! `audit`: whether a statement passes its tests, with no journal in sight.
ghost use Rattle.std.specs.Prelude.{◌≡◌, []};
ghost use Rattle.ice_commands.specs.AuditServed.{paid_line, AuditAnswers};
ghost use Rattle.ice_commands.specs.AuditParts.{answer_text, answer_status};
ghost use Rattle.ice_command_parts.specs.Keeping.{KeepsTold};
ghost use Rattle.ice_command_parts.specs.Parts.{IsSaid, Serves};

use crate::answer::{say_answer, write_fraction};
use crate::check::JOURNAL_LIMIT;
use crate::ends::refusal_of;
use ice_audit::AuditAnswer;
use ice_check::Answer;
use ice_command_parts::{ended, fetch};
use ice_edge::{Shelf, Sink, Status};
use ice_frac::Frac;
use ice_line::LineWriter;
use std::alloc::Global;

/// The line of a yes with its newline, written into an empty writer.
fn write_yes<'a>(payment: &Frac, to: &'a mut LineWriter) -> &'a [u8]
    requires { to.old ≡ [] }
    ensures { result.now ≡ paid_line payment.now }
{
    to.word(b"yes");
    write_fraction(payment, to);
    to.end()
}

/// Puts a yes.
fn say_yes<K: Sink>(payment: &Frac, out: &mut K) -> Status
    ensures { IsSaid (paid_line payment.now) Status.Done
        (K.taken out.old) (K.taken out.new) result }
{
    let mut writer = LineWriter::new();
    ended(out.put(write_yes(payment, &mut writer)), Status::Done)
}

/// Puts an answer.
fn say<K: Sink>(answer: &AuditAnswer, out: &mut K) -> Status
    ensures { IsSaid (answer_text answer.now) (answer_status answer.now)
        (K.taken out.old) (K.taken out.new) result }
{
    match answer {
        AuditAnswer::Yes { payment } => say_yes(payment, out),
        AuditAnswer::No { line, rule } => {
            let answer = Answer::No {
                line: *line,
                rule: *rule,
            };
            say_answer(&answer, out)
        }
    }
}

/// Writes the audit's answer on the statement in the file of this name: yes with its payment, or
/// the first failed test, or why there is no answer.
pub fn audit<H: Shelf, K: Sink>(alloc: Global, file: &str, shelf: &mut H, out: &mut K) -> Status
    ensures served { Serves (λ call. AuditAnswers call file.now)
        (H.told shelf.old) (H.told shelf.new) (K.taken out.old) (K.taken out.new) result }
    ensures kept { KeepsTold (H.told shelf.old) (H.told shelf.new) result }
{
    match fetch(alloc, 1, file, JOURNAL_LIMIT, shelf) {
        Ok(bytes) => match ice_audit::audit(alloc, &bytes) {
            Ok(answer) => say(&answer, out),
            Err(end) => refusal_of(end).say(out),
        },
        Err(refusal) => refusal.say(out),
    }
}
