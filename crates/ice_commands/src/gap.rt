//! `gap`: what a journal shows that stops at a search that spent its branches.
ghost use Rattle.std.specs.Prelude.{◌≡◌, ◌≤◌, ◌+◌, [], length};
ghost use Rattle.ice_commands.specs.GapServed.{with_group, gap_line, gap_status, GapAnswers};
ghost use Rattle.ice_command_parts.specs.Keeping.{KeepsTold};
ghost use Rattle.ice_command_parts.specs.Parts.{IsSaid, Serves};

use crate::answer::rule_word;
use crate::check::JOURNAL_LIMIT;
use crate::ends::refusal_of;
use ice_command_parts::{ended, fetch};
use ice_defs::Group;
use ice_edge::{Shelf, Sink, Status};
use ice_gap::GapAnswer;
use ice_line::LineWriter;
use std::alloc::Global;

/// Writes the words of a group.
fn write_group(group: Group, to: &mut LineWriter)
    requires { length to.old ≤ 100 }
    ensures field { to.new ≡ with_group to.old group }
    ensures len { length to.new ≤ length to.old + 100 }
{
    match group {
        Group::Assign => to.word(b"assign"),
        Group::Final => to.word(b"final"),
        Group::Rival => to.word(b"rival"),
        Group::Provisional => to.word(b"provisional"),
        Group::Without { bidder } => {
            to.word(b"without");
            to.number(i128::from(bidder));
        }
    }
}

/// The line of an answer with the newline, written into an empty writer.
fn write_gap<'a>(answer: &GapAnswer, to: &'a mut LineWriter) -> &'a [u8]
    requires { to.old ≡ [] }
    ensures { result.now ≡ gap_line answer.now }
{
    match answer {
        GapAnswer::Gap {
            group,
            value,
            bound,
        } => {
            to.word(b"gap");
            write_group(*group, to);
            to.number(i128::from(*value));
            to.number(*bound);
        }
        GapAnswer::No { line, rule } => {
            to.word(b"no");
            to.number(i128::from(*line));
            to.word(rule_word(*rule));
        }
        GapAnswer::NoGap { line } => {
            to.word(b"no");
            to.number(i128::from(*line));
            to.word(b"spent");
        }
    }
    to.end()
}

/// The status that goes with it.
fn status_of(answer: &GapAnswer) -> Status
    ensures { result ≡ gap_status answer.now }
{
    match answer {
        GapAnswer::Gap { .. } => Status::Done,
        GapAnswer::No { .. } | GapAnswer::NoGap { .. } => Status::No,
    }
}

/// Puts the line of an answer, and ends with its status, or with `WriteFault` where the sink fails.
fn say_gap<K: Sink>(answer: &GapAnswer, out: &mut K) -> Status
    ensures { IsSaid (gap_line answer.now) (gap_status answer.now)
        (K.taken out.old) (K.taken out.new) result }
{
    let mut writer = LineWriter::new();
    ended(out.put(write_gap(answer, &mut writer)), status_of(answer))
}

/// Writes the gap that the journal of this name states.
pub fn gap<H: Shelf, K: Sink>(alloc: Global, journal: &str, shelf: &mut H, out: &mut K) -> Status
    ensures served { Serves (λ call. GapAnswers call journal.now)
        (H.told shelf.old) (H.told shelf.new) (K.taken out.old) (K.taken out.new) result }
    ensures kept { KeepsTold (H.told shelf.old) (H.told shelf.new) result }
{
    match fetch(alloc, 1, journal, JOURNAL_LIMIT, shelf) {
        Ok(bytes) => match ice_gap::gap(alloc, &bytes) {
            Ok(answer) => say_gap(&answer, out),
            Err(end) => refusal_of(end).say(out),
        },
        Err(refusal) => refusal.say(out),
    }
}
