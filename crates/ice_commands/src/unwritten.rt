//! Why a command writes nothing of a journal.
ghost use Rattle.ice_command_parts.specs.Parts.{IsSaid};
ghost use Rattle.ice_commands.specs.Unwritten.{unwritten_text, unwritten_status};

use crate::answer::say_answer;
use ice_check::{Answer, Rule};
use ice_command_parts::Refusal;
use ice_edge::{Sink, Status};

/// Why nothing is written of a journal.
#[derive(Drop)]
pub enum Unwritten {
    /// The journal fails this test: its line and its rule.
    Fails { line: u64, rule: Rule },
    /// The file could not be read, or has a fault, or there is no memory.
    Refused(Refusal),
}

impl Unwritten {
    /// Puts the line that says why, and ends with its status, or with `WriteFault` where the sink
    /// fails.
    pub(crate) fn say<K: Sink>(&self, out: &mut K) -> Status
        ensures { IsSaid (unwritten_text self.now) (unwritten_status self.now)
            (K.taken out.old) (K.taken out.new) result }
    {
        match self {
            Unwritten::Fails { line, rule } => say_answer(
                &Answer::No {
                    line: *line,
                    rule: *rule,
                },
                out,
            ),
            Unwritten::Refused(refusal) => refusal.say(out),
        }
    }
}
