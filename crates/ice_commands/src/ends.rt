//! What a command says of a file of which nothing else is said: here alone the ends of journals get
//! their faults, whose numbers are those of `FileFault`.
ghost use Rattle.ice_commands.specs.Ends.{IsEndFault, TellsEnd};
ghost use Rattle.ice_command_parts.specs.Refusals.{IsFaultOf};

use crate::unwritten::Unwritten;
use ice_command_parts::{FileFault, Refusal};
use ice_reading::{CheckEnd, JournalEnd};

/// Why bytes have no answer, as what is wrong with the first file.
pub(crate) fn refusal_of(end: CheckEnd) -> Refusal
    ensures { IsFaultOf 1 (IsEndFault end) result }
{
    let fault = match end {
        CheckEnd::Grammar { line } => FileFault::NoRecord { line },
        CheckEnd::Unended { line } => FileFault::NotEnded { line },
        CheckEnd::OtherKind => FileFault::OtherKind,
        CheckEnd::NoMemory => return Refusal::NoMemory,
    };
    Refusal::File { file: 1, fault }
}

/// Why nothing is written of the bytes of the first file.
pub(crate) fn unwritten_of(end: JournalEnd) -> Unwritten
    ensures { TellsEnd end result }
{
    match end {
        JournalEnd::Unjudged(end) => Unwritten::Refused(refusal_of(end)),
        JournalEnd::FailsTest { line, rule } => Unwritten::Fails { line, rule },
    }
}
