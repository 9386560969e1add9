//! Why a command has no answer.
ghost use Rattle.std.specs.Prelude.{◌≡◌, [], ◌+◌, ◌≤◌, length};
ghost use Rattle.ice_edge.specs.Puts.{IsPut};
ghost use Rattle.ice_line.specs.Writing.{with_field};
ghost use Rattle.ice_command_parts.specs.Parts.{IsSaid};
ghost use Rattle.ice_command_parts.specs.Refusals.{fault_of, refusal_text, refusal_status};

use crate::say::ended;
use ice_edge::{Sink, SinkFault, Status};
use ice_line::LineWriter;
use ice_read::Place;

/// Why a file is refused.
#[derive(Drop)]
pub enum FileFault {
    /// The fault with this number, at this line.
    AtLine { number: u8, line: u64 },
    /// The fault with this number, at this value of a JSON file.
    AtPlace { number: u8, place: Place },
    /// This line is no record, or no line of a statement, and none before it is at fault.
    NoRecord { line: u64 },
    /// The last line, which is this one, has no newline, and none before it is at fault.
    NotEnded { line: u64 },
    /// It is of another kind than the command reads.
    OtherKind,
    /// It is a session that states no regret of the settlement.
    NoSettlement,
    /// It is a session, and no bidder of it has the name.
    NoBidder,
    /// It has more bytes than it may have.
    TooLong,
}

impl FileFault {
    /// The number that the fault is printed with.
    fn number(&self) -> u8
        ensures { result ≡ (fault_of self.now).number }
    {
        match self {
            FileFault::AtLine { number, .. } | FileFault::AtPlace { number, .. } => *number,
            FileFault::NoRecord { .. } => 50,
            FileFault::NotEnded { .. } => 51,
            FileFault::OtherKind => 53,
            FileFault::NoSettlement => 52,
            FileFault::NoBidder => 94,
            FileFault::TooLong => 61,
        }
    }

    /// Writes the line or the value at fault; `-` where the file is at fault as a whole.
    fn write_place(&self, to: &mut LineWriter)
        requires { length to.old ≤ 1000 }
        ensures field { to.new ≡ with_field to.old (fault_of self.now).place }
        ensures len { length to.new ≤ length to.old + 257 }
    {
        match self {
            FileFault::AtLine { line, .. }
            | FileFault::NoRecord { line }
            | FileFault::NotEnded { line } => to.natural(*line),
            FileFault::AtPlace { place, .. } => to.word(place.text().as_bytes()),
            FileFault::OtherKind
            | FileFault::NoSettlement
            | FileFault::NoBidder
            | FileFault::TooLong => to.word(b"-"),
        }
    }
}

/// Why a command has no answer. Files are numbered from 1, in the order of the words.
#[derive(Drop)]
pub enum Refusal {
    /// The file with this number has this fault.
    File { file: u8, fault: FileFault },
    /// The file with this number could not be read.
    Unread { file: u8 },
    /// Want of memory: nothing is written.
    NoMemory,
}

impl Refusal {
    /// The status that goes with it.
    fn status(&self) -> Status
        ensures { result ≡ refusal_status self.now }
    {
        match self {
            Refusal::File { .. } => Status::Input,
            Refusal::Unread { .. } => Status::ReadFault,
            Refusal::NoMemory => Status::NoMemory,
        }
    }

    /// Its line with the newline, written into an empty writer; nothing at want of memory.
    fn write<'a>(&self, to: &'a mut LineWriter) -> &'a [u8]
        requires { to.old ≡ [] }
        ensures { result.now ≡ refusal_text self.now }
    {
        match self {
            Refusal::File { file, fault } => {
                to.word(b"refused");
                to.natural(u64::from(*file));
                to.natural(u64::from(fault.number()));
                fault.write_place(to);
            }
            Refusal::Unread { file } => {
                to.word(b"unread");
                to.natural(u64::from(*file));
            }
            Refusal::NoMemory => return &[],
        }
        to.end()
    }

    /// Puts its line; nothing at want of memory.
    fn put<K: Sink>(&self, out: &mut K) -> Result<(), SinkFault>
        ensures { IsPut (refusal_text self.now) result (K.taken out.old) (K.taken out.new) }
    {
        let mut writer = LineWriter::new();
        let line = self.write(&mut writer);
        if line.is_empty() {
            return Ok(());
        }
        out.put(line)
    }

    /// Puts its line, and ends with its status, or with `WriteFault` where the sink fails.
    pub fn say<K: Sink>(&self, out: &mut K) -> Status
        ensures { IsSaid (refusal_text self.now) (refusal_status self.now)
            (K.taken out.old) (K.taken out.new) result }
    {
        ended(self.put(out), self.status())
    }
}
