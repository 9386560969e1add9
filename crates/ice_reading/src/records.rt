//! The records of bytes, taken one after another.
ghost use Rattle.std.specs.Prelude.{◌≡◌, ◌<◌, List, length, IfSome};
ghost use Rattle.ice_journal.specs.Records.{Record};
ghost use Rattle.ice_journal.specs.Ranges.{IsRecord};
ghost use Rattle.ice_journal.specs.Spelling.{line_of};
ghost use Rattle.ice_journal.specs.Journal.{IsJournal};
ghost use Rattle.ice_journal.specs.Lines.{record_of};
ghost use Rattle.ice_reading.specs.Records.{Starts, HasLine, StartsWithLine, Shortens};

use ice_journal::{Line, Room, read_record};
use ice_line::split_line;
use std::marker::Model;

/// The records that are still to come of bytes that are known to be a journal: they are read once
/// more, without memory. A contract sees these bytes.
#[derive(Drop)]
pub struct Records<'a> {
    rest: &'a [u8],
}

impl<'a> Model for Records<'a> {
    ghost use Rattle.std.specs.Prelude.{List, ℕ};

    ghost Value = { List ℕ };

    ghost view = { λ a. a.rest.now };
}

impl<'a> Records<'a> {
    /// All records of the bytes.
    pub fn new(bytes: &'a [u8]) -> Self
        ensures { result ≡ bytes.now }
    {
        Records { rest: bytes }
    }

    /// The next record, where one is left.
    pub fn next<'room>(&mut self, room: &'room mut Room) -> Option<Line<'room>>
        ensures next { (left : List Record) → IsJournal self.old left
            → Starts left result self.new }
        ensures lawful { IfSome result (λ line. IsRecord (record_of line)) }
        ensures shorter { Shortens self.old result self.new }
    {
        let (text, after) = split_line(self.rest)?;
        self.rest = after;
        read_record(text, room)
    }

    /// The line of the next record with its newline, where one is left; it is not read.
    pub fn next_line(&mut self) -> Option<&'a [u8]>
        ensures next { (left : List Record) → IsJournal self.old left
            → HasLine left result self.new }
        ensures some { IfSome result (λ line. 0 < length line.now) }
        ensures shorter { Shortens self.old result self.new }
    {
        let (text, after) = split_line(self.rest)?;
        let line = &self.rest[..text.len() + 1];
        self.rest = after;
        Some(line)
    }

    /// The next record and its line with the newline, where one is left.
    pub fn next_with_line<'room>(
        &mut self,
        room: &'room mut Room,
    ) -> Option<(Line<'room>, &'a [u8])>
        ensures next { (left : List Record) → IsJournal self.old left
            → StartsWithLine left result self.new }
        ensures line { IfSome result (λ both. both.1.now ≡ line_of (record_of both.0)) }
        ensures shorter { Shortens self.old result self.new }
    {
        let (text, after) = split_line(self.rest)?;
        let line = &self.rest[..text.len() + 1];
        self.rest = after;
        let record = read_record(text, room)?;
        Some((record, line))
    }
}
