//! The record of the first line of bytes.
ghost use Rattle.std.specs.Prelude.{◌≡◌, ◌<◌, ◌++◌, length, IfOk, IfErr};
ghost use Rattle.ice_journal.specs.Lines.{record_of};
ghost use Rattle.ice_journal.specs.Ends.{IsBadLine};
ghost use Rattle.ice_journal.specs.Ranges.{IsRecord};
ghost use Rattle.ice_journal.specs.Spelling.{line_of};

use crate::line::{Line, Room};
use crate::record::read_record;
use ice_line::split_line;

/// What is wrong with a line.
#[derive(Clone, Copy, Debug, PartialEq, Eq)]
pub enum BadLine {
    /// It is the spelling of no record.
    NoRecord,
    /// It has no newline at its end.
    NotEnded,
}

/// The record of the first line, and the bytes after it. There is at least one byte. A list of
/// numbers is left in the room. `NotEnded` where the bytes have no newline, else `NoRecord` where
/// the line is the spelling of no record.
pub fn next_record<'bytes, 'room>(
    bytes: &'bytes [u8],
    room: &'room mut Room,
) -> Result<(Line<'room>, &'bytes [u8]), BadLine>
    requires { 0 < length bytes.now }
    ensures read { IfOk result (λ next. IsRecord (record_of next.0)
        × (bytes.now ≡ line_of (record_of next.0) ++ next.1.now)) }
    ensures bad { IfErr result (IsBadLine bytes.now) }
{
    let Some((text, after)) = split_line(bytes) else {
        return Err(BadLine::NotEnded);
    };
    match read_record(text, room) {
        Some(record) => Ok((record, after)),
        None => Err(BadLine::NoRecord),
    }
}
