//! The records of bytes, read to their end.
ghost use Rattle.std.specs.Prelude.{◌≡◌};
ghost use Rattle.ice_reading.specs.Reading.{ReadsAll};

use crate::reader::Reader;
use ice_journal::{BadLine, Room, next_record};
use ice_journal_laws::CheckEnd;

/// Has the records of the bytes taken by a reader that has taken none.
///
/// `Grammar` or `Unended` is answered exactly where a line is no record or the last one has no
/// newline, and names the least such line. `NoMemory` is answered where the reader wants memory,
/// and `OtherKind` never.
pub fn read_journal<R: Reader>(bytes: &[u8], reader: &mut R) -> Result<(), CheckEnd>
    requires { R.line reader.old ≡ 1 }
    ensures { ReadsAll R.step bytes.now reader.old result reader.new }
{
    let mut room = Room::new();
    let mut rest = bytes;
    let mut read = 0u64;
    while !rest.is_empty() {
        let (record, after) = match next_record(rest, &mut room) {
            Ok(next) => next,
            Err(BadLine::NoRecord) => return Err(CheckEnd::Grammar { line: read + 1 }),
            Err(BadLine::NotEnded) => return Err(CheckEnd::Unended { line: read + 1 }),
        };
        let Ok(()) = reader.take(&record) else {
            return Err(CheckEnd::NoMemory);
        };
        rest = after;
        read += 1;
    }
    Ok(())
}
