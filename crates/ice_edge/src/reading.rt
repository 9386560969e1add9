//! What is left of a reader, up to a limit.
ghost use Rattle.std.specs.Prelude.{◌≡◌, ◌≤◌, ◌<◌, length, IfOk, IfSome, IsErrOf};

use crate::FetchFault;
use std::alloc::Global;
use std::io::{ErrorKind, Read};

/// A reader's bytes find so much room at first, which spares growing. It pays twice: the C library
/// gives freed memory back to the system beyond twice the largest block that was given back so, and
/// so a session's searches, which take and free some hundred thousand bytes each, find that memory
/// again.
const FIRST_ROOM: usize = 1_048_576;

/// All bytes that are left of a reader, of which there are at most `limit`. It reads one byte more
/// than the limit at most, and `TooLong` says that there is one.
pub(crate) fn read_rest<F: Read + Drop>(
    alloc: Global,
    file: F,
    limit: usize,
) -> Result<Vec<u8>, FetchFault>
    ensures bytes { IfOk result (λ bytes. IfSome (F.remaining file) (λ left. bytes.items ≡ left)) }
    ensures within { IfOk result (λ bytes. length bytes.items ≤ limit) }
    ensures too_long { IsErrOf result FetchFault.TooLong
        → IfSome (F.remaining file) (λ left. limit < length left) }
{
    let most = (limit as u64).saturating_add(1);
    let mut bytes = Vec::with_capacity(alloc, FIRST_ROOM.min(limit.saturating_add(1)))?;
    match file.take(most).read_to_end(&mut bytes) {
        Ok(_) if bytes.len() > limit => Err(FetchFault::TooLong),
        Ok(_) => Ok(bytes),
        Err(error) if error.kind() == ErrorKind::OutOfMemory => Err(FetchFault::NoMemory),
        Err(_) => Err(FetchFault::Failed),
    }
}
