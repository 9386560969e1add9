//! The reading of records.
use ice_journal::{Room, read_record};

/// Lines of the kinds that long journals have most of.
const LINES: [&[u8]; 6] = [
    b"node buy 11 3 -1234567 89012345",
    b"set 110100101110010100111010110100101110010100111010",
    b"leaf 640 0 1280 -576 36028797018963968 12345 0 0 77 640 12 9",
    b"near 3 0 640 5 -576 11 123456",
    b"branch 12 143",
    b"submit trader-7 4 10 -20 30 999999999 4 15 -10 30 1000000000",
];

/// The bytes of so many lines, each of which is read as a record.
pub fn bytes_read(calls: u32) -> u64 {
    let mut room = Room::new();
    let mut total = 0u64;
    for call in 0..calls {
        let line = LINES[call as usize % 6];
        if read_record(line, &mut room).is_some() {
            total = total.wrapping_add(line.len() as u64 + 1);
        }
    }
    total
}
