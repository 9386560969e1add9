//! Files and output in memory, and a sink over writers that take few bytes a call, and fail in
//! mid-stream.
use ice_edge::{FetchFault, MemShelf, MemSink, Shelf, Sink, WriterSink};
use std::alloc::Global;
use std::io;
use std::io::{ErrorKind, Write};
use std::test::Fail;

/// Whether a sink takes the whole piece.
fn takes<K: Sink>(sink: &mut K, piece: &[u8]) -> bool {
    sink.put(piece).is_ok()
}

#[test]
fn third_put_fails_after_two_bytes(rt: HostRuntime) -> Result<(), Fail> {
    let mut sink = MemSink::new(rt.alloc(), 10)?;
    sink.fail_at(3, 2);
    assert!(rt; takes(&mut sink, b"ab"));
    assert!(rt; takes(&mut sink, b"cd"));
    assert!(rt; !takes(&mut sink, b"efg"));
    assert_eq!(rt; sink.bytes(), b"abcdef".as_slice());
    assert!(rt; takes(&mut sink, b"hi"));
    assert!(rt; !takes(&mut sink, b"jkl"));
    assert_eq!(rt; sink.bytes(), b"abcdefhijk".as_slice());
    Ok(())
}

/// How many bytes of a file a shelf gives, or why it gives none.
fn fetched<S: Shelf>(
    alloc: Global,
    shelf: &mut S,
    name: &str,
    limit: usize,
) -> Result<usize, FetchFault> {
    Ok(shelf.fetch(alloc, name, limit)?.len())
}

#[test]
fn fails_where_told_and_at_an_absent_name(rt: HostRuntime) -> Result<(), Fail> {
    let alloc = rt.alloc();
    let mut shelf = MemShelf::new(alloc)?;
    shelf.add("one", b"abc")?;
    shelf.add("two", b"")?;
    shelf.add("one", b"abcd")?;
    shelf.fail_at(2)?;
    let first = shelf.fetch(alloc, "one", 4)?;
    assert_eq!(rt; first.as_slice(), b"abcd".as_slice());
    for (name, limit, due) in [
        ("one", 4, Err(FetchFault::Failed)),
        ("one", 3, Err(FetchFault::TooLong)),
        ("six", 3, Err(FetchFault::Failed)),
        ("two", 0, Ok(0)),
    ] {
        assert_eq!(rt; fetched(alloc, &mut shelf, name, limit), due, "{name}");
    }
    Ok(())
}

/// A writer that takes at most `most` bytes a call, and nothing once it has `room` bytes; or it
/// fails there.
#[derive(Drop)]
struct SlowWriter {
    bytes: Vec<u8>,
    most: usize,
    room: usize,
    fails: bool,
}

impl Write for SlowWriter {
    fn write(&mut self, buf: &[u8]) -> io::Result<usize> {
        let left = self.room.saturating_sub(self.bytes.len());
        if self.fails && left == 0 {
            return Err(io::Error::from(ErrorKind::Other));
        }
        let count = left.min(self.most).min(buf.len());
        self.bytes.extend_from_slice(&buf[..count])?;
        Ok(count)
    }

    fn flush(&mut self) -> io::Result<()> {
        Ok(())
    }
}

/// How many bytes a call are taken, the room, and what stands of two pieces of three bytes then.
const WRITES: [(usize, usize, &str); 6] = [
    (1, 6, "abcdef"),
    (2, 6, "abcdef"),
    (100, 6, "abcdef"),
    (1, 5, "abcde"),
    (100, 2, "ab"),
    (1, 0, ""),
];

#[test]
fn whole_pieces_are_written(rt: HostRuntime) -> Result<(), Fail> {
    for (most, room, stand) in WRITES {
        for fails in [false, true] {
            let bytes = Vec::new(rt.alloc());
            let mut to = SlowWriter {
                bytes,
                most,
                room,
                fails,
            };
            let mut sink = WriterSink::over(&mut to);
            let is_begun = takes(&mut sink, b"abc");
            assert_eq!(rt; is_begun, room >= 3);
            assert!(rt; takes(&mut sink, b""));
            if is_begun {
                assert_eq!(rt; takes(&mut sink, b"def"), room >= 6);
            }
            assert_eq!(rt; to.bytes.as_slice(), stand.as_bytes());
        }
    }
    Ok(())
}
