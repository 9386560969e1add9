//! Journals whose bytes come in pieces, and journals cut after each byte.
ghost use Rattle.std.specs.Prelude.{◌<◌};

use crate::samples::{ASSIGN, NEAR, REGRET, RIVALS};
use crate::sessions::{CORE, NEAR_SESSION, OPEN, REGRETTED, ROUNDS, SESSION};
use ice_check::{Answer, CheckEnd, Checker, Rule, check};
use std::alloc::{AllocError, Global};
use std::test::Fail;

/// The journal of these lines.
fn journal(alloc: Global, lines: &[&str]) -> Result<String, AllocError> {
    let mut journal = String::new(alloc);
    for line in lines {
        journal.push_str(line)?;
        journal.push_str("\n")?;
    }
    Ok(journal)
}

/// What is found of bytes that come in pieces of this size.
fn in_pieces(alloc: Global, bytes: &[u8], size: usize) -> Result<Answer, CheckEnd>
    requires { 0 < size }
{
    let Ok(mut checker) = Checker::new(alloc) else {
        return Err(CheckEnd::NoMemory);
    };
    let mut rest = bytes;
    while rest.len() > size {
        let (piece, after) = rest.split_at(size);
        let Ok(()) = checker.feed(piece) else {
            return Err(CheckEnd::NoMemory);
        };
        rest = after;
    }
    let Ok(()) = checker.feed(rest) else {
        return Err(CheckEnd::NoMemory);
    };
    checker.finish()
}

/// Whether a checker that has taken these bytes is ready.
fn is_ready(alloc: Global, bytes: &[u8]) -> bool {
    let Ok(mut checker) = Checker::new(alloc) else {
        return false;
    };
    let Ok(()) = checker.feed(bytes) else {
        return false;
    };
    checker.ready()
}

/// However a journal is cut, the answer is that to all of its bytes at once.
#[test]
fn pieces_are_answered_as_the_whole(rt: HostRuntime) -> Result<(), Fail> {
    let alloc = rt.alloc();
    let samples: [&[&str]; 10] = [
        &ASSIGN,
        &REGRET,
        &NEAR,
        &RIVALS,
        &SESSION,
        &NEAR_SESSION,
        &CORE,
        &REGRETTED,
        &OPEN,
        &ROUNDS,
    ];
    for lines in samples {
        let text = journal(alloc, lines)?;
        let bytes = text.as_bytes();
        let whole = check(alloc, bytes);
        let same = in_pieces(alloc, bytes, 1) == whole && in_pieces(alloc, bytes, 7) == whole;
        assert!(rt; same, "{text}");
    }
    Ok(())
}

/// A session cut after each byte. Its exchange has seven lines.
#[test]
fn cut_bytes_are_answered(rt: HostRuntime) -> Result<(), Fail> {
    let alloc = rt.alloc();
    let text = journal(alloc, &SESSION)?;
    let bytes = text.as_bytes();
    let mut line = 1u64;
    for (i, byte) in bytes.iter().enumerate() {
        let front = &bytes[..i + 1];
        let found = check(alloc, front);
        if *byte != b'\n' {
            assert!(rt; found == Err(CheckEnd::Unended { line }), "{line}");
        } else if line < 29 {
            line = line.saturating_add(1);
            let short = Answer::No {
                line,
                rule: Rule::Short,
            };
            assert!(rt; found == Ok(short), "{line}");
        }
        assert!(rt; is_ready(alloc, front) == (line > 8), "{line}");
    }
    Ok(())
}

/// A line that is no record is a fault as soon as it ends, and no later one takes its place; so is
/// one that is longer than any record.
#[test]
fn lines_at_fault_are_answered(rt: HostRuntime) -> Result<(), Fail> {
    let alloc = rt.alloc();
    let faults: [(&[u8], Result<Answer, CheckEnd>, bool); 6] = [
        (b"", Err(CheckEnd::OtherKind), false),
        (b"ice 1 prices\n", Err(CheckEnd::OtherKind), true),
        (b"ice 1 session", Err(CheckEnd::Unended { line: 1 }), false),
        (
            b"ice 1 session\nset 2\n",
            Err(CheckEnd::Grammar { line: 2 }),
            true,
        ),
        (b"\nset 2\nset", Err(CheckEnd::Grammar { line: 1 }), true),
        (b"set 1\nset", Err(CheckEnd::Unended { line: 2 }), true),
    ];
    for (bytes, found, ready) in faults {
        assert!(rt; check(alloc, bytes) == found);
        assert!(rt; in_pieces(alloc, bytes, 1) == found);
        assert!(rt; is_ready(alloc, bytes) == ready);
    }
    let mut long = String::from_str(alloc, "set ")?;
    for _bit in 0..9000u16 {
        long.push_str("0")?;
    }
    let begun = Err(CheckEnd::Unended { line: 1 });
    assert!(rt; in_pieces(alloc, long.as_bytes(), 7) == begun);
    long.push_str("\n")?;
    let fault = Err(CheckEnd::Grammar { line: 1 });
    assert!(rt; in_pieces(alloc, long.as_bytes(), 7) == fault);
    Ok(())
}
