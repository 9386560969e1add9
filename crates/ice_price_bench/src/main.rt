//! Settles an exchange once in part, and prints what it found and the work that it took, for
//! measuring. The words are a part, `cuts` for prices of the provisional sets by cutting planes,
//! `run` for those of the stated run, `sets` for the provisional sets alone, or `searches` for the
//! best assignment and its regret; the path of an exchange file in JSON; and how many times to do
//! it, once where no number is told.
#![tactic(auto)]

mod measured;
mod provisional;
mod searches;

use crate::measured::{Part, measured};
use ice_read::read_exchange;
use ice_trade::Exchange;
use std::alloc::{AllocError, Global};
use std::env::Env;
use std::{env, fs, io};

// What is printed where the words are others.
const USAGE: &str =
    "words: cuts, run, sets or searches, the path of an exchange file, and how many times";

/// The words behind the program's name.
fn words<R: Env + AllocGlobal>(rt: &R) -> io::Result<Vec<String>> {
    Ok(env::args(rt)?.skip(1).collect(rt.alloc())?)
}

/// The line of the last of so many times.
fn line_of(
    alloc: Global,
    exchange: &Exchange,
    part: Part,
    times: u32,
) -> Result<String, AllocError> {
    for _time in 1..times {
        let _line = measured(alloc, exchange, part)?;
    }
    measured(alloc, exchange, part)
}

fn main(rt: HostRuntime) -> io::Result<()> {
    let words = words(&rt)?;
    let (part, path, times) = match words.as_slice() {
        [part, path] => (part, path, Ok(1)),
        [part, path, times] => (part, path, times.parse()),
        _ => return println!(rt; "{USAGE}"),
    };
    let Some(part) = Part::named(part.as_str()) else {
        return println!(rt; "{USAGE}");
    };
    let Ok(times) = times else {
        return println!(rt; "no number of times");
    };
    let bytes = fs::read(&rt, path.as_str())?;
    let Ok(exchange) = read_exchange(rt.alloc(), bytes.as_slice()) else {
        return println!(rt; "no exchange file");
    };
    match line_of(rt.alloc(), &exchange, part, times) {
        Ok(line) => println!(rt; "{line}"),
        Err(_end) => println!(rt; "no memory is left"),
    }
}
