//! Runs a stated number of calls of the inner operations, and prints a checksum of their results,
//! for measuring. The words are a name, `best`, `add`, `mul`, `cmp` or `read`, and the number of
//! calls. `read` prints the bytes of the lines that it read. `solve` solves so many large linear
//! programs, and prints the pivots too; `programs` prints so many small ones, each with its answer.
#![tactic(auto)]

mod draws;
mod fractions;
mod full;
mod records;
mod sets;
mod small;

use crate::draws::Draws;
use std::env::Env;
use std::{env, io};

// What is printed where the words are others.
const USAGE: &str = "words: best, add, mul, cmp, read, solve or programs, and a number of calls";

/// The words behind the program's name.
fn words<R: Env + AllocGlobal>(rt: &R) -> io::Result<Vec<String>> {
    Ok(env::args(rt)?.skip(1).collect(rt.alloc())?)
}

/// The checksum of so many calls of the operation with this name; None where there is no such
/// operation.
fn checksum(name: &str, calls: u32) -> Option<u64> {
    match name {
        "best" => Some(sets::best_calls(calls)),
        "add" => Some(fractions::additions(calls)),
        "mul" => Some(fractions::multiplications(calls)),
        "cmp" => Some(fractions::comparisons(calls)),
        "read" => Some(records::bytes_read(calls)),
        _ => None,
    }
}

/// Solves so many large programs, and prints a checksum of the answers and the pivots made.
fn print_solved<R: Print + AllocGlobal>(rt: &R, programs: u32) -> io::Result<()> {
    match full::solved(rt.alloc(), programs) {
        Ok((sum, pivots)) => println!(rt; "{sum} {pivots}"),
        Err(end) => println!(rt; "{end}"),
    }
}

/// Draws and solves so many small programs, and prints each with its answer on a line.
fn print_programs<R: Print + AllocGlobal>(rt: &R, programs: u32) -> io::Result<()> {
    let mut draws = Draws::new(1);
    for _program in 0..programs {
        match small::line_of_one(rt.alloc(), &mut draws) {
            Ok(line) => println!(rt; "{line}")?,
            Err(end) => println!(rt; "{end}")?,
        }
    }
    Ok(())
}

fn main(rt: HostRuntime) -> io::Result<()> {
    let words = words(&rt)?;
    let [name, calls] = words.as_slice() else {
        return println!(rt; "{USAGE}");
    };
    let Ok(calls) = calls.parse::<u32>() else {
        return println!(rt; "{USAGE}");
    };
    match name.as_str() {
        "solve" => print_solved(&rt, calls),
        "programs" => print_programs(&rt, calls),
        name => match checksum(name, calls) {
            Some(sum) => println!(rt; "{sum}"),
            None => println!(rt; "{USAGE}"),
        },
    }
}
