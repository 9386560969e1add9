//! The words that the program is called with.
ghost use Rattle.std.specs.Prelude.{◌≡◌, drop};

use std::env::Env;
use std::io::ErrorKind;
use std::{env, io};

/// All words but the first, which is the program's name, in order.
pub fn behind_name(all: &[String]) -> &[String]
    ensures { result.now ≡ drop 1 all.now }
{
    match all.split_first() {
        Some((_name, words)) => words,
        None => all,
    }
}

/// All words, the program's name first. A word that is no text stands in none of the forms that
/// words have, so there are none then, which are refused.
pub fn all_words<R: Env + AllocGlobal>(rt: &R) -> io::Result<Vec<String>> {
    match env::args(rt) {
        Ok(all) => Ok(all.collect(rt.alloc())?),
        Err(error) if error.kind() == ErrorKind::InvalidData => Ok(Vec::new(rt.alloc())),
        Err(error) => Err(error),
    }
}
