//! Tests of what records are read as. How they are spelt, with each field at its limits and past
//! them, is tried over the built program.
#![tactic(auto)]

#[cfg(test)]
mod meanings;
