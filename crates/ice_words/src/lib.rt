//! The words that the program is called with, and the command that they are.
#![tactic(auto)]

pub mod command;
pub mod words;
