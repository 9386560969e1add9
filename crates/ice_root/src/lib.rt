//! Derived goods at the root of a search, found in rounds: each solves the dual with those at hand,
//! and adds some that the shares of nodes violate there. Each one that stays follows; which ones
//! are found, and how far the dual falls, is a heuristic. No part of the program uses it yet.
#![tactic(auto)]

mod closing;
mod stock;

pub use closing::close_root;
