//! Tests of derived goods at the root of a search.
#![tactic(auto)]

#[cfg(test)]
mod pairs;
