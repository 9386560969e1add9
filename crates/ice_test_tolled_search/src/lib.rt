//! Tests of searches whose leaves have tolls.
#![tactic(auto)]

#[cfg(test)]
mod pairs;
