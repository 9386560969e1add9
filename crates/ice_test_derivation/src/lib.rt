//! Tests of derivations: a derived good of a market of pairs, record by record, with the groups
//! that use it, and records that are refused. They stand apart so that what they try is not proved
//! again with them.
#![tactic(auto)]

#[cfg(test)]
mod pairs;
