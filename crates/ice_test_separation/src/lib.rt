//! Tests of derived goods that shares of nodes violate.
#![tactic(auto)]

#[cfg(test)]
mod packages;
#[cfg(test)]
mod pairs;
#[cfg(test)]
mod parts;
