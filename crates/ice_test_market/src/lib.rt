//! Tests of sets, fractions, payments, linear programs, certificates and the activity rules. They
//! stand apart so that the crates they try are not proved again with them.
#![tactic(auto)]

#[cfg(test)]
mod certificates;
#[cfg(test)]
mod comparison;
#[cfg(test)]
mod fractions;
#[cfg(test)]
mod payments;
#[cfg(test)]
mod programs;
#[cfg(test)]
mod rules;
#[cfg(test)]
mod sets;
