//! Tests of best sets, sweeps, logs, derived goods, heuristics, duals and plans. They stand apart
//! so that the crates they try are not proved again with them. Bounds by goods alone are tried by
//! logs, as rows of `check`.
#![tactic(auto)]

#[cfg(test)]
mod best_sets;
#[cfg(test)]
mod duals;
#[cfg(test)]
mod heuristics;
#[cfg(test)]
mod logs;
#[cfg(test)]
mod pairs;
#[cfg(test)]
mod plans;
#[cfg(test)]
mod sweeps;
