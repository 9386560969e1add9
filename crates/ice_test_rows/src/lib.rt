//! Tests of duals with derived goods, in the market of pairs. By the good alone a pair and a half
//! is sold: 15, at 5 a unit. With at most one pair it is 10, at a toll of 10. Bounds, multipliers
//! and tolls are in 4096ths.
#![tactic(auto)]

#[cfg(test)]
mod pairs;
