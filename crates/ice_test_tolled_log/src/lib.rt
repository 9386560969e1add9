//! Tests of logs whose leaves have tolls, in the market of pairs, whose derived good has a toll of
//! 10. Numbers of leaves are in 4096ths.
#![tactic(auto)]

#[cfg(test)]
mod pairs;
