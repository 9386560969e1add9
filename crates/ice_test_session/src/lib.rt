//! Tests of searches and regrets of worked exchanges, of
//! certificates of prices, and of both ways to
//! prices. What a session prints is shown by the built program (tests/).
#![tactic(auto)]

#[cfg(test)]
mod markets;
#[cfg(test)]
mod outcome;
#[cfg(test)]
mod prices;
#[cfg(test)]
mod regrets;
#[cfg(test)]
mod searches;
#[cfg(test)]
mod taken;
#[cfg(test)]
mod ways;
