//! Tests of what no command prints: the section of an exchange taken record by record, what trades
//! are worth in the trees of flat bids, files and output in memory, writers that come short, and
//! the printed texts of faults, each written by hand. What files are read as, and the first fault
//! of each, is shown by the built program (tests/).
#![tactic(auto)]

#[cfg(test)]
mod edge;
#[cfg(test)]
mod file_texts;
#[cfg(test)]
mod packages;
#[cfg(test)]
mod section;
#[cfg(test)]
mod texts;
