//! Tests of the checker whose bytes come in pieces, however they are cut. What it answers to whole
//! journals, and to each with one of its lines changed, is shown by the built program (tests/).
#![tactic(auto)]

#[cfg(test)]
mod pieces;
#[cfg(test)]
mod samples;
#[cfg(test)]
mod sessions;
