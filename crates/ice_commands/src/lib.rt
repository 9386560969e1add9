//! The commands that answer from given files.
#![tactic(auto)]

mod answer;
pub mod audit;
pub mod best;
mod best_lines;
mod best_set;
pub mod check;
mod ends;
pub mod fair;
mod fair_prices;
pub mod gap;
pub mod migrate;
pub mod regret;
mod regret_journal;
pub mod replay;
pub mod statement;
mod unwritten;
pub mod xor;
