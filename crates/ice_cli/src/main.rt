//! The program of the exchange: its words are answered by `serve`.
#![tactic(auto)]

pub mod laws;
mod serve;

use ice_edge::{DirShelf, Status, StdSink};
use std::process::ExitCode;

fn main(rt: HostRuntime) -> ExitCode {
    let Ok(all) = ice_words::words::all_words(&rt) else {
        return ExitCode::from(Status::NoMemory.code());
    };
    let words = ice_words::words::behind_name(&all);
    let mut shelf = DirShelf::new(&rt);
    let mut out = StdSink::new(&rt);
    let status = serve::serve(rt.alloc(), words, &mut shelf, &mut out);
    ExitCode::from(status.code())
}
