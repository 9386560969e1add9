//! The top call: it answers the words of the program.
ghost use Rattle.std.specs.Prelude.{ℕ, List, map, string_bytes};
ghost use Rattle.ice_edge.specs.Edge.{Appends};
ghost use Rattle.ice_command_parts.specs.Lines.{words_line};
ghost use Rattle.ice_command_parts.specs.Keeping.{KeepsTold};
ghost use Rattle.ice_command_parts.specs.Parts.{IsSaid};
ghost use Rattle.ice_cli.specs.Served.{IsServed};

use ice_command_parts::ended;
use ice_commands::audit::audit;
use ice_commands::best::best;
use ice_commands::check::check;
use ice_commands::fair::fair;
use ice_commands::gap::gap;
use ice_commands::migrate::migrate;
use ice_commands::regret::regret;
use ice_commands::replay::replay;
use ice_commands::statement::statement;
use ice_commands::xor::xor;
use ice_edge::{Shelf, Sink, Status};
use ice_session_commands::generated::generated;
use ice_session_commands::run::run;
use ice_session_commands::simulate::simulate;
use ice_words::command::{Command, command_in};
use std::alloc::Global;

/// Refuses the words.
fn refuse_words<K: Sink>(out: &mut K) -> Status
    ensures { IsSaid words_line Status.Words (K.taken out.old) (K.taken out.new) result }
{
    ended(out.put(b"words refused\n"), Status::Words)
}

/// Answers the words behind the program's name: `check JOURNAL` writes the checker's answer on a
/// journal, `best EXCHANGE PRICES` writes the best set of each bidder at prices, `regret EXCHANGE`
/// writes a journal of the best assignment at lower values and its regret, `xor FILE` writes the
/// exchange that flat bids say, as one line of JSON, `replay JOURNAL N` writes what a session says
/// of the settlement with this number, from 0 to 20, `run EXCHANGE ROUND..` writes the journal of a
/// session, whose rounds have the bids of at most 20 files, `gen NUMBER` writes a summary of the
/// session of a generated exchange, `migrate JOURNAL` writes a journal of version 1 in version 2,
/// `simulate EXCHANGE TRUTHS` writes the journal of a session in which each bidder has a proxy that
/// knows its true values, `statement JOURNAL NAME` writes what the journal of a closed session says
/// to the bidder of this name, `audit FILE` writes the audit's answer on such a statement,
/// `fair JOURNAL` writes fair prices of a closed session, and `gap JOURNAL` writes how far from the
/// best the trade may be at which a journal stops whose branches are spent.
///
/// Files come from `shelf`, and output goes to `out`. Each line with its newline is one put, but of
/// `migrate` many lines are, and of a statement's first line each part is: no clause says so. The
/// status says how the call ended, and the first clause ties it to the words, to what the shelf
/// told, to the counts of faults that rose in this call, and to the text that was appended. Want of
/// memory alone (`Status::NoMemory`) has no cause; nothing is written then, or whole lines of a
/// journal with no stop in them, which in a session are whole groups too. At each status but those
/// of a file that is refused or unread, and of a sink that failed, the shelf tells the same after
/// the call as before it: no fetch has failed.
pub fn serve<H: Shelf, K: Sink>(
    alloc: Global,
    words: &[String],
    shelf: &mut H,
    out: &mut K,
) -> Status
    ensures served { (text : List ℕ) × Appends (K.taken out.old).written text (K.taken out.new).written
        × IsServed (record {
          words = map string_bytes words.now;
          before = H.told shelf.old;
          after = H.told shelf.new;
          sink_faults = (K.taken out.old).faults;
          sink_faults_after = (K.taken out.new).faults;
          text = text;
          status = result;
        }) }
    ensures kept { KeepsTold (H.told shelf.old) (H.told shelf.new) result }
{
    match command_in(words) {
        Some(Command::Check { journal }) => check(alloc, journal, shelf, out),
        Some(Command::Best { exchange, prices }) => best(alloc, exchange, prices, shelf, out),
        Some(Command::Regret { exchange }) => regret(alloc, exchange, shelf, out),
        Some(Command::Xor { file }) => xor(alloc, file, shelf, out),
        Some(Command::Replay { journal, number }) => replay(alloc, journal, number, shelf, out),
        Some(Command::Gen { number }) => generated(alloc, number, out),
        Some(Command::Run { exchange, rounds }) => run(alloc, exchange, rounds, shelf, out),
        Some(Command::Migrate { journal }) => migrate(alloc, journal, shelf, out),
        Some(Command::Simulate { exchange, truths }) => {
            simulate(alloc, exchange, truths, shelf, out)
        }
        Some(Command::Statement { journal, name }) => statement(alloc, journal, name, shelf, out),
        Some(Command::Audit { file }) => audit(alloc, file, shelf, out),
        Some(Command::Fair { journal }) => fair(alloc, journal, shelf, out),
        Some(Command::Gap { journal }) => gap(alloc, journal, shelf, out),
        None => refuse_words(out),
    }
}
