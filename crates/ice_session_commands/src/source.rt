//! Where the bids of a session's rounds come from.
ghost use Rattle.std.specs.Prelude.{◌≡◌, ◌≤◌, ◌∷◌, ℕ, List, map, string_bytes, IfOk, IfErr, OnOk};
ghost use Rattle.ice_edge.specs.Told.{IsLater};
ghost use Rattle.ice_journal.specs.Records as line;
ghost use Rattle.ice_journal.specs.Records.{open_end};
ghost use Rattle.ice_journal.specs.Spelling.{line_of};
ghost use Rattle.ice_journal.specs.Journal.{bytes_of};
ghost use Rattle.ice_command_parts.specs.Files.{HoldsBids};
ghost use Rattle.ice_command_parts.specs.Keeping.{KeepsTold};
ghost use Rattle.ice_command_parts.specs.Parts.{IsSaid};
ghost use Rattle.ice_session_commands.specs.NoBids.{stop_records, stop_status};
ghost use Rattle.ice_session_commands.specs.Sources.{MayGive, Gives};
ghost use Rattle.ice_session_commands.specs.SessionSteps.{EndsInRound, LacksFile};

use ice_command_parts::{Refusal, ended, read_round};
use ice_edge::{Shelf, Sink, Status};
use ice_journal::{EndWord, Line};
use ice_round::InRound;
use ice_simulation::proxy_bids;
use ice_terms::Bid;
use ice_write::put_record;
use std::alloc::Global;

/// Where the bids of a session's rounds come from.
#[derive(Clone, Copy)]
pub enum Source<'a> {
    /// Round files of these names, one for each round: where none is left, the session stays open.
    Files(&'a [String]),
    /// Proxies of all bidders, which know the true values that these bids say.
    Proxies(&'a [Bid]),
}

/// Why a source has no bids for a round.
#[derive(Drop)]
pub enum NoBids {
    /// No file is left for it.
    NoFile,
    /// The file that stands next isn't had, or memory ran out.
    Refused(Refusal),
}

/// Puts that no further round file is there.
fn stay_open<K: Sink>(out: &mut K) -> Status
    ensures { IsSaid (line_of (line.end open_end)) Status.StillOpen
        (K.taken out.old) (K.taken out.new) result }
{
    ended(
        put_record(&Line::End(EndWord::Open), out),
        Status::StillOpen,
    )
}

impl NoBids {
    /// Puts the record that ends the journal in the round, and ends with its status, or with
    /// `WriteFault` where the sink fails. At want of memory nothing is put.
    pub fn say<K: Sink>(&self, out: &mut K) -> Status
        ensures { IsSaid (bytes_of (stop_records self.now)) (stop_status self.now)
            (K.taken out.old) (K.taken out.new) result }
    {
        match self {
            NoBids::NoFile => stay_open(out),
            NoBids::Refused(refusal) => refusal.say(out),
        }
    }
}

/// The bids of the file that stands next, and the files behind it; or why there are none.
#[tactic(none)]
fn file_bids<'a, H: Shelf>(
    alloc: Global,
    names: &'a [String],
    round: &InRound,
    shelf: &mut H,
) -> Result<(Vec<Bid>, &'a [String]), NoBids>
    requires { round.now.number ≤ 19 }
    ensures bids { IfOk result (λ two. (name : List ℕ)
        × (map string_bytes names.now ≡ name ∷ map string_bytes two.1.now)
        × HoldsBids (H.told shelf.old) name two.0.items) }
    ensures ended { IfErr result
        (LacksFile (map string_bytes names.now) round.now (H.told shelf.old) (H.told shelf.new)) }
    ensures kept { OnOk result (H.told shelf.new ≡ H.told shelf.old) }
    ensures kept_at_end { IfErr result (λ none.
        KeepsTold (H.told shelf.old) (H.told shelf.new) (stop_status none)) }
    ensures later { IsLater (H.told shelf.old) (H.told shelf.new) }
{
    let (name, left) = match names.split_first() {
        Some(two) => two,
        None => return Err(NoBids::NoFile),
    };
    match read_round(alloc, round.number() + 2, name.as_str(), shelf) {
        Ok(bids) => Ok((bids, left)),
        Err(refusal) => Err(NoBids::Refused(refusal)),
    }
}

/// The bids that the source gives for the round, and what is left of it then; or why it gives none.
#[tactic(none)]
pub fn round_bids<'a, H: Shelf>(
    alloc: Global,
    source: Source<'a>,
    round: &InRound,
    shelf: &mut H,
) -> Result<(Vec<Bid>, Source<'a>), NoBids>
    requires { MayGive source round.now }
    ensures bids { IfOk result (λ two.
        Gives source.entry (H.told shelf.old) round.now two.0.items two.1) }
    ensures ended { IfErr result
        (EndsInRound source.entry round.now (H.told shelf.old) (H.told shelf.new)) }
    ensures kept { OnOk result (H.told shelf.new ≡ H.told shelf.old) }
    ensures kept_at_end { IfErr result (λ none.
        KeepsTold (H.told shelf.old) (H.told shelf.new) (stop_status none)) }
    ensures later { IsLater (H.told shelf.old) (H.told shelf.new) }
{
    match source {
        Source::Files(names) => match file_bids(alloc, names, round, shelf) {
            Ok(two) => Ok((two.0, Source::Files(two.1))),
            Err(none) => Err(none),
        },
        Source::Proxies(truths) => match proxy_bids(alloc, round, truths) {
            Ok(bids) => Ok((bids, source)),
            Err(_) => Err(NoBids::Refused(Refusal::NoMemory)),
        },
    }
}
