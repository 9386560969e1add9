//! The journal of a regret, put line by line as it is found.
ghost use Rattle.std.specs.Prelude.{◌≡◌, ◌≤◌, [], length, MatchResult};
ghost use Rattle.ice_defs.specs.Exchange.{exact_of, opening_bounds};
ghost use Rattle.ice_defs.specs.Lawful.{IsExchange};
ghost use Rattle.ice_edge.specs.Puts.{IsPut};
ghost use Rattle.ice_journal.specs.Journal.{bytes_of};
ghost use Rattle.ice_regret.specs.Regretted.{IsRegretOf, rival_search};
ghost use Rattle.ice_search.specs.Results.{IsSpentBy};
ghost use Rattle.ice_write_session.specs.Writable.{IsWritableRegret};
ghost use Rattle.ice_command_parts.specs.Journals.{WritesBehind};
ghost use Rattle.ice_commands.specs.RegretJournal.{begun_records, ending_records, IsFinal, IsRegretJournal};

use ice_command_parts::ended;
use ice_edge::{Sink, SinkFault, Status};
use ice_journal::{EndWord, Kind, Line, Version};
use ice_regret::{Regret, best_at_lower_values, regret_among_ties};
use ice_search::{Found, SearchEnd, Spent};
use ice_trade::Exchange;
use ice_write::{put_record, put_section};
use ice_write_session::{put_final, put_regret, put_spent};
use std::alloc::Global;

/// Puts the head and the exchange.
fn put_begin<K: Sink>(exchange: &Exchange, out: &mut K) -> Result<(), SinkFault>
    ensures { IsPut (bytes_of (begun_records exchange.now)) result
        (K.taken out.old) (K.taken out.new) }
{
    let head = Line::Head {
        version: Version::Two,
        kind: Kind::Regret,
    };
    put_record(&head, out)?;
    put_section(exchange, out)
}

/// Puts the group of the rival, the regret and the end.
fn put_ending<K: Sink>(exchange: &Exchange, regret: &Regret, out: &mut K) -> Result<(), SinkFault>
    requires { IsWritableRegret (length (exact_of exchange.now)) regret.now }
    ensures { IsPut (bytes_of (ending_records exchange.now regret.now)) result
        (K.taken out.old) (K.taken out.new) }
{
    put_regret(exchange, regret, out)?;
    put_record(&Line::End(EndWord::Regret), out)
}

/// Writes the final group, and behind it the rival, the regret and the end, or what was found of
/// the rival where its search spent the branches.
fn write_with_rival<K: Sink>(
    exchange: &Exchange,
    found: &Found,
    branches: u32,
    rival: &Result<Regret, Spent>,
    out: &mut K,
) -> Status
    requires lawful { IsExchange exchange.now }
    requires found { IsFinal exchange.now branches found.now }
    requires rival { MatchResult rival.now
        (IsRegretOf exchange.now (opening_bounds exchange.now) found.now.best)
        (IsSpentBy (rival_search exchange.now (opening_bounds exchange.now) found.now.best)
        branches) }
    ensures { WritesBehind (begun_records exchange.now) (IsRegretJournal exchange.now)
        (K.taken out.old) (K.taken out.new) result }
{
    match put_final(exchange, found, out) {
        Ok(()) => match rival {
            Ok(regret) => ended(put_ending(exchange, regret, out), Status::Done),
            Err(spent) => ended(put_spent(exchange, spent, out), Status::Spent),
        },
        Err(SinkFault::Failed) => Status::WriteFault,
    }
}

/// Writes what comes behind the exchange, where the best assignment was found: which of the best
/// ones is final is known with its regret.
fn write_found<K: Sink>(
    alloc: Global,
    exchange: &Exchange,
    mut found: Found,
    branches: u32,
    out: &mut K,
) -> Status
    requires lawful { IsExchange exchange.now }
    requires found { IsFinal exchange.now branches found }
    ensures { WritesBehind (begun_records exchange.now) (IsRegretJournal exchange.now)
        (K.taken out.old) (K.taken out.new) result }
{
    let mut left = branches;
    match regret_among_ties(alloc, exchange, exchange.bounds(), &mut found, &mut left) {
        Ok(regret) => write_with_rival(exchange, &found, branches, &Ok(regret), out),
        Err(SearchEnd::Spent(spent)) => {
            write_with_rival(exchange, &found, branches, &Err(spent), out)
        }
        Err(SearchEnd::NoMemory) => Status::NoMemory,
    }
}

/// How many branches the settings allow.
fn branches_of(exchange: &Exchange) -> u32
    ensures value { result ≡ exchange.now.settings.branches }
    ensures fits { result ≤ 50000 }
{
    exchange.settings().branches
}

/// Writes what comes behind the exchange.
fn write_final<K: Sink>(alloc: Global, exchange: &Exchange, out: &mut K) -> Status
    requires { IsExchange exchange.now }
    ensures { WritesBehind (begun_records exchange.now) (IsRegretJournal exchange.now)
        (K.taken out.old) (K.taken out.new) result }
{
    let mut branches = branches_of(exchange);
    match best_at_lower_values(alloc, exchange, exchange.bounds(), &mut branches) {
        Ok(found) => write_found(alloc, exchange, found, branches, out),
        Err(SearchEnd::Spent(spent)) => ended(put_spent(exchange, &spent, out), Status::Spent),
        Err(SearchEnd::NoMemory) => Status::NoMemory,
    }
}

/// Writes the journal: the exchange, the best assignment at lower values, its rival and the regret.
/// Of best ones that are worth the same, a settlement's is shown. Each line is put as soon as it is
/// known. Where a search spends its branches, the journal says so
/// and ends.
pub fn write_regret<K: Sink>(alloc: Global, exchange: &Exchange, out: &mut K) -> Status
    ensures journal { WritesBehind [] (IsRegretJournal exchange.now)
        (K.taken out.old) (K.taken out.new) result }
    ensures lawful { IsExchange exchange.now }
{
    let _bidders = exchange.bidders();
    match put_begin(exchange, out) {
        Ok(()) => write_final(alloc, exchange, out),
        Err(SinkFault::Failed) => Status::WriteFault,
    }
}
