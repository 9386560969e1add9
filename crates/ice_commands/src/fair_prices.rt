//! What `fair` says of the last settlement of a closed session.
ghost use Rattle.ice_frac.specs.Lowest.{IsLowest};
ghost use Rattle.ice_fair.specs.Found.{IsFairFound};
ghost use Rattle.ice_fair.specs.Ends.{IsFairEnd};
ghost use Rattle.ice_fair.specs.declared.ends.FairEnd.{FairEnd};
ghost use Rattle.ice_journal.specs.Journal.{bytes_of};
ghost use Rattle.ice_write_session.specs.Records.{limit_records};
ghost use Rattle.ice_write_fair.specs.Lines.{fair_lines, fair_limit_lines};
ghost use Rattle.ice_commands.specs.FairParts.{HasItsTrees, IsFairSaid};
ghost use Rattle.ice_command_parts.specs.Parts.{IsSaid};

use ice_command_parts::ended;
use ice_edge::{Sink, Status};
use ice_fair::{Fair, FairEnd, FairLimit, Last};
use ice_price::PriceLimit;
use ice_write_fair::{put_fair, put_fair_limit};
use ice_write_session::put_limit;
use std::alloc::Global;

/// Writes fair prices.
fn say_prices<K: Sink>(last: &Last, fair: &Fair, out: &mut K) -> Status
    requires trees { HasItsTrees last.now }
    requires found { IsFairFound last.now fair.now }
    ensures said { IsSaid (fair_lines fair.now) Status.Done
        (K.taken out.old) (K.taken out.new) result }
    ensures lowest { IsLowest fair.now.distance }
{
    // The exchange is lawful, prices are terms, and a distance is in lowest terms.
    let _bidders = last.exchange().bidders();
    let _den = fair.prices.den();
    let _distance = fair.distance.den();
    ended(put_fair(fair, out), Status::Done)
}

/// Writes the limit at which the pricing ended that comes first.
fn say_price_limit<K: Sink>(last: &Last, limit: &PriceLimit, out: &mut K) -> Status
    requires trees { HasItsTrees last.now }
    requires ended { IsFairEnd last.now (FairEnd.Price limit.now) }
    ensures { IsSaid (bytes_of (limit_records limit.now)) Status.Limit
        (K.taken out.old) (K.taken out.new) result }
{
    // The exchange is lawful.
    let _bidders = last.exchange().bidders();
    ended(put_limit(limit, out), Status::Limit)
}

/// Writes the limit at which the fairness stage ended.
fn say_fair_limit<K: Sink>(last: &Last, limit: &FairLimit, out: &mut K) -> Status
    requires trees { HasItsTrees last.now }
    requires ended { IsFairEnd last.now (FairEnd.Limit limit.now) }
    ensures { IsSaid (fair_limit_lines limit.now) Status.Limit
        (K.taken out.old) (K.taken out.new) result }
{
    // The exchange is lawful.
    let _bidders = last.exchange().bidders();
    ended(put_fair_limit(limit, out), Status::Limit)
}

/// Writes fair prices of a last settlement, or the limit at which the search for them ended;
/// nothing at want of memory.
pub(crate) fn say_fair<K: Sink>(alloc: Global, last: &Last, out: &mut K) -> Status
    requires { HasItsTrees last.now }
    ensures { IsFairSaid last.now (K.taken out.old) (K.taken out.new) result }
{
    match ice_fair::fair(alloc, last) {
        Ok(fair) => say_prices(last, &fair, out),
        Err(FairEnd::Price(limit)) => say_price_limit(last, &limit, out),
        Err(FairEnd::Limit(limit)) => say_fair_limit(last, &limit, out),
        Err(FairEnd::NoMemory) => Status::NoMemory,
    }
}
