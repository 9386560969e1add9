//! The final sets of a settlement and their regret.
ghost use Rattle.std.specs.Prelude.{◌≤◌, ◌∷◌, ◌++◌, [], length, pos};
ghost use Rattle.ice_defs.specs.Exchange.{exact_of, IsBetween};
ghost use Rattle.ice_edge.specs.Puts.{IsPut};
ghost use Rattle.ice_journal.specs.Records as line;
ghost use Rattle.ice_journal.specs.Journal.{bytes_of};
ghost use Rattle.ice_settled.specs.Shown.{settlement_of};
ghost use Rattle.ice_write_session.specs.Records.{rival_records, regret_records};
ghost use Rattle.ice_write_session.specs.Writable.{IsWritableRegret, IsWritableSettlement};

use crate::group::{put_final, put_rival};
use crate::record::{put_line, put_settle};
use ice_edge::{Sink, SinkFault};
use ice_journal::Line;
use ice_regret::Regret;
use ice_search::Found;
use ice_trade::Exchange;

/// Puts the amount of a regret.
fn put_amount<K: Sink>(regret: &Regret, out: &mut K) -> Result<(), SinkFault>
    requires { IsBetween (pos 0) (pos 400000000000000) regret.now.amount }
    ensures { IsPut (bytes_of (line.regret regret.now.amount ∷ [])) result
        (K.taken out.old) (K.taken out.new) }
{
    let amount = regret.amount as i64;
    put_line(&Line::Regret { amount }, out)
}

/// Puts the group of the rival, and the regret.
pub fn put_regret<K: Sink>(
    exchange: &Exchange,
    regret: &Regret,
    out: &mut K,
) -> Result<(), SinkFault>
    requires { IsWritableRegret (length (exact_of exchange.now)) regret.now }
    ensures { IsPut
        (bytes_of (rival_records exchange.now regret.now ++ line.regret regret.now.amount ∷ []))
        result (K.taken out.old) (K.taken out.new) }
{
    put_rival(exchange, regret, out)?;
    put_amount(regret, out)
}

/// Puts the number of a settlement, the group of its final sets, that of their rival, and the
/// regret. All numbers are in the ranges of their records. It takes no memory.
pub fn put_settlement<K: Sink>(
    exchange: &Exchange,
    number: u8,
    best: &Found,
    regret: &Regret,
    out: &mut K,
) -> Result<(), SinkFault>
    requires number { number ≤ 20 }
    requires written { IsWritableSettlement (length (exact_of exchange.now))
        (settlement_of best.now regret.now) }
    ensures { IsPut
        (bytes_of (line.settle number ∷ regret_records exchange.now best.now regret.now)) result
        (K.taken out.old) (K.taken out.new) }
{
    put_settle(number, out)?;
    put_final(exchange, best, out)?;
    put_regret(exchange, regret, out)
}
