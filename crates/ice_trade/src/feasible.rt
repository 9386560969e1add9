//! Whether the units of an assignment balance.
ghost use Rattle.std.specs.Prelude.{◌≤◌, ◌<◌, ℕ, length, MatchOption};
ghost use Rattle.ice_defs.specs.Set.{weight_of};
ghost use Rattle.ice_trade.specs.Excess.{IsBalanced, IsExcess};

use crate::faults::TradeFault;
use ice_tree::{TotalUnits, is_covered};

/// The least good whose units don't balance.
pub(crate) fn first_excess(units: &TotalUnits, exact: &[bool]) -> Option<TradeFault>
    requires { length exact.now ≤ 32 }
    ensures { MatchOption result ((g : ℕ) → g < length exact.now
        → IsBalanced exact.now (weight_of units.now) g)
        (λ f. IsExcess exact.now (weight_of units.now) f.good f.excess) }
{
    for (good, exact) in exact.iter().enumerate() {
        let excess = units.get(good as u8);
        if !is_covered(*exact, excess) {
            return Some(TradeFault {
                good: good as u8,
                excess,
            });
        }
    }
    None
}
