//! The run of the fairness stage.
ghost use Rattle.std.specs.Prelude.{IfOk, IfErr};
ghost use Rattle.ice_fair_laws.specs.FairRun.{fairness_at};
ghost use Rattle.ice_fair_stage.specs.Paid.{ArePayments, HasAccurate};
ghost use Rattle.ice_fair_stage.specs.Ends.{IsStatedEnd, IsFairEnd, IsFairStop};
ghost use Rattle.ice_turns.specs.Stages.{IsSizedStage};
ghost use Rattle.ice_turns.specs.Works.{IsMoreWork, HasTurns};

use crate::ends::{FairLimit, FairStageEnd, FairStop};
use crate::stage::Stage;
use crate::turn::take_turns;
use ice_frac::Frac;
use ice_pricing::Provisional;
use ice_turns::{RunWork, Stop};
use std::alloc::Global;

/// Of the prices that are accurate for the sets of a trade, those that come nearest to what its
/// bidders pay, by the stated run of the fairness stage. Accurate prices have the violation `delta`
/// over `den`; `cut` is a multiple of the payments' denominators, at most 1,000.
///
/// `Limit` comes where the run ends at a limit: a program is too wide or takes too many pivots, 200
/// sets don't suffice, the prices' denominator is above 2^32, or that of the certificate, or one of
/// its numbers, above 2^24. `NoMemory` comes at any time. What it takes is added to `work`: neither
/// count falls, and prices come with at least one turn.
pub fn run_fair_stage(
    alloc: Global,
    trade: &Provisional<'_>,
    payments: &[Frac],
    cut: u16,
    delta: i128,
    den: u64,
    work: &mut RunWork,
) -> Result<FairStageEnd, FairStop>
    requires payments { ArePayments trade.now cut payments.now }
    requires accurate { HasAccurate trade.now payments.now delta den }
    requires sized { IsSizedStage (fairness_at delta den) }
    // On success
    ensures stated { IfOk result (IsStatedEnd trade.now payments.now cut delta den) }
    ensures fair { IfOk result (IsFairEnd trade.now payments.now cut delta den) }
    // At a limit
    ensures stopped { IfErr result (IsFairStop trade.now payments.now cut delta den) }
    // What it took
    ensures work { IsMoreWork work.old work.new }
    ensures turns { IfOk result (λ _. HasTurns 1 work.old work.new) }
{
    let _goods = trade.goods();
    let at = Stage {
        payments,
        cut,
        delta,
        den,
    };
    let mut pool = Vec::new(alloc);
    match take_turns(alloc, trade, &at, &mut pool, work) {
        Ok(found) => Ok(FairStageEnd {
            pool,
            prices: found.prices,
            violation: found.violation,
            distance: found.distance,
            certificate: found.certificate,
        }),
        Err(Stop::AtLimit(kind)) => Err(FairStop::Limit(FairLimit {
            kind,
            delta,
            den,
            pool,
        })),
        Err(Stop::WithoutMemory) => Err(FairStop::NoMemory),
    }
}
