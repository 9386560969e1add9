//! The solution of the fairness stage over a pool.
ghost use Rattle.std.specs.Prelude.{IfOk, IfErr};
ghost use Rattle.ice_fair_stage.specs.Stages.{IsState, IsSolved};
ghost use Rattle.ice_fair_stage.specs.Turns.{IsStopped};
ghost use Rattle.ice_turns.specs.Works.{IsMoreWork, HasTurns};

use crate::program::fair_program;
use crate::stage::Stage;
use ice_pricing::Provisional;
use ice_turns::{PoolMember, RunWork, Solution, Stop, solve_turn};
use std::alloc::Global;

/// Solves the program of the stage over the pool, which is never infeasible.
pub(crate) fn solve_fair(
    alloc: Global,
    trade: &Provisional<'_>,
    at: &Stage<'_>,
    pool: &[PoolMember],
    work: &mut RunWork,
) -> Result<Solution, Stop>
    requires { IsState trade.now at.now pool.now }
    ensures solved { IfOk result (λ s.
        IsSolved trade.now at.now pool.now s.point.items s.duals.items) }
    ensures stopped { IfErr result (IsStopped trade.now at.now pool.now) }
    ensures work { IsMoreWork work.old work.new }
    ensures turn { IfOk result (λ _. HasTurns 1 work.old work.new) }
{
    let _goods = trade.goods();
    let program = fair_program(alloc, trade, at, pool)?;
    solve_turn(alloc, &program, work)
}
