//! Programs that are solved, with the pivots counted.
ghost use Rattle.std.specs.Prelude.{◌≡◌, IfOk, IfErr};
ghost use Rattle.ice_defs.specs.Program.{IsInfeasible};
ghost use Rattle.ice_turns.specs.Solutions.{IsAtEnd, IsStopOf};
ghost use Rattle.ice_turns.specs.Works.{saturating_sum, IsMoreWork};

use crate::ends::Stop;
use crate::work::RunWork;
use ice_defs::LimitKind;
use ice_frac::Frac;
use ice_lp::{LpAnswer, LpEnd, Program, solve};
use std::alloc::Global;

/// The least point of a program, one number a column, and its duals, one a row.
#[derive(Drop)]
pub struct Solution {
    /// The least point.
    pub point: Vec<Frac>,
    /// The duals.
    pub duals: Vec<Frac>,
}

/// What stops a run where a program has no answer.
fn stop_of(end: LpEnd) -> Stop
    ensures wide { end ≡ LpEnd.Wide → result ≡ Stop.AtLimit LimitKind.Wide }
    ensures pivots { end ≡ LpEnd.Pivots → result ≡ Stop.AtLimit LimitKind.Pivots }
    ensures memory { end ≡ LpEnd.NoMemory → result ≡ Stop.WithoutMemory }
{
    match end {
        LpEnd::Wide => Stop::AtLimit(LimitKind::Wide),
        LpEnd::Pivots => Stop::AtLimit(LimitKind::Pivots),
        LpEnd::NoMemory => Stop::WithoutMemory,
    }
}

/// Solves a program that has a feasible point, and counts that as a turn. It stops where an
/// operation of its trace is too wide, or where the trace takes more than 2,000 pivots.
pub fn solve_turn(alloc: Global, program: &Program, work: &mut RunWork) -> Result<Solution, Stop>
    requires { ¬ IsInfeasible program.now }
    ensures solved { IfOk result (λ s. IsAtEnd program.now s.point.items s.duals.items) }
    ensures stopped { IfErr result (IsStopOf program.now) }
    ensures turn { work.new.turns ≡ saturating_sum work.old.turns 1 }
    ensures work { IsMoreWork work.old work.new }
{
    let mut pivots = 0;
    let solved = solve(alloc, program, &mut pivots);
    work.add_turn(pivots);
    let answer = match solved {
        Ok(answer) => answer,
        Err(end) => return Err(stop_of(end)),
    };
    match answer {
        LpAnswer::Least { point, duals } => Ok(Solution { point, duals }),
        LpAnswer::Infeasible { .. } => unreachable!(),
    }
}
