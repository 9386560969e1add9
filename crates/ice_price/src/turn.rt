//! The turns of a stage.
ghost use Rattle.std.specs.Prelude.{◌≡◌, ◌≤◌, ◌*◌, ◌^◌, length, drop, IfOk, IfErr};
ghost use Rattle.ice_defs.specs.Program.{AreNonNegative};
ghost use Rattle.ice_pricing_laws.specs.Weights.{weights_of_duals};
ghost use Rattle.ice_price.specs.Ends.{IsStopped, IsRunStopped};
ghost use Rattle.ice_turns.specs.Large.{AreLarge, IsStoppedBy};
ghost use Rattle.ice_price.specs.Runs.{IsState, IsRunFrom, IsTurn, IsEndWith, IsStageEnd};
ghost use Rattle.ice_turns.specs.Works.{IsMoreWork, HasTurns};

use crate::solution::solve_stage;
use crate::stages::{StageAt, StageEnd};
use crate::weighing::certified;
use ice_frac::Frac;
use ice_pricing::{Provisional, Scratch};
use ice_terms::Prices;
use ice_turns::{PoolMember, RunWork, Step, Stop, next_step};
use std::alloc::Global;

/// What a turn does.
#[derive(Drop)]
pub(crate) enum Turn {
    /// A set is to be added to the pool.
    Adds(PoolMember),
    /// No set is to be added.
    Ends(StageEnd),
}

/// The duals of the pool's members, which stand behind those of the goods.
fn member_duals(duals: &[Frac], goods: usize) -> &[Frac]
    requires { goods ≤ length duals.now }
    ensures { result.now ≡ drop goods duals.now }
{
    duals.split_at(goods).1
}

/// The end of a stage at these prices of this violation, with the certificate that the duals of the
/// pool's members make, times a factor.
fn end_stage(
    alloc: Global,
    factor: u64,
    pool: &[PoolMember],
    duals: &[Frac],
    prices: Prices,
    violation: i128,
) -> Result<Turn, Stop>
    requires few { factor ≤ 100 * 2 ^ 32 }
    requires pool { length pool.now ≤ 200 }
    requires same_length { length duals.now ≡ length pool.now }
    requires low { AreNonNegative duals.now }
    ensures ended { let ws = weights_of_duals factor duals.now in
        IfOk result (IsEndWith pool.now ws prices violation) }
    ensures stopped { IfErr result
        (IsStoppedBy (AreLarge (2 ^ 32) (weights_of_duals factor duals.now))) }
{
    let certificate = certified(alloc, factor, pool, duals)?;
    Ok(Turn::Ends(StageEnd {
        prices,
        violation,
        certificate,
    }))
}

/// The turn of a stage over a pool.
fn take_turn(
    alloc: Global,
    trade: &Provisional<'_>,
    at: &StageAt,
    pool: &[PoolMember],
    scratch: &mut Scratch,
    work: &mut RunWork,
) -> Result<Turn, Stop>
    requires { IsState trade.now at.now pool.now }
    ensures turn { IfOk result (IsTurn trade.now at.now pool.now) }
    ensures stopped { IfErr result (IsStopped trade.now at.now pool.now) }
    ensures work { IsMoreWork work.old work.new }
    ensures counted { IfOk result (λ _. HasTurns 1 work.old work.new) }
{
    let goods = usize::from(trade.goods());
    let solution = solve_stage(alloc, trade, at, pool, work)?;
    let most = at.allowed(&solution.point[goods]);
    match next_step(trade, pool, &solution.point, &most, scratch)? {
        Step::Adds(member) => Ok(Turn::Adds(member)),
        Step::Ends(prices, violation) => end_stage(
            alloc,
            at.weight_factor(),
            pool,
            member_duals(&solution.duals, goods),
            prices,
            violation,
        ),
    }
}

/// Takes turns until no set is to be added to the pool.
pub(crate) fn run_stage(
    alloc: Global,
    trade: &Provisional<'_>,
    at: &StageAt,
    pool: &mut Vec<PoolMember>,
    work: &mut RunWork,
) -> Result<StageEnd, Stop>
    requires { IsState trade.now at.now pool.old.items }
    ensures state { IfOk result (λ _. IsState trade.now at.now pool.new.items) }
    ensures from { IfOk result (λ _. IsRunFrom trade.now at.now pool.old.items pool.new.items) }
    ensures ended { IfOk result (λ end. IsStageEnd trade.now at.now pool.new.items end.prices
        end.violation end.certificate) }
    ensures stopped { IfErr result (IsRunStopped trade.now at.now pool.new.items) }
    ensures work { IsMoreWork work.old work.new }
    ensures counted { IfOk result (λ _. HasTurns 1 work.old work.new) }
{
    let mut scratch = Scratch::new();
    'turns: loop {
        match take_turn(alloc, trade, at, pool, &mut scratch, work)? {
            Turn::Adds(member) => pool.push(member)?,
            Turn::Ends(end) => return Ok(end),
        }
    }
}
