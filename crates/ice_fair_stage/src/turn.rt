//! The turns of the fairness stage.
ghost use Rattle.std.specs.Prelude.{◌≤◌, ◌^◌, length, IfOk, IfErr};
ghost use Rattle.ice_defs.specs.Fraction.{fraction_at};
ghost use Rattle.ice_fair_stage.specs.Certified.{weights_at};
ghost use Rattle.ice_fair_stage.specs.Stages.{IsState, IsSolved};
ghost use Rattle.ice_fair_stage.specs.Turns.{IsEndWith, IsFound, IsTurn, IsStopped, IsRunStopped};
ghost use Rattle.ice_turns.specs.Large.{AreLarge, IsStoppedBy};
ghost use Rattle.ice_turns.specs.Works.{IsMoreWork, HasTurns};

use crate::certificate::FairCertificate;
use crate::certified::certified;
use crate::solution::solve_fair;
use crate::stage::Stage;
use ice_frac::Frac;
use ice_pricing::{Provisional, Scratch};
use ice_terms::Prices;
use ice_turns::{PoolMember, RunWork, Solution, Step, Stop, next_step, over};
use std::alloc::Global;

/// What the stage ends with: prices, their violation times their denominator, their distance from
/// the payments, and the certificate.
#[derive(Drop)]
pub(crate) struct Found {
    pub(crate) prices: Prices,
    pub(crate) violation: i128,
    pub(crate) distance: Frac,
    pub(crate) certificate: FairCertificate,
}

/// What a turn does.
#[derive(Drop)]
pub(crate) enum Turn {
    /// A set is to be added to the pool.
    Adds(PoolMember),
    /// No set is to be added.
    Ends(Found),
}

/// The end of the stage at these prices of this violation, with the distance of a solution and the
/// certificate that its duals make.
fn end_turn(
    alloc: Global,
    trade: &Provisional<'_>,
    at: &Stage<'_>,
    pool: &[PoolMember],
    solution: &Solution,
    prices: Prices,
    violation: i128,
) -> Result<Turn, Stop>
    requires pool { length pool.now ≤ 200 }
    requires den { at.now.den ≤ 2 ^ 32 }
    requires solved { let s = solution.now in
        IsSolved trade.now at.now pool.now s.point.items s.duals.items }
    ensures ended { let t = trade.now in let ws = weights_at t at.now solution.now.duals.items in
        let distance = fraction_at solution.now.point.items t.goods in
        IfOk result (IsEndWith (length t.trees) pool.now ws prices violation distance) }
    ensures stopped { let ws = weights_at trade.now at.now solution.now.duals.items in
        IfErr result (IsStoppedBy (AreLarge (2 ^ 24) ws)) }
{
    let certificate = certified(alloc, trade, at, pool, &solution.duals)?;
    Ok(Turn::Ends(Found {
        prices,
        violation,
        distance: solution.point[usize::from(trade.goods())],
        certificate,
    }))
}

/// The turn of the stage over a pool.
fn take_turn(
    alloc: Global,
    trade: &Provisional<'_>,
    at: &Stage<'_>,
    pool: &[PoolMember],
    scratch: &mut Scratch,
    work: &mut RunWork,
) -> Result<Turn, Stop>
    requires { IsState trade.now at.now pool.now }
    ensures turn { IfOk result (IsTurn trade.now at.now pool.now) }
    ensures stopped { IfErr result (IsStopped trade.now at.now pool.now) }
    ensures work { IsMoreWork work.old work.new }
    ensures counted { IfOk result (λ _. HasTurns 1 work.old work.new) }
{
    let solution = solve_fair(alloc, trade, at, pool, work)?;
    let most = over(at.delta, at.den);
    match next_step(trade, pool, &solution.point, &most, scratch)? {
        Step::Adds(member) => Ok(Turn::Adds(member)),
        Step::Ends(prices, violation) => {
            end_turn(alloc, trade, at, pool, &solution, prices, violation)
        }
    }
}

/// Takes turns until no set is to be added to the pool.
pub(crate) fn take_turns(
    alloc: Global,
    trade: &Provisional<'_>,
    at: &Stage<'_>,
    pool: &mut Vec<PoolMember>,
    work: &mut RunWork,
) -> Result<Found, Stop>
    requires { IsState trade.now at.now pool.old.items }
    ensures state { IfOk result (λ _. IsState trade.now at.now pool.new.items) }
    ensures found { IfOk result (IsFound trade.now at.now pool.new.items) }
    ensures stopped { IfErr result (IsRunStopped trade.now at.now pool.new.items) }
    ensures work { IsMoreWork work.old work.new }
    ensures counted { IfOk result (λ _. HasTurns 1 work.old work.new) }
{
    let mut scratch = Scratch::new();
    'turns: loop {
        match take_turn(alloc, trade, at, pool, &mut scratch, work)? {
            Turn::Adds(member) => pool.push(member)?,
            Turn::Ends(found) => return Ok(found),
        }
    }
}
