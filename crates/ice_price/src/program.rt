//! The program of a stage over a pool.
ghost use Rattle.std.specs.Prelude.{◌≡◌, ◌<◌, ◌≤◌, ◌+◌, [], ◌∷◌, ◌++◌, length, IfOk, OnOk};
ghost use Rattle.ice_defs.specs.Trade.{tree_of};
ghost use Rattle.ice_pricing_laws.specs.Laws.{AreMembers};
ghost use Rattle.ice_price.specs.Programs.{good_row, member_row, program_over};

use crate::stages::StageAt;
use ice_certificate::worth_above;
use ice_lp::Program;
use ice_pricing::Provisional;
use ice_turns::{PoolMember, last_alone, member_units};
use std::alloc::{AllocError, Global};

/// Adds the row of a good.
fn add_good(
    program: &mut Program,
    alloc: Global,
    trade: &Provisional<'_>,
    at: &StageAt,
    good: u8,
) -> Result<(), AllocError>
    requires few { length program.old.rows < 400 }
    requires columns { length program.old.costs ≡ trade.now.goods + 1 }
    requires good { good < trade.now.goods }
    ensures { let p = program.old in OnOk result (program.new
        ≡ record { costs = p.costs; rows = p.rows ++ good_row trade.now at.now good ∷ [] }) }
{
    let mut coeffs = at.no_price(alloc, trade.goods())?;
    coeffs[usize::from(good)] = -1;
    program.row(&coeffs, at.good_least(trade.cap()))
}

/// Adds the row of a member of the pool.
fn add_member(
    program: &mut Program,
    alloc: Global,
    trade: &Provisional<'_>,
    at: &StageAt,
    member: &PoolMember,
) -> Result<(), AllocError>
    requires few { length program.old.rows < 400 }
    requires columns { length program.old.costs ≡ trade.now.goods + 1 }
    requires bidder { member.now.bidder < length trade.now.trees }
    requires nodes { length member.now.set ≡ length (tree_of trade.now.trees member.now.bidder) }
    ensures { let p = program.old in OnOk result (program.new
        ≡ record {
          costs = p.costs;
          rows = p.rows ++ member_row trade.now at.now member.now ∷ [];
        }) }
{
    let bidder = member.bidder;
    let mut coeffs = member_units(alloc, trade, at.unit_factor(), member)?;
    coeffs.push(at.last_factor())?;
    let worth = worth_above(
        trade.tree(bidder),
        trade.weights(bidder),
        trade.own(bidder),
        &member.set,
    );
    program.row(&coeffs, at.member_least(worth))
}

/// The program of the stage over the pool.
pub(crate) fn stage_program(
    alloc: Global,
    trade: &Provisional<'_>,
    at: &StageAt,
    pool: &[PoolMember],
) -> Result<Program, AllocError>
    requires members { let t = trade.now in AreMembers t.trees t.weights t.sets pool.now }
    requires few { length pool.now ≤ 200 }
    ensures { IfOk result (λ made. made ≡ program_over trade.now at.now pool.now) }
{
    let mut program = Program::new(alloc, &last_alone(alloc, trade.goods())?)?;
    for good in 0..trade.goods() {
        add_good(&mut program, alloc, trade, at, good)?;
    }
    for member in pool {
        add_member(&mut program, alloc, trade, at, member)?;
    }
    Ok(program)
}
