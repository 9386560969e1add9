//! The program of the fairness stage over a pool: a column a good, and one for the distance.
ghost use Rattle.std.specs.Prelude.{◌≡◌, ◌<◌, ◌≤◌, ◌+◌, [], ◌∷◌, ◌^◌, length, All, IfOk, OnOk, vec_len, pos, neg_ℤ, ◌≤ℤ◌};
ghost use Rattle.std.specs.List.{AllByRecursion};
ghost use Rattle.ice_defs.specs.Fraction.{fraction_at};
ghost use Rattle.ice_defs.specs.PricingRun.{num_over};
ghost use Rattle.ice_defs.specs.Trade.{tree_of};
ghost use Rattle.ice_lp.specs.Limits.{IsNumber};
ghost use Rattle.ice_pricing_laws.specs.Laws.{AreMembers};
ghost use Rattle.ice_fair_stage.specs.Paid.{IsShortPayment};
ghost use Rattle.ice_fair_stage.specs.Stages.{IsStage, with_rows, good_row, units_of, set_row, rows_of, row_of, program_over};

use crate::stage::Stage;
use ice_lp::Program;
use ice_pricing::Provisional;
use ice_turns::{PoolMember, last_alone, least_above, member_units, num_over, times_units, zeros};
use std::alloc::{AllocError, Global};

/// Adds the row of a good, whose price is at most the cap.
fn add_good(
    program: &mut Program,
    alloc: Global,
    trade: &Provisional<'_>,
    good: u8,
) -> Result<(), AllocError>
    requires few { length program.old.rows < 400 }
    requires columns { length program.old.costs ≡ trade.now.goods + 1 }
    requires good { good < trade.now.goods }
    ensures { OnOk result (program.new ≡ with_rows program.old (good_row trade.now good ∷ [])) }
{
    let mut coeffs = zeros(alloc, trade.goods())?;
    coeffs[usize::from(good)] = -1;
    program.row(&coeffs, -i128::from(trade.cap()))
}

/// The units of a bidder's own set, good by good, times a factor.
fn own_units(
    alloc: Global,
    trade: &Provisional<'_>,
    factor: i128,
    bidder: u8,
) -> Result<Vec<i128>, AllocError>
    requires bidder { bidder < length trade.now.trees }
    requires low { neg_ℤ (pos 1000) ≤ℤ factor }
    requires high { factor ≤ℤ pos 1000 }
    ensures value { IfOk result (λ made. made.items ≡ units_of trade.now factor bidder) }
    ensures len { IfOk result (λ made. vec_len made ≡ trade.now.goods) }
    ensures sized { IfOk result (λ made. All IsNumber made.items) }
{
    let units = trade.tree(bidder).units(trade.own(bidder));
    let mut made = Vec::new(alloc);
    for good in 0..trade.goods() {
        made.push(times_units(factor, i128::from(units.get(good))))?;
    }
    Ok(made)
}

/// Adds a row of a bidder's own set: its units times a factor, and the distance `cut` times.
fn add_set(
    program: &mut Program,
    alloc: Global,
    trade: &Provisional<'_>,
    bidder: u8,
    cut: u16,
    factor: i128,
    least: i128,
) -> Result<(), AllocError>
    requires few { length program.old.rows < 400 }
    requires columns { length program.old.costs ≡ trade.now.goods + 1 }
    requires bidder { bidder < length trade.now.trees }
    requires low { neg_ℤ (pos 1000) ≤ℤ factor }
    requires high { factor ≤ℤ pos 1000 }
    requires least { IsNumber least }
    ensures { OnOk result (program.new
        ≡ with_rows program.old (set_row trade.now bidder cut factor least ∷ [])) }
{
    let mut coeffs = own_units(alloc, trade, factor, bidder)?;
    coeffs.push(i128::from(cut))?;
    program.row(&coeffs, least)
}

/// What a bidder pays, over the cut's denominator.
fn payment(at: &Stage<'_>, bidder: u8) -> i128
    requires bidder { bidder < length at.now.payments }
    requires few { at.now.cut ≤ 1000 }
    requires short { AllByRecursion IsShortPayment at.now.payments }
    ensures value { result ≡ num_over at.now.cut (fraction_at at.now.payments bidder) }
    ensures low { neg_ℤ (pos (10 ^ 21)) ≤ℤ result }
    ensures high { result ≤ℤ pos (10 ^ 21) }
{
    num_over(&at.payments[usize::from(bidder)], u64::from(at.cut))
}

/// Adds the two rows of a bidder: the distance is at least its payment less the cost of its set,
/// and that cost less its payment.
fn add_bidder(
    program: &mut Program,
    alloc: Global,
    trade: &Provisional<'_>,
    at: &Stage<'_>,
    bidder: u8,
) -> Result<(), AllocError>
    requires few { length program.old.rows < 399 }
    requires columns { length program.old.costs ≡ trade.now.goods + 1 }
    requires bidder { bidder < length trade.now.trees }
    requires stage { IsStage trade.now at.now }
    ensures { OnOk result (program.new ≡ with_rows program.old (rows_of trade.now at.now bidder)) }
{
    let factor = i128::from(at.cut);
    let paid = payment(at, bidder);
    add_set(program, alloc, trade, bidder, at.cut, factor, paid)?;
    add_set(program, alloc, trade, bidder, at.cut, -factor, -paid)
}

/// Adds the row of a member of the pool, whose excess is at most the violation of accurate prices.
fn add_member(
    program: &mut Program,
    alloc: Global,
    trade: &Provisional<'_>,
    at: &Stage<'_>,
    member: &PoolMember,
) -> Result<(), AllocError>
    requires few { length program.old.rows < 400 }
    requires columns { length program.old.costs ≡ trade.now.goods + 1 }
    requires bidder { member.now.bidder < length trade.now.trees }
    requires nodes { length member.now.set ≡ length (tree_of trade.now.trees member.now.bidder) }
    requires stage { IsStage trade.now at.now }
    ensures { OnOk result (program.new
        ≡ with_rows program.old (row_of trade.now at.now member.now ∷ [])) }
{
    let mut coeffs = member_units(alloc, trade, 100 * at.den, member)?;
    coeffs.push(0)?;
    let worth = trade.worth_above(member.bidder, &member.set);
    program.row(&coeffs, least_above(at.den, worth, at.delta))
}

/// The program of the stage over the pool.
pub(crate) fn fair_program(
    alloc: Global,
    trade: &Provisional<'_>,
    at: &Stage<'_>,
    pool: &[PoolMember],
) -> Result<Program, AllocError>
    requires stage { IsStage trade.now at.now }
    requires members { let t = trade.now in AreMembers t.trees t.weights t.sets pool.now }
    requires few { length pool.now ≤ 200 }
    ensures { IfOk result (λ made. made ≡ program_over trade.now at.now pool.now) }
{
    let mut program = Program::new(alloc, &last_alone(alloc, trade.goods())?)?;
    for good in 0..trade.goods() {
        add_good(&mut program, alloc, trade, good)?;
    }
    for bidder in 0..trade.bidders() {
        add_bidder(&mut program, alloc, trade, at, bidder)?;
    }
    for member in pool {
        add_member(&mut program, alloc, trade, at, member)?;
    }
    Ok(program)
}
