//! Linear programs of the size at which prices of an exchange are found at the limits, drawn by a
//! generator.
//!
//! A column is the price of one of 32 goods, the last one how far the prices are from accurate. A
//! row for each good keeps its price within a cap. Each of 200 rows more stands for another set of
//! a bidder: at the prices of the units by which it differs from the own set, it may gain no more
//! than the last column.
ghost use Rattle.std.specs.Prelude.{◌≡◌, ◌+◌, length, pos, ◌≤ℤ◌, All, IfOk};
ghost use Rattle.ice_lp.specs.Limits.{IsNumber};

use crate::draws::{Draws, number};
use ice_frac::Frac;
use ice_lp::{LpAnswer, LpEnd, Program, solve};
use std::alloc::{AllocError, Global};

/// How many goods have a price.
const GOODS: usize = 32;

/// How many rows stand for another set.
const SETS: usize = 200;

/// The least of a good's row: minus the cap.
const CAP: i128 = -100_000;

/// The costs: 0 for each price, and 1 for the last column.
fn costs(alloc: Global) -> Result<Vec<i128>, AllocError>
    ensures same_length { IfOk result (λ made. length made.items ≡ 33) }
    ensures sized { IfOk result (λ made. All IsNumber made.items) }
    ensures low { IfOk result (λ made. All (λ c. pos 0 ≤ℤ c) made.items) }
{
    let mut made = Vec::with_capacity(alloc, GOODS + 1)?;
    for _good in 0..GOODS {
        made.push(0i128)?;
    }
    made.push(1i128)?;
    Ok(made)
}

/// The coefficient of a column in a good's row.
fn cap_coefficient(column: usize, good: usize) -> i128
    ensures { IsNumber result }
{
    if column == good { -1 } else { 0 }
}

/// The coefficients of a good's row.
fn cap_row(alloc: Global, good: usize) -> Result<Vec<i128>, AllocError>
    ensures same_length { IfOk result (λ made. length made.items ≡ 33) }
    ensures sized { IfOk result (λ made. All IsNumber made.items) }
{
    let mut made = Vec::with_capacity(alloc, GOODS + 1)?;
    for column in 0..GOODS + 1 {
        made.push(cap_coefficient(column, good))?;
    }
    Ok(made)
}

/// By how many units of a good two sets differ: one where it isn't 0.
fn units(draws: &mut Draws) -> i64 {
    match draws.below(32) {
        0 => 1,
        1 => -1,
        _ => 0,
    }
}

/// A row's coefficients and its least: what the other set gains at drawn prices, up to a number
/// that is mostly below 0.
fn set_row(alloc: Global, prices: &[i64], draws: &mut Draws) -> Result<(Vec<i128>, i64), AllocError>
    ensures same_length { IfOk result (λ made. length made.0.items ≡ length prices.now + 1) }
    ensures sized { IfOk result (λ made. All IsNumber made.0.items) }
{
    let mut made = Vec::with_capacity(alloc, GOODS + 1)?;
    let mut least = draws.one_of(-2000, 2100);
    for price in prices {
        let units = units(draws);
        least = least.wrapping_add(units.wrapping_mul(*price));
        made.push(number(units))?;
    }
    made.push(1i128)?;
    Ok((made, least))
}

/// The prices from which the leasts are drawn.
fn drawn_prices(draws: &mut Draws) -> [i64; GOODS] {
    let mut prices = [0; GOODS];
    for good in 0..GOODS {
        prices[good] = draws.one_of(100, 3000);
    }
    prices
}

/// A program of 33 columns and 232 rows.
fn drawn(alloc: Global, draws: &mut Draws) -> Result<Program, AllocError> {
    let mut program = Program::new(alloc, &costs(alloc)?)?;
    for good in 0..GOODS {
        let coeffs = cap_row(alloc, good)?;
        program.row(&coeffs, CAP)?;
    }
    let prices = drawn_prices(draws);
    for _set in 0..SETS {
        let (coeffs, least) = set_row(alloc, &prices, draws)?;
        program.row(&coeffs, number(least))?;
    }
    Ok(program)
}

/// A checksum with fractions more.
fn folded(sum: u64, fractions: &[Frac]) -> u64 {
    let mut sum = sum;
    for fraction in fractions {
        sum = sum
            .wrapping_mul(31)
            .wrapping_add((fraction.num() & 0xffff_ffff) as u64)
            .wrapping_add((fraction.den() & 0xffff_ffff) as u64);
    }
    sum
}

/// A checksum with an answer more.
fn folded_answer(sum: u64, answer: &LpAnswer) -> u64 {
    match answer {
        LpAnswer::Least { point, duals } => folded(folded(sum, point), duals),
        LpAnswer::Infeasible { mix } => folded(sum, mix),
    }
}

/// Solves so many programs: a checksum of the answers, and the pivots made.
pub(crate) fn solved(alloc: Global, programs: u32) -> Result<(u64, u64), LpEnd> {
    let mut draws = Draws::new(1);
    let mut sum = 0u64;
    let mut all_pivots = 0u64;
    for _program in 0..programs {
        let program = drawn(alloc, &mut draws)?;
        let mut pivots = 0;
        let answer = solve(alloc, &program, &mut pivots)?;
        sum = folded_answer(sum, &answer);
        all_pivots = all_pivots.wrapping_add(u64::from(pivots));
    }
    Ok((sum, all_pivots))
}
