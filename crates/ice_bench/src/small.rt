//! Small linear programs that a generator draws, each with its answer as a line of text.
ghost use Rattle.std.specs.Prelude.{◌≡◌, length, pos, ◌≤ℤ◌, All, IfOk};
ghost use Rattle.ice_lp.specs.Limits.{IsNumber};

use crate::draws::{Draws, number};
use ice_frac::Frac;
use ice_lp::{LpAnswer, Program, solve};
use std::alloc::{AllocError, Global};

/// Adds whole numbers to a line, each behind a space.
fn add_numbers(line: &mut String, numbers: &[i128]) -> Result<(), AllocError> {
    for number in numbers {
        write!(line, " {number}")?;
    }
    Ok(())
}

/// Adds fractions to a line, each behind a space.
fn add_fractions(line: &mut String, fractions: &[Frac]) -> Result<(), AllocError> {
    for fraction in fractions {
        write!(line, " {}/{}", fraction.num(), fraction.den())?;
    }
    Ok(())
}

/// Adds an answer to a line.
fn add_answer(line: &mut String, answer: &LpAnswer) -> Result<(), AllocError> {
    match answer {
        LpAnswer::Least { point, duals } => {
            write!(line, "; point")?;
            add_fractions(line, point)?;
            write!(line, "; duals")?;
            add_fractions(line, duals)
        }
        LpAnswer::Infeasible { mix } => {
            write!(line, "; mix")?;
            add_fractions(line, mix)
        }
    }
}

/// So many costs from 0 to 5.
fn drawn_costs(alloc: Global, draws: &mut Draws, columns: usize) -> Result<Vec<i128>, AllocError>
    ensures same_length { IfOk result (λ made. length made.items ≡ columns) }
    ensures sized { IfOk result (λ made. All IsNumber made.items) }
    ensures low { IfOk result (λ made. All (λ c. pos 0 ≤ℤ c) made.items) }
{
    let mut made = Vec::with_capacity(alloc, columns)?;
    for _column in 0..columns {
        made.push(i128::from(draws.below(6)))?;
    }
    Ok(made)
}

/// Draws a program of 2 to 4 columns and 1 to 5 rows, and solves it. The line has the costs, then
/// each row, with its least behind its coefficients, and then the point and the duals, or the mix,
/// or why there is no answer.
pub fn line_of_one(alloc: Global, draws: &mut Draws) -> Result<String, AllocError> {
    let columns = 2 + draws.below(3) as usize;
    let rows = 1 + draws.below(5);
    let costs = drawn_costs(alloc, draws, columns)?;
    let mut program = Program::new(alloc, &costs)?;
    let mut line = String::new(alloc);
    write!(line, "costs")?;
    add_numbers(&mut line, &costs)?;
    for _row in 0..rows {
        let coeffs = draws.list(alloc, columns, -3, 7)?;
        let least = number(draws.one_of(-3, 10));
        write!(line, "; row")?;
        add_numbers(&mut line, &coeffs)?;
        write!(line, " {least}")?;
        program.row(&coeffs, least)?;
    }
    let mut pivots = 0;
    match solve(alloc, &program, &mut pivots) {
        Ok(answer) => add_answer(&mut line, &answer)?,
        Err(end) => write!(line, "; {end}")?,
    }
    Ok(line)
}
