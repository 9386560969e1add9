//! The first dictionary of a program.
ghost use Rattle.std.specs.Prelude.{◌≡◌, ◌<◌, length, map, slice_index_or, pos, neg_ℤ, All, IfOk};
ghost use Rattle.ice_defs.specs.Sum.{numbers_below};
ghost use Rattle.ice_defs.specs.Fraction.{whole_number};
ghost use Rattle.ice_defs.specs.Dictionary.{first_left, first_dictionary};
ghost use Rattle.ice_lp.specs.Limits.{IsNumber, IsConstraint};

use crate::dictionary::{Dictionary, LeftRow};
use crate::program::{Program, Row};
use ice_frac::Frac;
use std::alloc::{AllocError, Global};

/// A whole number as a fraction.
pub(crate) fn whole(number: i128) -> Frac
    requires { IsNumber number }
    ensures { result ≡ whole_number number }
{
    match Frac::new(number, 1) {
        Some(fraction) => fraction,
        None => unreachable!(),
    }
}

/// The numbers below a number.
fn numbers(alloc: Global, count: usize) -> Result<Vec<usize>, AllocError>
    ensures { IfOk result (λ made. made.items ≡ numbers_below count) }
{
    let mut made = Vec::with_capacity(alloc, count)?;
    for number in 0..count {
        made.push(number)?;
    }
    Ok(made)
}

/// The least of each row.
fn leasts(alloc: Global, rows: &[Row], columns: usize) -> Result<Vec<Frac>, AllocError>
    requires { All (IsConstraint columns) rows.now }
    ensures { IfOk result (λ made. made.items ≡ map (λ row. whole_number row.least) rows.now) }
{
    let mut made = Vec::with_capacity(alloc, rows.len())?;
    for row in rows {
        made.push(whole(row.least))?;
    }
    Ok(made)
}

/// Minus the coefficient of the row in a column.
fn minus(row: &Row, column: usize) -> Frac
    requires within { column < length row.now.coeffs }
    requires sized { All IsNumber row.now.coeffs }
    ensures { result ≡ whole_number (neg_ℤ (slice_index_or row.now.coeffs column (pos 0))) }
{
    whole(-row.coeffs[column])
}

/// Minus the coefficients of a column.
fn minus_all(
    alloc: Global,
    rows: &[Row],
    column: usize,
    columns: usize,
) -> Result<Vec<Frac>, AllocError>
    requires within { column < columns }
    requires proper { All (IsConstraint columns) rows.now }
    ensures { IfOk result (λ made. made.items
        ≡ map (λ row. whole_number (neg_ℤ (slice_index_or row.coeffs column (pos 0)))) rows.now) }
{
    let mut made = Vec::with_capacity(alloc, rows.len())?;
    for row in rows {
        made.push(minus(row, column))?;
    }
    Ok(made)
}

/// The row of a column's slack.
fn first_row(alloc: Global, program: &Program, column: usize) -> Result<LeftRow, AllocError>
    requires { column < length program.now.costs }
    ensures { IfOk result (λ row. row ≡ first_left program.now column) }
{
    let rows = program.rows();
    let costs = program.costs();
    Ok(LeftRow {
        variable: rows.len() + column,
        constant: whole(costs[column]),
        coeffs: minus_all(alloc, rows, column, costs.len())?,
    })
}

/// The rows of the slacks.
fn first_rows(alloc: Global, program: &Program) -> Result<Vec<LeftRow>, AllocError>
    ensures { let columns = numbers_below (length program.now.costs) in
        IfOk result (λ made. made.items ≡ map (first_left program.now) columns) }
{
    let columns = program.costs().len();
    let mut made = Vec::with_capacity(alloc, columns)?;
    for column in 0..columns {
        made.push(first_row(alloc, program, column)?)?;
    }
    Ok(made)
}

/// The first dictionary of a program.
pub(crate) fn first(alloc: Global, program: &Program) -> Result<Dictionary, AllocError>
    ensures { IfOk result (λ d. d ≡ first_dictionary program.now) }
{
    let rows = program.rows();
    Ok(Dictionary {
        right: numbers(alloc, rows.len())?,
        gain: whole(0),
        objective: leasts(alloc, rows, program.costs().len())?,
        left: first_rows(alloc, program)?,
    })
}
