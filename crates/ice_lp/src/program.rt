//! Linear programs with whole coefficients.
ghost use Rattle.std.specs.Prelude.{◌≡◌, ◌<◌, ◌≤◌, [], length, pos, ◌≤ℤ◌, All, IfOk, OnOk, OnErr};
ghost use Rattle.ice_lp.specs.Limits.{IsNumber, IsProgram, with_row};

use std::alloc::{AllocError, Global};
use std::marker::Model;

/// A row: the coefficients times the point are at least a number.
#[derive(Drop)]
pub(crate) struct Row {
    pub(crate) coeffs: Vec<i128>,
    pub(crate) least: i128,
}

impl Model for Row {
    ghost use Rattle.ice_defs.specs.Program.{Constraint};

    ghost Value = { Constraint };

    ghost view = { λ r. record { coeffs = r.coeffs.items; least = r.least } };
}

/// A linear program: of the points with no coordinate below 0 that meet each row, find one with the
/// least costs.
///
/// A point has one coordinate a column. A row is met where its coefficients times the point sum to
/// at least a number. There are 1 to 64 columns and at most 400 rows; all numbers are whole and
/// within 2^90 in size, and no cost is below 0.
#[derive(Drop)]
pub struct Program {
    alloc: Global,
    costs: Vec<i128>,
    rows: Vec<Row>,
}

impl Model for Program {
    ghost use Rattle.ice_defs.specs.Program.{Program as LinearProgram};
    ghost use Rattle.ice_lp.specs.Limits.{IsProgram};

    ghost Value = { LinearProgram };

    ghost view = { λ p. record { costs = p.costs.items; rows = p.rows.items } };

    ghost invariant = { λ p. IsProgram (record { costs = p.costs.items; rows = p.rows.items }) };
}

/// The same numbers.
fn copied(alloc: Global, numbers: &[i128]) -> Result<Vec<i128>, AllocError>
    ensures { IfOk result (λ made. made.items ≡ numbers.now) }
{
    Ok(numbers.to_vec(alloc)?)
}

impl Program {
    /// A program with these costs, one a column, and no row yet: 1 to 64 whole numbers from 0 to
    /// 2^90.
    pub fn new(alloc: Global, costs: &[i128]) -> Result<Program, AllocError>
        requires some { 0 < length costs.now }
        requires few { length costs.now ≤ 64 }
        requires sized { All IsNumber costs.now }
        requires low { All (λ c. pos 0 ≤ℤ c) costs.now }
        ensures { IfOk result (λ p. p ≡ record { costs = costs.now; rows = [] }) }
    {
        Ok(Program {
            alloc,
            costs: copied(alloc, costs)?,
            rows: Vec::new(alloc),
        })
    }

    /// Adds a row to fewer than 400, with one coefficient a column, all within 2^90 in size. Where
    /// there is no memory the program stays as it was.
    pub fn row(&mut self, coeffs: &[i128], least: i128) -> Result<(), AllocError>
        requires few { length self.old.rows < 400 }
        requires same_length { length coeffs.now ≡ length self.old.costs }
        requires coeffs_sized { All IsNumber coeffs.now }
        requires least_sized { IsNumber least }
        ensures made { OnOk result (self.new ≡ with_row self.old coeffs.now least) }
        ensures kept { OnErr result (self.new ≡ self.old) }
    {
        let row = Row {
            coeffs: copied(self.alloc, coeffs)?,
            least,
        };
        self.rows.push(row)?;
        Ok(())
    }

    /// The costs.
    pub(crate) fn costs(&self) -> &[i128]
        ensures value { result.now ≡ self.now.costs }
        ensures limited { IsProgram self.now }
    {
        &self.costs
    }

    /// The rows.
    pub(crate) fn rows(&self) -> &[Row]
        ensures value { result.now ≡ self.now.rows }
        ensures limited { IsProgram self.now }
    {
        &self.rows
    }
}
