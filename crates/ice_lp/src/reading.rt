//! What the end of a trace says.
ghost use Rattle.std.specs.Prelude.{◌≡◌, ◌+◌, ◌≤◌, ◌==◌, map, find, position, Some, None, MatchOption, IfOk};
ghost use Rattle.ice_defs.specs.Sum.{numbers_below};
ghost use Rattle.ice_defs.specs.Fraction.{fraction_at, negation};
ghost use Rattle.ice_defs.specs.Trace.{constant_of, objective_of, mix_entry};
ghost use Rattle.ice_lp.specs.Answers.{IsRead};

use crate::dictionary::{Dictionary, LeftRow};
use crate::first::whole;
use crate::program::Program;
use crate::spot::Spot;
use ice_frac::Frac;
use std::alloc::{AllocError, Global};

/// The answer to a program, with the numbers that show it.
#[derive(Drop)]
pub enum LpAnswer {
    /// A feasible point of least costs, one coordinate a column, and one multiplier a row that
    /// shows that it is least: none is below 0, no column's sum exceeds its cost, and the leasts'
    /// sum is the point's cost.
    Least { point: Vec<Frac>, duals: Vec<Frac> },
    /// No point is feasible. One multiplier a row shows it: none is below 0, no column's sum is
    /// above 0, and the leasts' sum is.
    Infeasible { mix: Vec<Frac> },
}

/// The fraction at a place, or 0 past the end.
fn fraction_at(fractions: &[Frac], place: usize) -> Frac
    ensures { result ≡ fraction_at fractions.now place }
{
    if place < fractions.len() {
        fractions[place]
    } else {
        whole(0)
    }
}

impl LeftRow {
    /// The variable's number.
    fn variable(&self) -> usize
        ensures { result ≡ self.now.variable }
    {
        self.variable
    }

    /// The constant.
    fn constant(&self) -> Frac
        ensures { result ≡ self.now.constant }
    {
        self.constant
    }

    /// The coefficient at a place, or 0 past the end.
    fn coefficient(&self, place: usize) -> Frac
        ensures { result ≡ fraction_at self.now.coeffs place }
    {
        fraction_at(&self.coeffs, place)
    }
}

/// The row of a variable on the left.
fn row_of(left: &[LeftRow], variable: usize) -> Option<&LeftRow>
    ensures { let here = find (λ row. row.variable == variable) left.now in
        MatchOption result (here ≡ None) (λ row. here ≡ Some row.now) }
{
    for row in left {
        if row.variable() == variable {
            return Some(row);
        }
    }
    None
}

/// The place of a variable on the right.
fn place_of(right: &[usize], variable: usize) -> Option<usize>
    ensures { result ≡ position (λ other. other == variable) right.now }
{
    right.iter().position(|other| *other == variable)
}

impl Dictionary {
    /// The constant of a variable on the left, and 0 for one on the right.
    fn constant_of(&self, variable: usize) -> Frac
        ensures { result ≡ constant_of self.now variable }
    {
        match row_of(&self.left, variable) {
            Some(row) => row.constant(),
            None => whole(0),
        }
    }

    /// The objective's coefficient of a variable on the right, and 0 for one on the left.
    fn objective_of(&self, variable: usize) -> Frac
        ensures { result ≡ objective_of self.now variable }
    {
        match place_of(&self.right, variable) {
            Some(place) => fraction_at(&self.objective, place),
            None => whole(0),
        }
    }

    /// The multiplier of a row where nothing bounds the entering variable.
    fn mix_entry(&self, entering: Spot, variable: usize) -> Frac
        ensures { result ≡ mix_entry self.now entering variable }
    {
        if variable == entering.variable {
            return whole(1);
        }
        match row_of(&self.left, variable) {
            Some(row) => row.coefficient(entering.place()),
            None => whole(0),
        }
    }
}

/// The duals of a dictionary that ends with the least, for so many rows.
fn duals(alloc: Global, dictionary: &Dictionary, rows: usize) -> Result<Vec<Frac>, AllocError>
    ensures { IfOk result (λ made. made.items ≡ map (constant_of dictionary.now) (numbers_below rows)) }
{
    let mut made = Vec::with_capacity(alloc, rows)?;
    for row in 0..rows {
        made.push(dictionary.constant_of(row))?;
    }
    Ok(made)
}

/// The point of a dictionary that ends with the least, for so many rows and columns.
fn point(
    alloc: Global,
    dictionary: &Dictionary,
    rows: usize,
    columns: usize,
) -> Result<Vec<Frac>, AllocError>
    requires { rows + columns ≤ 1000 }
    ensures { IfOk result (λ made. made.items
        ≡ map (λ j. negation (objective_of dictionary.now (rows + j))) (numbers_below columns)) }
{
    let mut made = Vec::with_capacity(alloc, columns)?;
    for column in 0..columns {
        made.push(dictionary.objective_of(rows + column).negated())?;
    }
    Ok(made)
}

/// The mix of a dictionary where nothing bounds the entering variable, for so many rows.
fn mix(
    alloc: Global,
    dictionary: &Dictionary,
    entering: Spot,
    rows: usize,
) -> Result<Vec<Frac>, AllocError>
    ensures { let multiplier = mix_entry dictionary.now entering in
        IfOk result (λ made. made.items ≡ map multiplier (numbers_below rows)) }
{
    let mut made = Vec::with_capacity(alloc, rows)?;
    for row in 0..rows {
        made.push(dictionary.mix_entry(entering, row))?;
    }
    Ok(made)
}

/// The answer that the last dictionary gives, with the entering variable that nothing bounds, or
/// with none.
pub(crate) fn read(
    alloc: Global,
    program: &Program,
    dictionary: &Dictionary,
    entering: Option<Spot>,
) -> Result<LpAnswer, AllocError>
    ensures { IfOk result (IsRead program.now dictionary.now entering) }
{
    let rows = program.rows().len();
    let columns = program.costs().len();
    match entering {
        None => Ok(LpAnswer::Least {
            point: point(alloc, dictionary, rows, columns)?,
            duals: duals(alloc, dictionary, rows)?,
        }),
        Some(entering) => Ok(LpAnswer::Infeasible {
            mix: mix(alloc, dictionary, entering, rows)?,
        }),
    }
}
