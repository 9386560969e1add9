//! Dictionaries of a linear program, and the pivot from one to the next (V. Chvatal, Linear
//! Programming, 1983).
ghost use Rattle.std.specs.Prelude.{slice_index_or, slice_set, ◌≡◌, ◌≢◌, ◌<◌, length, pos, Some, None, IfOk, IfErr};
ghost use Rattle.std.specs.Result.{result_ok};
ghost use Rattle.ice_defs.specs.Fraction.{fraction_at};
ghost use Rattle.ice_defs.specs.Dictionary.{all_of, pivot_entry, pivot_entries, pivot_row, other_entry, other_entries, other_row, other_constant, new_left, no_left, pivot_dictionary};
ghost use Rattle.ice_program_laws.specs.Solutions.{IsDictionary, IsPivot};
ghost use Rattle.ice_lp.specs.Replacing.{replacements, all_but};
ghost use Rattle.ice_lp.specs.Shapes.{AreLong, IsWideLeft, IsWideObjective};

use crate::spot::Spot;
use ice_frac::{Frac, Wide};
use std::alloc::Global;
use std::marker::Model;
use std::mem;

/// A variable on the left: its constant, and its coefficient of each variable on the right.
#[derive(Drop)]
pub(crate) struct LeftRow {
    pub(crate) variable: usize,
    pub(crate) constant: Frac,
    pub(crate) coeffs: Vec<Frac>,
}

impl Model for LeftRow {
    ghost use Rattle.ice_defs.specs.Dictionary.{Left};

    ghost Value = { Left };

    ghost view = { λ r. record { variable = r.variable; constant = r.constant; coeffs = r.coeffs.items } };
}

/// The variables on the right, the objective to be made greatest, and the variables on the left.
#[derive(Drop)]
pub(crate) struct Dictionary {
    pub(crate) right: Vec<usize>,
    pub(crate) gain: Frac,
    pub(crate) objective: Vec<Frac>,
    pub(crate) left: Vec<LeftRow>,
}

impl Model for Dictionary {
    ghost use Rattle.ice_defs.specs.Dictionary.{Dictionary as Table};

    ghost Value = { Table };

    ghost view = { λ d. record { right = d.right.items; gain = d.gain; objective = d.objective.items; left = d.left.items } };
}

/// 1 as a fraction.
fn one() -> Frac
    ensures { result ≡ record { num = pos 1; den = 1 } }
{
    match Frac::new(1, 1) {
        Some(fraction) => fraction,
        None => unreachable!(),
    }
}

/// What a pivot on the coefficient `pivot` of the variable at `entering` makes of the entry at
/// `place` in the leaving row. A 0 stays, at no cost.
fn pivot_entry(pivot: &Frac, entering: usize, place: usize, entry: &Frac) -> Result<Frac, Wide>
    requires { pivot.now.num ≢ pos 0 }
    ensures { result_ok result ≡ pivot_entry pivot.now entering place entry.now }
{
    if place == entering {
        return one().div(pivot);
    }
    let _num = pivot.num();
    if entry.num() == 0 {
        return Ok(*entry);
    }
    let quotient = entry.div(pivot)?;
    Ok(quotient.negated())
}

/// What a pivot makes of the entry at `place` in another row or the objective, which has the
/// coefficient `factor` of the variable at `entering`; `new` is the leaving row's new entry there.
/// It stays where that is 0.
fn other_entry(
    factor: &Frac,
    entering: usize,
    place: usize,
    new: &Frac,
    entry: &Frac,
) -> Result<Frac, Wide>
    ensures { result_ok result ≡ other_entry factor.now entering place new.now entry.now }
{
    if place == entering {
        return factor.mul(new);
    }
    let _num = entry.num();
    let new_num = new.num();
    if factor.num() == 0 {
        return Ok(*entry);
    }
    if new_num == 0 {
        return Ok(*entry);
    }
    entry.add(&factor.mul(new)?)
}

/// What a pivot makes of the leaving row's entries.
fn pivot_entries(entries: &mut [Frac], pivot: &Frac, entering: usize) -> Result<(), Wide>
    requires { pivot.now.num ≢ pos 0 }
    ensures made { let made = all_of (pivot_entries pivot.now entering 0 entries.old) in
        IfOk result (λ _. made ≡ Some entries.new) }
    ensures wide { let made = all_of (pivot_entries pivot.now entering 0 entries.old) in
        IfErr result (λ _. made ≡ None) }
{
    for place in 0..entries.len() {
        entries[place] = pivot_entry(pivot, entering, place, &entries[place])?;
    }
    Ok(())
}

/// What a pivot makes of the entries of another row or the objective.
fn other_entries(
    entries: &mut [Frac],
    factor: &Frac,
    entering: usize,
    new: &[Frac],
) -> Result<(), Wide>
    requires { length new.now ≡ length entries.old }
    ensures made { let made = all_of (other_entries factor.now entering 0 new.now entries.old) in
        IfOk result (λ _. made ≡ Some entries.new) }
    ensures wide { let made = all_of (other_entries factor.now entering 0 new.now entries.old) in
        IfErr result (λ _. made ≡ None) }
{
    for place in 0..entries.len() {
        entries[place] = other_entry(factor, entering, place, &new[place], &entries[place])?;
    }
    Ok(())
}

impl LeftRow {
    /// What a pivot makes of the leaving row: the entering variable's own.
    fn pivot(&mut self, entering: Spot) -> Result<(), Wide>
        requires within { entering.place < length self.old.coeffs }
        requires divides { (fraction_at self.old.coeffs entering.place).num ≢ pos 0 }
        ensures same_length { length self.new.coeffs ≡ length self.old.coeffs }
        ensures made { IfOk result (λ _. pivot_row entering self.old ≡ Some self.new) }
        ensures wide { IfErr result (λ _. pivot_row entering self.old ≡ None) }
    {
        let pivot = self.coeffs[entering.place];
        let constant = self.constant.div(&pivot)?;
        pivot_entries(&mut self.coeffs, &pivot, entering.place)?;
        self.variable = entering.variable;
        self.constant = constant.negated();
        Ok(())
    }

    /// What a pivot makes of another row, where the entering variable's row is `new`.
    fn follow(&mut self, entering: usize, new: &LeftRow) -> Result<(), Wide>
        requires within { entering < length self.old.coeffs }
        requires same_length { length new.now.coeffs ≡ length self.old.coeffs }
        ensures made { IfOk result (λ _. other_row entering new.now self.old ≡ Some self.new) }
        ensures wide { IfErr result (λ _. other_row entering new.now self.old ≡ None) }
    {
        let factor = self.coeffs[entering];
        let product = factor.mul(&new.constant)?;
        let constant = self.constant.add(&product)?;
        other_entries(&mut self.coeffs, &factor, entering, &new.coeffs)?;
        self.constant = constant;
        Ok(())
    }

    /// What a pivot makes of the row at `place`, where the entering variable's row is `new`: the
    /// leaving row stays.
    fn follow_at(
        &mut self,
        place: usize,
        leaving: usize,
        entering: usize,
        new: &LeftRow,
    ) -> Result<(), Wide>
        requires within { entering < length new.now.coeffs }
        requires same_length { place ≢ leaving → length self.old.coeffs ≡ length new.now.coeffs }
        ensures made { let made = all_but leaving (other_row entering new.now) place self.old in
            IfOk result (λ _. made ≡ Some self.new) }
        ensures wide { let made = all_but leaving (other_row entering new.now) place self.old in
            IfErr result (λ _. made ≡ None) }
    {
        if place == leaving {
            return Ok(());
        }
        self.follow(entering, new)
    }
}

/// What a pivot makes of all rows but the leaving one, where the entering variable's row is `new`.
fn other_rows(
    left: &mut [LeftRow],
    leaving: usize,
    entering: usize,
    new: &LeftRow,
) -> Result<(), Wide>
    requires within { entering < length new.now.coeffs }
    requires same_length { AreLong (length new.now.coeffs) leaving left.old }
    ensures made { let made = replacements (all_but leaving (other_row entering new.now)) 0 left.old in
        IfOk result (λ _. made ≡ Some left.new) }
    ensures wide { let made = replacements (all_but leaving (other_row entering new.now)) 0 left.old in
        IfErr result (λ _. made ≡ None) }
{
    for place in 0..left.len() {
        let row = &mut left[place];
        row.follow_at(place, leaving, entering, new)?;
    }
    Ok(())
}

/// What a pivot makes of the left rows: the entering variable's own, which still has to be put in
/// the place of the leaving one, and in `left` the others.
fn pivot_left(
    alloc: Global,
    left: &mut [LeftRow],
    leaving: usize,
    entering: Spot,
) -> Result<LeftRow, Wide>
    requires inside { leaving < length left.old }
    requires within { entering.place < length (slice_index_or left.old leaving no_left).coeffs }
    requires divides { let row = slice_index_or left.old leaving no_left in
        (fraction_at row.coeffs entering.place).num ≢ pos 0 }
    requires same_length { let row = slice_index_or left.old leaving no_left in
        AreLong (length row.coeffs) leaving left.old }
    // On success
    ensures row { let row = slice_index_or left.old leaving no_left in
        IfOk result (λ new. pivot_row entering row ≡ Some new) }
    ensures same_length { let row = slice_index_or left.old leaving no_left in
        IfOk result (λ new. length new.coeffs ≡ length row.coeffs) }
    ensures made { IfOk result (λ new. all_of (new_left leaving entering.place new 0 left.old)
        ≡ Some (slice_set left.new leaving new)) }
    // On failure
    ensures wide { IfErr result (λ _. IsWideLeft left.old leaving entering) }
{
    let empty = LeftRow {
        variable: 0,
        constant: one(),
        coeffs: Vec::new(alloc),
    };
    let mut new = mem::replace(&mut left[leaving], empty);
    new.pivot(entering)?;
    other_rows(left, leaving, entering.place, &new)?;
    Ok(new)
}

/// What a pivot makes of the gain and the objective, where the entering variable's row is `new`.
fn pivot_objective(
    gain: &mut Frac,
    objective: &mut [Frac],
    entering: usize,
    new: &LeftRow,
) -> Result<(), Wide>
    requires within { entering < length objective.old }
    requires same_length { length new.now.coeffs ≡ length objective.old }
    ensures gain { let factor = fraction_at objective.old entering in
        IfOk result (λ _. other_constant factor new.now gain.old ≡ Some gain.new) }
    ensures objective { let factor = fraction_at objective.old entering in
        let made = all_of (other_entries factor entering 0 new.now.coeffs objective.old) in
        IfOk result (λ _. made ≡ Some objective.new) }
    ensures wide { IfErr result (λ _. IsWideObjective gain.old objective.old entering new.now) }
{
    let factor = objective[entering];
    let product = factor.mul(&new.constant)?;
    *gain = gain.add(&product)?;
    other_entries(objective, &factor, entering, &new.coeffs)
}

impl Dictionary {
    /// The pivot on the left row at `leaving` and the entering variable. Where it is too wide, the
    /// dictionary is of no more use.
    pub(crate) fn pivot(
        &mut self,
        alloc: Global,
        leaving: usize,
        entering: Spot,
    ) -> Result<(), Wide>
        requires proper { IsDictionary self.old }
        requires chosen { IsPivot self.old leaving entering }
        ensures made { IfOk result (λ _. pivot_dictionary self.old leaving entering ≡ Some self.new) }
        ensures wide { IfErr result (λ _. pivot_dictionary self.old leaving entering ≡ None) }
    {
        let leaves = self.leaves(leaving);
        let new = pivot_left(alloc, &mut self.left, leaving, entering)?;
        pivot_objective(&mut self.gain, &mut self.objective, entering.place, &new)?;
        self.right[entering.place] = leaves;
        self.left[leaving] = new;
        Ok(())
    }

    /// The variable of the left row at `leaving`.
    fn leaves(&self, leaving: usize) -> usize
        requires { leaving < length self.now.left }
        ensures { result ≡ (slice_index_or self.now.left leaving no_left).variable }
    {
        let row = &self.left[leaving];
        row.variable
    }
}
