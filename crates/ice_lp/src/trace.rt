//! The trace of a program.
ghost use Rattle.std.specs.Prelude.{◌≡◌, ◌≤◌, ◌+◌, ◌-◌, IfOk, IfErr};
ghost use Rattle.ice_defs.specs.Dictionary.{choice};
ghost use Rattle.ice_defs.specs.Trace.{end_from, trace_end};
ghost use Rattle.ice_program_laws.specs.Solutions.{IsDictionary};
ghost use Rattle.ice_lp.specs.Turning.{choice_value, IsPivotTurn};
ghost use Rattle.ice_lp.specs.Ending.{end_of, IsEnd, made_from, pivots_made};
ghost use Rattle.ice_lp.specs.Answers.{IsAnswer, IsCertified};

use crate::choosing::{entering_of, leaving_of};
use crate::dictionary::Dictionary;
use crate::ends::LpEnd;
use crate::first::first;
use crate::program::Program;
use crate::reading::{LpAnswer, read};
use crate::spot::Spot;
use ice_frac::Wide;
use std::alloc::Global;

/// What a turn of the trace does.
#[derive(Clone, Copy)]
enum Turn {
    Least,
    Unbounded(Spot),
    Pivot(usize, Spot),
}

/// The turn at a dictionary.
fn next_turn(dictionary: &Dictionary) -> Result<Turn, Wide>
    requires { IsDictionary dictionary.now }
    ensures choice { choice_value result ≡ choice dictionary.now }
    ensures pivot { IfOk result (IsPivotTurn dictionary.now) }
{
    let Some(entering) = entering_of(&dictionary.right, &dictionary.objective) else {
        return Ok(Turn::Least);
    };
    let Some(leaving) = leaving_of(&dictionary.left, entering.place())? else {
        return Ok(Turn::Unbounded(entering));
    };
    Ok(Turn::Pivot(leaving.place(), entering))
}

/// Follows the trace from a dictionary to its end, and adds the pivots that it makes to the count:
/// the entering variable that no left variable bounds, or none.
fn run(alloc: Global, dictionary: &mut Dictionary, pivots: &mut u32) -> Result<Option<Spot>, LpEnd>
    requires proper { IsDictionary dictionary.old }
    requires few { pivots.old ≤ 4000000000 }
    // The end
    ensures ended { let made = pivots.new - pivots.old in
        let ends = end_from 2000 0 dictionary.old in
        IfOk result (λ entering. ends ≡ end_of made dictionary.new entering) }
    ensures stopped { IfErr result (IsEnd (end_from 2000 0 dictionary.old)) }
    // The pivots
    ensures counted_low { pivots.old ≤ pivots.new }
    ensures counted_high { pivots.new ≤ pivots.old + 2000 }
    ensures counted_all { IfErr result (λ e. e ≡ LpEnd.Pivots → pivots.new ≡ pivots.old + 2000) }
    ensures counted_wide { let made = made_from 2000 0 dictionary.old in
        IfErr result (λ e. e ≡ LpEnd.Wide → pivots.new ≡ pivots.old + made) }
{
    let mut left: u32 = 2000;
    'turns: loop {
        match next_turn(dictionary)? {
            Turn::Least => return Ok(None),
            Turn::Unbounded(entering) => return Ok(Some(entering)),
            Turn::Pivot(leaving, entering) => {
                if left == 0 {
                    return Err(LpEnd::Pivots);
                }
                dictionary.pivot(alloc, leaving, entering)?;
                left -= 1;
                *pivots += 1;
            }
        }
    }
}

/// Solves a program exactly, by the dual simplex method: a least point and the duals that show it,
/// or a mix that shows that no point is feasible.
///
/// The pivots are those of one stated trace. The first dictionary has the slacks of the columns on
/// the left, the entering variable is that of the least number (R. G. Bland, 1977), and so is the
/// leaving one of several with the least ratio. So an answer, and each end without one, is the
/// program's own. The pivots are added to a count that the caller keeps, which is at most
/// 4,000,000,000 at entry; they are at most 2,000, and all that the trace makes unless memory runs
/// out.
///
/// `Wide` comes where the trace has an operation that is too wide, `Pivots` where it takes more
/// than 2,000 pivots, and `NoMemory` at any time.
pub fn solve(alloc: Global, program: &Program, pivots: &mut u32) -> Result<LpAnswer, LpEnd>
    requires { pivots.old ≤ 4000000000 }
    // The answer
    ensures answer { IfOk result (IsAnswer program.now (pivots.new - pivots.old)) }
    ensures certified { IfOk result (IsCertified program.now) }
    ensures stopped { IfErr result (IsEnd (trace_end program.now)) }
    // The pivots
    ensures counted_low { pivots.old ≤ pivots.new }
    ensures counted_high { pivots.new ≤ pivots.old + 2000 }
    ensures counted_all { IfErr result (λ e. e ≡ LpEnd.Pivots → pivots.new ≡ pivots.old + 2000) }
    ensures counted_wide { let made = pivots_made program.now in
        IfErr result (λ e. e ≡ LpEnd.Wide → pivots.new ≡ pivots.old + made) }
{
    let _costs = program.costs();
    let mut dictionary = first(alloc, program)?;
    let entering = run(alloc, &mut dictionary, pivots)?;
    Ok(read(alloc, program, &dictionary, entering)?)
}
