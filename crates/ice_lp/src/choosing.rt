//! The entering and the leaving variable of a turn.
ghost use Rattle.std.specs.Prelude.{◌≡◌, ◌<◌, length};
ghost use Rattle.std.specs.Result.{result_ok};
ghost use Rattle.ice_defs.specs.Dictionary.{lower_spot, lower_ratio, entering_from, leaving_from};
ghost use Rattle.ice_lp.specs.Shapes.{AreWithin};
ghost use Rattle.ice_lp.specs.Leaving.{leaving_step};

use crate::dictionary::LeftRow;
use crate::spot::{Ratio, Spot, is_negative, is_positive};
use ice_frac::{Frac, Wide};

/// The one of the variables with the lower number.
fn lower_spot(spot: Spot, other: Option<Spot>) -> Option<Spot>
    ensures { result ≡ lower_spot spot other }
{
    let Some(other) = other else {
        return Some(spot);
    };
    if other.variable < spot.variable {
        Some(other)
    } else {
        Some(spot)
    }
}

/// The variable with the lower ratio, or of two equal ones the one with the lower number.
fn lower_ratio(ratio: Ratio, other: Option<Ratio>) -> Option<Ratio>
    ensures { result ≡ lower_ratio ratio other }
{
    let Some(other) = other else {
        return Some(ratio);
    };
    if other.is_before(&ratio) {
        Some(other)
    } else {
        Some(ratio)
    }
}

/// The entering variable: of those on the right with a coefficient above 0 in the objective, the
/// one with the lowest number.
pub(crate) fn entering_of(right: &[usize], objective: &[Frac]) -> Option<Spot>
    requires { length objective.now ≡ length right.now }
    ensures { result ≡ entering_from 0 right.now objective.now }
{
    let mut best = None;
    for place in (0..right.len()).rev() {
        if is_positive(&objective[place]) {
            let spot = Spot {
                place,
                variable: right[place],
            };
            best = lower_spot(spot, best);
        }
    }
    best
}

impl LeftRow {
    /// The best of the left rows from `place` on, where this is the row at `place` and `best` is
    /// that of the rows after it.
    fn bounded(
        &self,
        place: usize,
        entering: usize,
        best: Option<Ratio>,
    ) -> Result<Option<Ratio>, Wide>
        requires { entering < length self.now.coeffs }
        ensures { result_ok result ≡ leaving_step entering place self.now best }
    {
        let coefficient = self.coeffs[entering];
        if !is_negative(&coefficient) {
            return Ok(best);
        }
        let spot = Spot {
            place,
            variable: self.variable,
        };
        let ratio = self.constant.div(&coefficient.negated())?;
        Ok(lower_ratio(Ratio { spot, ratio }, best))
    }
}

/// The leaving variable: of those on the left that bound the one at `entering`, the one with the
/// lowest ratio, and of several the one with the lowest number. None where nothing bounds it.
pub(crate) fn leaving_of(left: &[LeftRow], entering: usize) -> Result<Option<Ratio>, Wide>
    requires { AreWithin entering left.now }
    ensures { result_ok result ≡ leaving_from entering 0 left.now }
{
    let mut best = None;
    for place in (0..left.len()).rev() {
        let row = &left[place];
        best = row.bounded(place, entering, best)?;
    }
    Ok(best)
}
