//! The pivots of a dictionary.
ghost use Rattle.ice_cutting_planes.specs.Works.{IsMoreWork};

use crate::dictionary::Dictionary;
use crate::equation::{Equation, Variable};
use crate::numbers::product;
use crate::work::{GivenUp, MOST_PIVOTS, Work};
use std::mem;

/// How far the variable of an equation lets the entering one rise: `main`, and `small` times an
/// infinitesimal, over `by`.
#[derive(Clone, Copy)]
struct Ratio {
    place: usize,
    variable: Variable,
    main: i128,
    small: i128,
    by: i128,
}

impl Ratio {
    /// The ratio of the equation at a place, where it has the coefficient `coeff` of the entering
    /// variable.
    fn of(place: usize, equation: &Equation, coeff: i128) -> Ratio {
        Ratio {
            place,
            variable: equation.variable,
            main: equation.main,
            small: equation.small,
            by: coeff.wrapping_neg(),
        }
    }

    /// Whether this ratio comes before another one: it is lower, or its variable is.
    fn is_before(&self, other: &Ratio) -> Result<bool, GivenUp> {
        let main = product(self.main, other.by)?;
        let other_main = product(other.main, self.by)?;
        if main != other_main {
            return Ok(main < other_main);
        }
        let small = product(self.small, other.by)?;
        let other_small = product(other.small, self.by)?;
        if small != other_small {
            return Ok(small < other_small);
        }
        Ok(self.variable < other.variable)
    }
}

/// Puts the equation of the variable at a place on the right into all equations.
fn put_into_all(left: &mut [Equation], entering: usize, by: &Equation) -> Result<(), GivenUp> {
    for place in 0..left.len() {
        let equation = &mut left[place];
        equation.put(entering, by)?;
    }
    Ok(())
}

impl Dictionary {
    /// The place of the variable that enters: it has the greatest coefficient above 0 in the
    /// objective.
    fn entering(&self) -> Option<usize> {
        let mut entering = None;
        let mut most = 0;
        for (place, coeff) in self.objective.coeffs.iter().enumerate() {
            if *coeff > most {
                most = *coeff;
                entering = Some(place);
            }
        }
        entering
    }

    /// The place of the equation whose variable leaves: it has the least ratio.
    fn leaving(&self, entering: usize) -> Result<Option<usize>, GivenUp> {
        let mut least: Option<Ratio> = None;
        for (place, equation) in self.left.iter().enumerate() {
            let coeff = equation.coeff(entering);
            if coeff < 0 {
                let ratio = Ratio::of(place, equation, coeff);
                let is_before = match &least {
                    Some(other) => ratio.is_before(other)?,
                    None => true,
                };
                if is_before {
                    least = Some(ratio);
                }
            }
        }
        Ok(least.map(|ratio| ratio.place))
    }

    /// Makes the variable at `entering` on the right that of the equation at `leaving`, and the
    /// other way round.
    fn pivot(&mut self, leaving: usize, entering: usize) -> Result<(), GivenUp> {
        if leaving >= self.left.len() || entering >= self.right.len() {
            return Err(GivenUp::Spent);
        }
        let mut equation = self.left.swap_remove(leaving);
        equation.solve_for(entering);
        put_into_all(&mut self.left, entering, &equation)?;
        self.objective.put(entering, &equation)?;
        mem::swap(&mut equation.variable, &mut self.right[entering]);
        self.left.push(equation)?;
        Ok(())
    }

    /// Takes pivots until no coefficient of the objective is above 0.
    pub(crate) fn solve(&mut self, work: &mut Work) -> Result<(), GivenUp>
        ensures { IsMoreWork work.old work.new }
    {
        for _pivot in 0..MOST_PIVOTS {
            let Some(entering) = self.entering() else {
                return Ok(());
            };
            if work.pivots >= MOST_PIVOTS {
                return Err(GivenUp::Spent);
            }
            work.pivots = work.pivots.saturating_add(1);
            let Some(leaving) = self.leaving(entering)? else {
                return Err(GivenUp::Spent);
            };
            self.pivot(leaving, entering)?;
        }
        Err(GivenUp::Spent)
    }
}
