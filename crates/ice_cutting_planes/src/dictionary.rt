//! Dictionaries of the dual program.
use crate::asked::Asked;
use crate::cut::Cut;
use crate::equation::{Equation, Variable};
use crate::numbers::{divisor_of, product, quotient, sum};
use crate::violation::Violation;
use crate::work::GivenUp;
use std::alloc::{AllocError, Global};

/// The variables on the right, an equation for each variable on the left, one for the objective,
/// and the cuts whose multipliers are among the variables.
///
/// Each price has an infinitesimal cost of its own, a perturbation: of equal points the one with
/// the least sum of prices is sought, and almost no pivot gains nothing.
pub(crate) struct Dictionary {
    goods: u8,
    pub(crate) asked: Asked,
    pub(crate) left: Vec<Equation>,
    pub(crate) right: Vec<Variable>,
    pub(crate) objective: Equation,
    pub(crate) cuts: Vec<Cut>,
}

// By hand, so that each exit that drops one has one call to prove, and not all its parts.
impl Drop for Dictionary {
    fn drop(self) {
        let Dictionary {
            goods: _,
            asked: _,
            left: _,
            right: _,
            objective: _,
            cuts: _,
        } = self;
    }
}

/// The numbers of the columns over one denominator, in lowest terms.
#[derive(Drop)]
pub(crate) struct Point {
    pub(crate) den: i128,
    pub(crate) nums: Vec<i128>,
}

impl Point {
    /// The number of the last column.
    pub(crate) fn last(&self) -> i128 {
        self.nums.last().copied().unwrap_or(0)
    }
}

/// A place on the right with a coefficient.
#[derive(Clone, Copy)]
struct Term {
    place: usize,
    coeff: i128,
}

/// The sum of a number and, for each term, its coefficient times the equation's at its place.
fn with_terms(equation: &Equation, terms: &[Term], start: i128) -> Result<i128, GivenUp> {
    let mut total = start;
    for term in terms {
        total = sum(total, product(term.coeff, equation.coeff(term.place))?)?;
    }
    Ok(total)
}

/// The first equation of a column: 1 times the good's multiplier, or `last` times each where it is
/// the last column.
fn first_equation(
    alloc: Global,
    column: u8,
    goods: u8,
    last: i128,
) -> Result<Equation, AllocError> {
    let mut coeffs = vec![in alloc; 0i128; usize::from(goods)]?;
    for good in 0..coeffs.len() {
        if column == goods {
            coeffs[good] = last;
        } else if good == usize::from(column) {
            coeffs[good] = 1;
        }
    }
    Ok(Equation {
        variable: Variable::Slack(column),
        den: 1,
        main: i128::from(column == goods),
        small: i128::from(column != goods),
        coeffs,
    })
}

/// The equations of all columns: of so many goods, and of the last one, in which each good has
/// `last` with its sign turned.
fn first_equations(alloc: Global, goods: u8, last: i128) -> Result<Vec<Equation>, AllocError> {
    let mut left = Vec::new(alloc);
    for column in 0..goods {
        left.push(first_equation(alloc, column, goods, 0)?)?;
    }
    left.push(first_equation(alloc, goods, goods, last.wrapping_neg())?)?;
    Ok(left)
}

/// The variables on the right at the beginning, one for each good.
fn good_variables(alloc: Global, goods: u8) -> Result<Vec<Variable>, AllocError> {
    let mut right = Vec::new(alloc);
    for good in 0..goods {
        right.push(Variable::Good(good))?;
    }
    Ok(right)
}

impl Dictionary {
    /// A dictionary of so many goods, each of which has a row that asks for `last` times the last
    /// column less the good's price to be at least `least`.
    fn of_goods(
        alloc: Global,
        goods: u8,
        asked: Asked,
        last: i128,
        least: i128,
    ) -> Result<Dictionary, GivenUp> {
        let left = first_equations(alloc, goods, last)?;
        let right = good_variables(alloc, goods)?;
        let objective = Equation {
            variable: Variable::Objective,
            den: 1,
            main: 0,
            small: 0,
            coeffs: vec![in alloc; least; usize::from(goods)]?,
        };
        Ok(Dictionary {
            goods,
            asked,
            left,
            right,
            objective,
            cuts: Vec::new(alloc),
        })
    }

    /// A program over prices up to the cap.
    fn capped(alloc: Global, goods: u8, cap: i64, asked: Asked) -> Result<Dictionary, GivenUp> {
        let highest = asked.highest(cap, 1)?;
        Dictionary::of_goods(alloc, goods, asked, 0, highest.wrapping_neg())
    }

    /// The program that makes the violation least, at prices up to the cap.
    pub(crate) fn accuracy(alloc: Global, goods: u8, cap: i64) -> Result<Dictionary, GivenUp> {
        Dictionary::capped(alloc, goods, cap, Asked::accuracy())
    }

    /// The program that makes the greatest price least, at a violation.
    pub(crate) fn balance(
        alloc: Global,
        goods: u8,
        violation: &Violation,
    ) -> Result<Dictionary, GivenUp> {
        Dictionary::of_goods(alloc, goods, Asked::balance(violation), 1, 0)
    }

    /// The program that makes the greatest gap between what bidders pay, over the denominator
    /// `cut`, and what their sets cost least, at a violation and at prices up to the cap.
    pub(crate) fn nearest(
        alloc: Global,
        goods: u8,
        cap: i64,
        violation: &Violation,
        cut: u16,
    ) -> Result<Dictionary, GivenUp> {
        Dictionary::capped(alloc, goods, cap, Asked::nearest(violation, cut)?)
    }

    /// How many columns there are.
    pub(crate) fn columns(&self) -> usize {
        self.right.len()
    }

    /// The point at which the dictionary stands.
    pub(crate) fn point(&self, alloc: Global) -> Result<Point, GivenUp> {
        let mut nums = vec![in alloc; 0i128; usize::from(self.goods) + 1]?;
        for (place, variable) in self.right.iter().enumerate() {
            if let Variable::Slack(column) = *variable {
                let column = usize::from(column);
                if column < nums.len() {
                    nums[column] = self.objective.coeff(place).wrapping_neg();
                }
            }
        }
        let shared = divisor_of(self.objective.den, &nums);
        for num in nums.iter_mut() {
            *num = quotient(*num, shared);
        }
        Ok(Point {
            den: quotient(self.objective.den, shared),
            nums,
        })
    }

    /// Where the slacks of a cut's columns stand on the right, with what the cut's row has there.
    fn terms(&self, alloc: Global, cut: &Cut) -> Result<Vec<Term>, AllocError> {
        let mut terms = Vec::new(alloc);
        for (place, variable) in self.right.iter().enumerate() {
            if let Variable::Slack(column) = *variable {
                let coeff = cut.at(column, self.goods, &self.asked);
                if coeff != 0 {
                    terms.push(Term { place, coeff })?;
                }
            }
        }
        Ok(terms)
    }

    /// What an equation on the left has of a new cut's multiplier.
    fn new_coeff(&self, equation: &Equation, cut: &Cut, terms: &[Term]) -> Result<i128, GivenUp> {
        let start = match equation.variable {
            Variable::Slack(column) => {
                let coeff = cut.at(column, self.goods, &self.asked);
                product(coeff, equation.den.wrapping_neg())?
            }
            Variable::Good(_) | Variable::Cut(_) | Variable::Objective => 0,
        };
        with_terms(equation, terms, start)
    }

    /// What all equations on the left have of a new cut's multiplier.
    fn new_coeffs(&self, alloc: Global, cut: &Cut, terms: &[Term]) -> Result<Vec<i128>, GivenUp> {
        let mut column = Vec::new(alloc);
        for equation in &self.left {
            column.push(self.new_coeff(equation, cut, terms)?)?;
        }
        Ok(column)
    }

    /// What the objective has of a new cut's multiplier.
    fn gain(&self, cut: &Cut, terms: &[Term]) -> Result<i128, GivenUp> {
        let least = product(cut.least(&self.asked)?, self.objective.den)?;
        with_terms(&self.objective, terms, least)
    }

    /// Adds a cut with its multiplier on the right.
    fn add_variable(&mut self, gain: i128, cut: Cut) -> Result<(), AllocError> {
        self.objective.coeffs.push(gain)?;
        self.right.push(Variable::Cut(self.cuts.len()))?;
        self.cuts.push(cut)?;
        Ok(())
    }

    /// Adds the row of a cut as a column, where the point doesn't meet it. Whether it was added.
    pub(crate) fn add(&mut self, alloc: Global, cut: Cut) -> Result<bool, GivenUp> {
        let terms = self.terms(alloc, &cut)?;
        let gain = self.gain(&cut, &terms)?;
        if gain <= 0 {
            return Ok(false);
        }
        let column = self.new_coeffs(alloc, &cut, &terms)?;
        add_column(&mut self.left, &column)?;
        self.add_variable(gain, cut)?;
        Ok(true)
    }
}

/// Adds a coefficient to each equation.
fn add_column(left: &mut [Equation], column: &[i128]) -> Result<(), GivenUp> {
    for place in 0..left.len() {
        let coeff = column.get(place).copied().unwrap_or(0);
        let equation = &mut left[place];
        equation.coeffs.push(coeff)?;
    }
    Ok(())
}
