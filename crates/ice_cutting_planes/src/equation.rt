//! Equations of a dictionary in whole numbers.
use crate::numbers::{divide_all, divisor, divisor_of, mixed, product, quotient};
use crate::work::GivenUp;

/// A variable of the dual program.
#[derive(Clone, Copy, PartialEq, Eq, PartialOrd, Ord)]
pub(crate) enum Variable {
    /// The multiplier of a good's row.
    Good(u8),
    /// The multiplier of a cut's row.
    Cut(usize),
    /// The slack of a column: those of the prices in turn, and then that of the number that is made
    /// least.
    Slack(u8),
    /// The objective.
    Objective,
}

/// A variable by those on the right: `den` times it is `main`, and `small` times an infinitesimal,
/// and the sum of each coefficient times its variable. `den` is above 0, and all numbers are in
/// lowest terms.
#[derive(Drop)]
pub(crate) struct Equation {
    pub(crate) variable: Variable,
    pub(crate) den: i128,
    pub(crate) main: i128,
    pub(crate) small: i128,
    pub(crate) coeffs: Vec<i128>,
}

/// Adds `factor` times the other coefficients to `times` these.
fn mix_coeffs(
    coeffs: &mut [i128],
    times: i128,
    others: &[i128],
    factor: i128,
) -> Result<(), GivenUp> {
    for place in 0..coeffs.len() {
        let own = coeffs[place];
        let other = others.get(place).copied().unwrap_or(0);
        if own != 0 || other != 0 {
            coeffs[place] = mixed(own, times, other, factor)?;
        }
    }
    Ok(())
}

impl Equation {
    /// The coefficient at a place, 0 past the last one.
    pub(crate) fn coeff(&self, place: usize) -> i128 {
        self.coeffs.get(place).copied().unwrap_or(0)
    }

    /// Sets the coefficient at a place.
    fn put_coeff(&mut self, place: usize, coeff: i128) {
        if place < self.coeffs.len() {
            self.coeffs[place] = coeff;
        }
    }

    /// Divides all numbers by their greatest common divisor.
    fn lower(&mut self) {
        let ends = divisor(self.small, divisor(self.main, self.den));
        let shared = divisor_of(ends, &self.coeffs);
        if shared == 1 {
            return;
        }
        self.den = quotient(self.den, shared);
        self.main = quotient(self.main, shared);
        self.small = quotient(self.small, shared);
        divide_all(&mut self.coeffs, shared);
    }

    /// Solves the equation for the variable at a place on the right, which has a coefficient below
    /// 0: it and the variable of the equation change places, and the signs of their coefficients
    /// turn.
    pub(crate) fn solve_for(&mut self, place: usize) {
        let coeff = self.coeff(place);
        self.put_coeff(place, self.den.wrapping_neg());
        self.den = coeff.wrapping_neg();
    }

    /// Puts the equation of the variable at a place on the right into this one.
    pub(crate) fn put(&mut self, place: usize, by: &Equation) -> Result<(), GivenUp> {
        let factor = self.coeff(place);
        if factor == 0 {
            return Ok(());
        }
        let shared = divisor(factor, by.den);
        let times = quotient(by.den, shared);
        let factor = quotient(factor, shared);
        self.put_coeff(place, 0);
        self.den = product(self.den, times)?;
        self.main = mixed(self.main, times, by.main, factor)?;
        self.small = mixed(self.small, times, by.small, factor)?;
        mix_coeffs(&mut self.coeffs, times, &by.coeffs, factor)?;
        self.lower();
        Ok(())
    }
}
