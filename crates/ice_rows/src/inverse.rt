//! The inverse of a working basis, of rows by rows.

use crate::derived::Line;
use ice_master::{ONE, clamped, product, rounded};

/// The inverse of a working basis: a line for each place of the basis with an entry for each row,
/// in parts of 2^-40.
#[derive(Drop)]
pub(crate) struct Inverse {
    lines: [Line; 256],
}

/// Subtracts a line so many times.
fn subtract(line: &mut Line, factor: i64, other: &Line, rows: u8) {
    for row in 0..rows {
        let entry = &mut line[usize::from(row)];
        *entry = entry.wrapping_sub(rounded(product(factor, other[usize::from(row)])));
    }
}

impl Inverse {
    /// That of no basis yet.
    pub(crate) fn zero() -> Inverse {
        Inverse {
            lines: [[0; 256]; 256],
        }
    }

    /// Makes it that of the basis in which of each row all is left over.
    pub(crate) fn clear(&mut self) {
        for row in 0..256 {
            self.lines[row] = [0; 256];
            self.lines[row][row] = ONE;
        }
    }

    /// How much of each basic makes up for these units, in parts of 2^-40.
    pub(crate) fn times(&self, units: &Line, rows: u8) -> Line {
        let mut amounts = [0; 256];
        for place in 0..rows {
            let line = &self.lines[usize::from(place)];
            let mut sum: i128 = 0;
            for row in 0..rows {
                let row = usize::from(row);
                sum = sum.wrapping_add(product(line[row], units[row]));
            }
            amounts[usize::from(place)] = clamped(sum);
        }
        amounts
    }

    /// What a unit of each row costs where the basics are worth this.
    pub(crate) fn costs(&self, worths: &Line, rows: u8) -> Line {
        let mut costs = [0; 256];
        for row in 0..rows {
            let row = usize::from(row);
            let mut sum: i128 = 0;
            for place in 0..rows {
                let place = usize::from(place);
                sum = sum.wrapping_add(product(worths[place], self.lines[place][row]));
            }
            costs[row] = rounded(sum);
        }
        costs
    }

    /// Puts another basic at a place, of which so much of each basic makes up for one.
    pub(crate) fn pivot(&mut self, place: u8, amounts: &Line, rows: u8) {
        self.divide(place, amounts[usize::from(place)], rows);
        let line = self.lines[usize::from(place)];
        for other in 0..rows {
            let factor = amounts[usize::from(other)];
            if other != place && factor != 0 {
                subtract(&mut self.lines[usize::from(other)], factor, &line, rows);
            }
        }
    }

    /// Divides a line. The reciprocal is in parts of 2^-50, ten bits finer than the entries.
    fn divide(&mut self, place: u8, pivot: i64, rows: u8) {
        if pivot == 0 {
            return;
        }
        let reciprocal = (1_i128 << 90) / i128::from(pivot);
        for row in 0..rows {
            let entry = &mut self.lines[usize::from(place)][usize::from(row)];
            let quotient = i128::from(*entry).wrapping_mul(reciprocal);
            *entry = clamped(quotient.wrapping_add(1 << 49) >> 50);
        }
    }

    /// Turns the line of a place, whose basic becomes the key column of its bidder: minus the sum
    /// of the lines of that bidder's columns.
    pub(crate) fn turn(&mut self, place: u8, is_own: &[bool; 256], rows: u8) {
        let mut sum = [0; 256];
        for other in 0..rows {
            if is_own[usize::from(other)] {
                subtract(&mut sum, ONE, &self.lines[usize::from(other)], rows);
            }
        }
        self.lines[usize::from(place)] = sum;
    }
}
