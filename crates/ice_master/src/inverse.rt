//! The inverse of a working basis, of goods by goods.

use crate::scale::{ONE, clamped, product, rounded};

/// The inverse of a working basis: a row for each place of the basis and a column for each good, in
/// parts of 2^-40.
#[derive(Clone, Copy)]
pub(crate) struct Inverse {
    rows: [[i64; 16]; 16],
    goods: u8,
}

impl Inverse {
    /// That of the basis in which all units are left over.
    pub(crate) fn unit(goods: u8) -> Inverse {
        let mut rows = [[0; 16]; 16];
        for good in 0..16 {
            rows[good][good] = ONE;
        }
        Inverse { rows, goods }
    }

    /// How much of each basic makes up for these units, in parts of 2^-40.
    pub(crate) fn times(&self, units: &[i64; 16]) -> [i64; 16] {
        let mut amounts = [0; 16];
        for place in 0..self.goods {
            let row = &self.rows[usize::from(place % 16)];
            let mut sum: i128 = 0;
            for good in 0..self.goods {
                let column = usize::from(good % 16);
                sum = sum.wrapping_add(product(row[column], units[column]));
            }
            amounts[usize::from(place % 16)] = clamped(sum);
        }
        amounts
    }

    /// What a unit of each good costs where the basics are worth this.
    pub(crate) fn costs(&self, worths: &[i64; 16]) -> [i64; 16] {
        let mut costs = [0; 16];
        for good in 0..self.goods {
            let column = usize::from(good % 16);
            let mut sum: i128 = 0;
            for place in 0..self.goods {
                let row = usize::from(place % 16);
                sum = sum.wrapping_add(product(worths[row], self.rows[row][column]));
            }
            costs[column] = rounded(sum);
        }
        costs
    }

    /// Puts another basic at a place, of which so much of each basic makes up for one.
    pub(crate) fn pivot(&mut self, place: u8, amounts: &[i64; 16]) {
        self.divide(place, amounts[usize::from(place % 16)]);
        let row = self.rows[usize::from(place % 16)];
        for other in 0..self.goods {
            let factor = amounts[usize::from(other % 16)];
            if other != place && factor != 0 {
                self.subtract(other, factor, &row);
            }
        }
    }

    /// Divides a row. The reciprocal is in parts of 2^-50, ten bits finer than the entries.
    fn divide(&mut self, place: u8, pivot: i64) {
        if pivot == 0 {
            return;
        }
        let reciprocal = (1_i128 << 90) / i128::from(pivot);
        for good in 0..self.goods {
            let entry = &mut self.rows[usize::from(place % 16)][usize::from(good % 16)];
            let quotient = i128::from(*entry).wrapping_mul(reciprocal);
            *entry = clamped(quotient.wrapping_add(1 << 49) >> 50);
        }
    }

    /// Subtracts a row so many times from that of a place.
    fn subtract(&mut self, place: u8, factor: i64, row: &[i64; 16]) {
        for good in 0..self.goods {
            let column = usize::from(good % 16);
            let entry = &mut self.rows[usize::from(place % 16)][column];
            *entry = entry.wrapping_sub(rounded(product(factor, row[column])));
        }
    }

    /// Turns the row of a place, whose basic becomes the key column of its bidder: minus the sum of
    /// the rows of that bidder's columns, which have a bit each.
    pub(crate) fn turn(&mut self, place: u8, places: u16) {
        for good in 0..self.goods {
            let column = usize::from(good % 16);
            let mut sum: i64 = 0;
            for other in 0..self.goods {
                if (places >> (other % 16)) & 1 == 1 {
                    sum = sum.wrapping_add(self.rows[usize::from(other % 16)][column]);
                }
            }
            self.rows[usize::from(place % 16)][column] = sum.wrapping_neg();
        }
    }
}
