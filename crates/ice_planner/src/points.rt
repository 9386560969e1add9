//! Multipliers that gave the bounds of sides.

use std::alloc::{AllocError, Global};

/// So many are kept: of more the first are forgotten.
const MOST: usize = 262_144;

/// Markets that are planned have at most so many goods.
pub(crate) const MOST_PLANNED_GOODS: u8 = 12;

/// Multipliers that gave the bounds of sides, each kept by a number.
#[derive(Drop)]
pub(crate) struct Points {
    points: Vec<[i64; 12]>,
    next: usize,
}

/// The multipliers of the first goods.
fn narrowed(multipliers: &[i64; 32]) -> [i64; 12] {
    let mut point = [0; 12];
    for good in 0..12 {
        point[good] = multipliers[good];
    }
    point
}

impl Points {
    /// With none.
    pub(crate) fn new(alloc: Global) -> Points {
        Points {
            points: Vec::new(alloc),
            next: 0,
        }
    }

    /// Keeps multipliers, and answers their number.
    pub(crate) fn keep(&mut self, multipliers: &[i64; 32]) -> Result<usize, AllocError> {
        let number = self.next;
        self.next = number.wrapping_add(1) % MOST;
        if self.points.len() <= number {
            self.points.push(narrowed(multipliers))?;
            return Ok(number);
        }
        self.put(number, multipliers);
        Ok(number)
    }

    /// Keeps multipliers by a number that is known.
    pub(crate) fn put(&mut self, number: usize, multipliers: &[i64; 32]) {
        if let Some(point) = self.points.get_mut(number) {
            *point = narrowed(multipliers);
        }
    }

    /// The multipliers that are kept by a number.
    pub(crate) fn get(&self, number: usize) -> Option<[i64; 32]> {
        let point = self.points.get(number)?;
        let mut multipliers = [0; 32];
        for good in 0..12 {
            multipliers[good] = point[good];
        }
        Some(multipliers)
    }
}
