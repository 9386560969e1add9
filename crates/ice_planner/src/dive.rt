//! Dives from a side, to assignments that are whole.

use crate::planner::{Planner, closing};
use ice_best::Mark;
use ice_master::Aim;
use ice_relaxation::Candidate;
use std::alloc::AllocError;

/// Dives are made at the looks 1, 2, 4, 8 .., and at each multiple of this.
const TURN: u32 = 512;

/// A dive goes no deeper, which bounds its time.
const DEEPEST: u16 = 400;

/// A node of which the mix has at least this share is taken first: three tenths, in parts of 2^-40.
const TAKEN: i64 = 3 * (1 << 40) / 10;

/// Whether dives are made at the look of this number.
fn is_turn(looks: u32) -> bool {
    looks.is_power_of_two() || looks % TURN == 0
}

impl Planner<'_> {
    /// Whether the side may have something above the value.
    fn is_open(&mut self) -> bool {
        if self.marking.is_dead() {
            return false;
        }
        let target = closing(self.value);
        let dual = self.solve(Aim {
            close: target,
            keep: i64::MAX,
        });
        dual.bound >= target
    }

    /// The node of which the mix of the last solve has most, with its share.
    fn fullest(&self) -> Option<(Candidate, i64)> {
        let mut fullest = None;
        let mut most = 0;
        for candidate in self.master.candidates().as_slice() {
            if candidate.share > most {
                most = candidate.share;
                fullest = Some((candidate.node, most));
            }
        }
        fullest
    }

    /// Goes on to the side of a node that has this mark, or where that is closed to the other one.
    /// False where both are.
    fn go_to(&mut self, node: Candidate, first: Mark) -> bool {
        let second = match first {
            Mark::Must => Mark::Never,
            _ => Mark::Must,
        };
        self.marking.mark(node, first);
        if self.is_open() {
            return true;
        }
        self.marking.mark(node, second);
        self.is_open()
    }

    /// Goes down from the side, which is solved, to one that is whole or closed. The marks stay.
    fn dive(&mut self) -> Result<(), AllocError> {
        let mut path = Vec::new(self.alloc);
        for _level in 0..DEEPEST {
            self.offer();
            let Some((node, share)) = self.fullest() else {
                break;
            };
            if self.marking.mark_of(node) != Mark::Free {
                break;
            }
            path.push(node)?;
            let first = if share >= TAKEN {
                Mark::Must
            } else {
                Mark::Never
            };
            if !self.go_to(node, first) {
                break;
            }
        }
        for node in path.as_slice() {
            self.marking.mark(*node, Mark::Free);
        }
        Ok(())
    }

    /// Dives from the side, which is solved, where it is its turn.
    pub(crate) fn dive_by_turns(&mut self) -> Result<(), AllocError> {
        if is_turn(self.looks) {
            self.dive()?;
        }
        Ok(())
    }
}
