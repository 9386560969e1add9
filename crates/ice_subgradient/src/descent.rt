//! A descent: steps toward multipliers at which the sum of the greatest nets is small.
ghost use Rattle.std.specs.Prelude.{◌≡◌};

use crate::course::{Course, Goods};
use crate::level::Level;
use ice_relaxation::{Relaxation, Sight};

/// A descent at one side. It says where to look, and decides nothing.
#[derive(Drop)]
pub(crate) struct Descent {
    goods: Goods,
    level: Level,
    course: Course,
    /// What is seen where the course is.
    here: Sight,
    /// The multipliers of the least sum so far ..
    least_m: [i64; 32],
    /// .. and what is seen there.
    least: Sight,
    /// The multipliers to look at next.
    sought: [i64; 32],
    /// An assignment above this value was looked at, or is known.
    value: i128,
    /// The weight of the last step in the counts of the nodes.
    weight: u32,
    left: u16,
    has_begun: bool,
    is_over: bool,
}

impl Descent {
    /// A descent from these multipliers in at most so many steps.
    pub(crate) fn from(
        goods: Goods,
        m: &[i64; 32],
        relaxation: &mut Relaxation,
        steps: u16,
    ) -> Descent
        ensures { relaxation.new ≡ relaxation.old }
    {
        let here = relaxation.evaluate(m, 1);
        Descent {
            goods,
            level: Level::new(),
            course: Course::at(m),
            here,
            least_m: *m,
            least: here,
            sought: *m,
            value: i128::MIN,
            weight: 1,
            left: steps,
            has_begun: false,
            is_over: false,
        }
    }

    /// Whether no more steps are worth it.
    pub(crate) fn is_over(&self) -> bool {
        self.is_over
    }

    /// The multipliers to look at: those where an assignment above the value came up, and those of
    /// the least sum at the end.
    pub(crate) fn sought(&self) -> &[i64; 32] {
        &self.sought
    }

    /// The multipliers of the least sum that was seen.
    pub(crate) fn least_multipliers(&self) -> &[i64; 32] {
        &self.least_m
    }

    /// The least sum that was seen.
    pub(crate) fn least_total(&self) -> i128 {
        self.least.total
    }

    /// Looks here at first, and goes on until an assignment above the value comes up, or to the
    /// end.
    pub(crate) fn go(&mut self, relaxation: &mut Relaxation, value: i128)
        ensures { relaxation.new ≡ relaxation.old }
    {
        self.value = self.value.max(value);
        if !self.has_begun {
            self.has_begun = true;
            if self.look() {
                return;
            }
        }
        for _step in 0..self.left {
            if !self.step(relaxation) {
                break;
            }
            let is_better = self.look();
            self.settle();
            if is_better {
                return;
            }
        }
        self.is_over = true;
        self.sought = self.least_m;
    }

    /// One step, unless there is no lower sum or it would not help.
    fn step(&mut self, relaxation: &mut Relaxation) -> bool
        ensures { relaxation.new ≡ relaxation.old }
    {
        if !self.level.aim(self.least.total, self.value) {
            return false;
        }
        let turn = self.course.turn(&self.goods, &self.here.excess);
        if turn.is_least {
            return false;
        }
        let rate = self
            .level
            .rate(self.here.total, self.least.total, turn.square);
        self.course.step(&self.goods, rate);
        self.weight = self.weight.saturating_add(1);
        self.left = self.left.saturating_sub(1);
        self.here = relaxation.evaluate(&self.course.m, self.weight);
        true
    }

    /// Whether an assignment above the value came up here.
    fn look(&mut self) -> bool {
        let mut worth = self.here.total;
        for good in 0..self.goods.len() {
            let excess = self.here.excess[good];
            if excess > 0 || self.goods.exact[good] && excess != 0 {
                return false;
            }
            let cost = i128::from(self.course.m[good]).wrapping_mul(i128::from(excess));
            worth = worth.wrapping_add(cost);
        }
        let is_more = worth >> 6 > self.value;
        if is_more {
            self.value = worth >> 6;
            self.sought = self.course.m;
        }
        is_more
    }

    /// Keeps a lower sum. Where none came up for long, the level is raised, and the steps begin
    /// anew at the lowest one.
    fn settle(&mut self) {
        let fall = self.least.total.saturating_sub(self.here.total);
        let is_falling = self.level.watch(fall);
        if fall > 0 {
            self.least = self.here;
            self.least_m = self.course.m;
        }
        if !is_falling {
            self.level.raise();
            self.course = Course::at(&self.least_m);
            self.here = self.least;
        }
    }
}
