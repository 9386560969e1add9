//! What of a tree is taken: the units of the set that was found, and how often each node was in it.

use crate::number::Number;
use crate::operation::{Choice, Row, Rule, Work};
use crate::outcome::{Outcome, Taken};
use crate::plan::Plan;

/// How often the node of each operation was taken.
#[derive(Clone, Copy)]
pub(crate) struct Counts {
    counts: [u32; 256],
    /// A stack of operations that are taken and not counted yet ..
    waiting: [Number; 256],
    /// .. and how many there are.
    height: u8,
}

/// Adds the units of a row to the excess.
fn add_units(plan: &Plan, row: Row, excess: &mut [i64; 32]) {
    for place in row.first..row.end {
        let leaf = plan.leaf(place);
        let sum = &mut excess[usize::from(leaf.good % 32)];
        *sum = sum.wrapping_add(i64::from(leaf.units));
    }
}

impl Counts {
    /// Those of no tree yet.
    pub(crate) fn new() -> Counts {
        Counts {
            counts: [0; 256],
            waiting: [Number::FIRST; 256],
            height: 0,
        }
    }

    /// Sets the counts of a plan to 0.
    pub(crate) fn clear(&mut self, plan: &Plan) {
        for number in 0..plan.len() {
            self.counts[usize::from(number)] = 0;
        }
    }

    /// How often the node of an operation was taken.
    pub(crate) fn of(&self, number: Number) -> u32 {
        self.counts[number.place()]
    }

    /// Adds the units of the set that was found to the excess, and the weight to the count of each
    /// of its operations.
    pub(crate) fn take(
        &mut self,
        plan: &Plan,
        outcome: &Outcome,
        weight: u32,
        excess: &mut [i64; 32],
    ) {
        let Some(root) = outcome.taken_root(plan) else {
            return;
        };
        self.height = 0;
        self.wait(root);
        for _taken in 0..plan.len() {
            let Some(number) = self.pop() else {
                break;
            };
            let count = &mut self.counts[number.place()];
            *count = count.saturating_add(weight);
            match plan.operation(number).work {
                Work::Row(row) => add_units(plan, row, excess),
                Work::Choice(choice) => self.wait_for_taken(plan, outcome, number, choice),
            }
        }
    }

    /// Lets one more wait.
    fn wait(&mut self, number: Number) {
        self.waiting[usize::from(self.height)] = number;
        self.height = self.height.saturating_add(1);
    }

    /// The one that waits as the last, which waits no more.
    fn pop(&mut self) -> Option<Number> {
        if self.height == 0 {
            return None;
        }
        self.height -= 1;
        Some(self.waiting[usize::from(self.height)])
    }

    /// Lets the operands wait that a choice takes.
    fn wait_for_taken(&mut self, plan: &Plan, outcome: &Outcome, number: Number, choice: Choice) {
        for place in choice.along..choice.offered {
            self.wait(plan.operand(place));
        }
        match choice.rule {
            Rule::Bound => {}
            Rule::Each => self.wait_for_gains(plan, outcome, choice),
            Rule::BestGain | Rule::Best | Rule::Several { .. } => {
                self.wait_for_best(outcome, number, choice);
            }
        }
    }

    /// Lets those of the offered operands wait that a choice of one or several took.
    fn wait_for_best(&mut self, outcome: &Outcome, number: Number, choice: Choice) {
        match outcome.taken(number) {
            Taken::Nothing => {}
            Taken::Best(best) => self.wait(best),
            Taken::Ranked(end) => {
                for place in choice.offered..end {
                    self.wait(outcome.ranked(place));
                }
            }
        }
    }

    /// Lets those of the offered operands wait that add value.
    fn wait_for_gains(&mut self, plan: &Plan, outcome: &Outcome, choice: Choice) {
        for place in choice.offered..choice.end {
            let operand = plan.operand(place);
            if outcome.value(operand) > 0 {
                self.wait(operand);
            }
        }
    }
}
