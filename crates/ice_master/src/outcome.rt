//! What the operations of a tree come to at multipliers, and the set that is worth most.

use crate::column::Column;
use crate::form::Form;
use ice_relaxation::{Choice, Row, Rule, Work};

/// What a choice took of its offered operands that takes one or several.
#[derive(Clone, Copy)]
enum Taken {
    /// None.
    Nothing,
    /// This one.
    One(u8),
    /// The ranked ones, from the first place of its offered operands up to this.
    Ranked(u8),
}

/// What the operations of a form came to at the last multipliers.
#[derive(Drop)]
pub(crate) struct Outcome {
    /// What each adds where its node is inside.
    values: [i64; 256],
    /// What each took, where it is a choice that takes one or several.
    taken: [Taken; 256],
    /// The form's operands once more, where a choice of several put the best ones first.
    ranked: [u8; 256],
    /// A stack of operations that are taken and not looked at yet ..
    waiting: [u8; 256],
    /// .. and how many there are.
    height: u8,
}

impl Outcome {
    /// That of no form yet.
    pub(crate) fn new() -> Outcome {
        Outcome {
            values: [0; 256],
            taken: [Taken::Nothing; 256],
            ranked: [0; 256],
            waiting: [0; 256],
            height: 0,
        }
    }

    /// What an operation adds.
    fn value(&self, number: u8) -> i64 {
        self.values[usize::from(number)]
    }

    /// The root's operation, where the root is taken.
    fn taken_root(&self, form: &Form) -> Option<u8> {
        let root = form.root()?;
        if form.is_forced() || self.value(root) > 0 {
            Some(root)
        } else {
            None
        }
    }

    /// Works out all operations at the multipliers. The greatest net.
    pub(crate) fn evaluate(&mut self, form: &Form, m: &[i64; 16]) -> i64 {
        for number in 0..form.len() {
            self.work_out(form, number, m);
        }
        match self.taken_root(form) {
            Some(root) => self.value(root),
            None => 0,
        }
    }

    /// Works out an operation. Numbers that wrap around would only mislead, and none does where
    /// multipliers are as large as weights.
    #[inline(always)]
    fn work_out(&mut self, form: &Form, number: u8, m: &[i64; 16]) {
        let operation = form.operation(number);
        let added = match operation.work {
            Work::Row(row) => row_cost(form, row, m).wrapping_neg(),
            Work::Choice(choice) => self.choose(form, number, choice),
        };
        self.values[usize::from(number)] = operation.worth.wrapping_add(added);
    }

    /// What the operands of a choice add.
    #[inline(always)]
    fn choose(&mut self, form: &Form, number: u8, choice: Choice) -> i64 {
        let mut value: i64 = 0;
        for place in choice.along..choice.offered {
            value = value.wrapping_add(self.value(form.operand(place)));
        }
        let added = match choice.rule {
            Rule::Bound => 0,
            Rule::Each => self.gains(form, choice),
            Rule::BestGain => self.take_best(form, number, choice, 0),
            Rule::Best => self.take_best(form, number, choice, i64::MIN),
            Rule::Several { need, room } => self.take_several(form, number, choice, need, room),
        };
        value.wrapping_add(added)
    }

    /// What those of the offered operands add that add value.
    fn gains(&self, form: &Form, choice: Choice) -> i64 {
        let mut value: i64 = 0;
        for place in choice.offered..choice.end {
            value = value.wrapping_add(self.value(form.operand(place)).max(0));
        }
        value
    }

    /// Takes the best of the offered operands that adds more than this, and says what is added.
    fn take_best(&mut self, form: &Form, number: u8, choice: Choice, more_than: i64) -> i64 {
        let mut taken = Taken::Nothing;
        let mut value = more_than;
        for place in choice.offered..choice.end {
            let operand = form.operand(place);
            let other = self.value(operand);
            if other > value {
                value = other;
                taken = Taken::One(operand);
            }
        }
        self.taken[usize::from(number)] = taken;
        value
    }

    /// Takes the offered operands that are needed and those that add value, as long as there is
    /// room, and says what they add.
    fn take_several(&mut self, form: &Form, number: u8, choice: Choice, need: u8, room: u8) -> i64 {
        for place in choice.offered..choice.end {
            self.ranked[usize::from(place)] = form.operand(place);
        }
        let mut value: i64 = 0;
        let mut end = choice.offered;
        for place in choice.offered..choice.end {
            let taken = place - choice.offered;
            if taken >= room {
                break;
            }
            let more = self.bring_best(place, choice.end);
            if taken >= need && more <= 0 {
                break;
            }
            value = value.wrapping_add(more);
            end = place + 1;
        }
        self.taken[usize::from(number)] = Taken::Ranked(end);
        value
    }

    /// Brings the best of the ranked operands from a place on to that place, and says what it adds.
    fn bring_best(&mut self, place: u8, end: u8) -> i64 {
        let first = self.ranked[usize::from(place)];
        let best_place = self.best_place(place, end);
        let best = self.ranked[usize::from(best_place)];
        self.ranked[usize::from(place)] = best;
        self.ranked[usize::from(best_place)] = first;
        self.value(best)
    }

    /// The place of the best of the ranked operands from a place on.
    fn best_place(&self, place: u8, end: u8) -> u8 {
        let mut best = place;
        let mut most = self.value(self.ranked[usize::from(place)]);
        for other in place..end {
            let value = self.value(self.ranked[usize::from(other)]);
            if value > most {
                best = other;
                most = value;
            }
        }
        best
    }

    /// The set of a bidder that was found worth most.
    pub(crate) fn best_set(&mut self, form: &Form, bidder: u8) -> Column {
        let mut column = Column::empty(bidder);
        let Some(root) = self.taken_root(form) else {
            return column;
        };
        self.height = 0;
        self.wait(root);
        for _taken in 0..form.len() {
            let Some(number) = self.pop() else {
                break;
            };
            let operation = form.operation(number);
            column.add(form.nodes(number), operation.worth);
            match operation.work {
                Work::Row(row) => add_units(form, row, &mut column),
                Work::Choice(choice) => self.wait_for_taken(form, number, choice),
            }
        }
        column
    }

    /// Lets one more wait.
    fn wait(&mut self, number: u8) {
        self.waiting[usize::from(self.height)] = number;
        self.height = self.height.saturating_add(1);
    }

    /// The one that waits as the last, which waits no more.
    fn pop(&mut self) -> Option<u8> {
        if self.height == 0 {
            return None;
        }
        self.height -= 1;
        Some(self.waiting[usize::from(self.height)])
    }

    /// Lets the operands wait that a choice took.
    fn wait_for_taken(&mut self, form: &Form, number: u8, choice: Choice) {
        for place in choice.along..choice.offered {
            self.wait(form.operand(place));
        }
        match choice.rule {
            Rule::Bound => {}
            Rule::Each => self.wait_for_gains(form, choice),
            Rule::BestGain | Rule::Best | Rule::Several { .. } => {
                self.wait_for_best(number, choice);
            }
        }
    }

    /// Lets those of the offered operands wait that add value.
    fn wait_for_gains(&mut self, form: &Form, choice: Choice) {
        for place in choice.offered..choice.end {
            let operand = form.operand(place);
            if self.value(operand) > 0 {
                self.wait(operand);
            }
        }
    }

    /// Lets those of the offered operands wait that a choice of one or several took.
    fn wait_for_best(&mut self, number: u8, choice: Choice) {
        match self.taken[usize::from(number)] {
            Taken::Nothing => {}
            Taken::One(best) => self.wait(best),
            Taken::Ranked(end) => {
                for place in choice.offered..end {
                    self.wait(self.ranked[usize::from(place)]);
                }
            }
        }
    }
}

/// What the leaves of a row cost.
#[inline(always)]
fn row_cost(form: &Form, row: Row, m: &[i64; 16]) -> i64 {
    let mut cost: i64 = 0;
    for place in row.first..row.end {
        let leaf = form.leaf(place);
        let units = i64::from(leaf.units);
        cost = cost.wrapping_add(m[usize::from(leaf.good % 16)].wrapping_mul(units));
    }
    cost
}

/// Adds the units of a row to a set.
fn add_units(form: &Form, row: Row, column: &mut Column) {
    for place in row.first..row.end {
        let leaf = form.leaf(place);
        column.add_units(leaf.good, leaf.units);
    }
}
