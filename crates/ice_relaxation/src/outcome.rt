//! What the operations of a tree come to at multipliers.

use crate::number::Number;
use crate::operation::{Above, Choice, Row, Rule, Work};
use crate::plan::Plan;

/// What a choice that takes one or several of its offered operands took of them.
#[derive(Clone, Copy)]
pub(crate) enum Taken {
    /// None.
    Nothing,
    /// The best one.
    Best(Number),
    /// The best ones: from the first place of its offered operands, the ranked ones up to this.
    Ranked(u8),
}

/// What the operations of a plan came to at the last multipliers.
#[derive(Clone, Copy)]
pub(crate) struct Outcome {
    /// What each adds where its node is inside, in 64ths.
    values: [i64; 256],
    /// What each took, where it is a choice that takes one or several.
    taken: [Taken; 256],
    /// The plan's operands once more, where those that a choice of several may take stand in order,
    /// the best first.
    ranked: [Number; 256],
}

impl Outcome {
    /// That of no tree yet.
    pub(crate) fn new() -> Outcome {
        Outcome {
            values: [0; 256],
            taken: [Taken::Nothing; 256],
            ranked: [Number::FIRST; 256],
        }
    }

    /// Begins with a new plan, whose operands are in no order yet.
    pub(crate) fn begin(&mut self, plan: &Plan) {
        self.ranked = *plan.operands();
    }

    /// What an operation adds.
    pub(crate) fn value(&self, number: Number) -> i64 {
        self.values[number.place()]
    }

    /// What a choice took that takes one or several.
    pub(crate) fn taken(&self, number: Number) -> Taken {
        self.taken[number.place()]
    }

    /// The ranked operand at a place.
    pub(crate) fn ranked(&self, place: u8) -> Number {
        self.ranked[usize::from(place)]
    }

    /// The root's operation, where the root is taken.
    pub(crate) fn taken_root(&self, plan: &Plan) -> Option<Number> {
        let root = plan.root()?;
        if plan.is_forced() || self.value(root) > 0 {
            Some(root)
        } else {
            None
        }
    }

    /// The greatest net of the tree.
    fn greatest_net(&self, plan: &Plan) -> i64 {
        match self.taken_root(plan) {
            Some(root) => self.value(root),
            None => 0,
        }
    }

    /// Works out all operations at the multipliers. The greatest net, in 64ths.
    pub(crate) fn evaluate(&mut self, plan: &Plan, m: &[i64; 32]) -> i64 {
        for number in 0..plan.len() {
            self.work_out(plan, Number::new(number), m);
        }
        self.greatest_net(plan)
    }

    /// Works out those operations that may change where only the multiplier of this good may be
    /// another than at the last time. The greatest net, in 64ths.
    pub(crate) fn evaluate_good(&mut self, plan: &Plan, m: &[i64; 32], good: u8) -> i64 {
        let mut waiting = plan.rows_with(good);
        for word in 0..=plan.len() / 64 {
            // those above come later: at most one for each bit
            for _operation in 0..64_u8 {
                let Some(number) = waiting.take_first(word) else {
                    break;
                };
                if let Some(above) = self.renew(plan, number, m) {
                    waiting.insert(above);
                }
            }
        }
        self.greatest_net(plan)
    }

    /// Works out the rows that have a good once more, and nothing else.
    pub(crate) fn renew_rows(&mut self, plan: &Plan, m: &[i64; 32], good: u8) {
        let mut waiting = plan.rows_with(good);
        for word in 0..4_u8 {
            for _row in 0..64_u8 {
                let Some(number) = waiting.take_first(word) else {
                    break;
                };
                self.work_out(plan, number, m);
            }
        }
    }

    /// Works out an operation once more. The one above it, where that may change with it.
    fn renew(&mut self, plan: &Plan, number: Number, m: &[i64; 32]) -> Option<Number> {
        let before = self.value(number);
        self.work_out(plan, number, m);
        let value = self.value(number);
        if value == before {
            return None;
        }
        match plan.above(number) {
            Above::Nothing => None,
            Above::Along(above) => Some(above),
            Above::Offered(above) => {
                if self.is_left(plan, above, number, before) {
                    None
                } else {
                    Some(above)
                }
            }
        }
    }

    /// Whether a choice left an operand that is offered where it added this, and leaves it too
    /// where it adds what it does now.
    fn is_left(&self, plan: &Plan, choice: Number, operand: Number, before: i64) -> bool {
        let Work::Choice(Choice { rule, .. }) = plan.operation(choice).work else {
            return false;
        };
        match rule {
            Rule::Bound | Rule::Several { .. } => false,
            Rule::Each => before <= 0 && self.value(operand) <= 0,
            Rule::BestGain | Rule::Best => self.is_behind_best(choice, operand),
        }
    }

    /// Whether an operand is not the one that the choice took as the best, and adds no more than
    /// that.
    fn is_behind_best(&self, choice: Number, operand: Number) -> bool {
        match self.taken(choice) {
            Taken::Best(best) => best != operand && self.value(operand) <= self.value(best),
            _ => self.value(operand) <= 0,
        }
    }

    /// Works out an operation. Inlined, since a call costs as much as most of them do. Numbers that
    /// wrap around would only mislead the steps, and none does: weights stay below 2^60, and what
    /// units cost below 2^54.
    #[inline(always)]
    fn work_out(&mut self, plan: &Plan, number: Number, m: &[i64; 32]) {
        let operation = plan.operation(number);
        let value = match operation.work {
            Work::Row(row) => self.row_value(plan, operation.worth, row, m),
            Work::Choice(choice) => self.choice_value(plan, operation.worth, number, choice),
        };
        self.values[number.place()] = value;
    }

    /// What a row of this weight adds.
    #[inline(always)]
    fn row_value(&self, plan: &Plan, weight: i64, row: Row, m: &[i64; 32]) -> i64 {
        let mut value = weight;
        for place in row.first..row.end {
            let leaf = plan.leaf(place);
            let cost = m[usize::from(leaf.good % 32)].wrapping_mul(i64::from(leaf.units));
            value = value.wrapping_sub(cost);
        }
        value
    }

    /// What a choice of this weight adds.
    #[inline(always)]
    fn choice_value(&mut self, plan: &Plan, weight: i64, number: Number, choice: Choice) -> i64 {
        let value = self.along_value(plan, weight, choice);
        let added = match choice.rule {
            Rule::Bound => 0,
            Rule::Each => self.gains(plan, choice),
            Rule::BestGain => self.take_best(plan, number, choice, 0),
            Rule::Best => self.take_best(plan, number, choice, i64::MIN),
            Rule::Several { need, room } => self.take_several(plan, number, choice, need, room),
        };
        value.wrapping_add(added)
    }

    /// What a node of this weight adds with the operands that come along.
    fn along_value(&self, plan: &Plan, weight: i64, choice: Choice) -> i64 {
        let mut value = weight;
        for place in choice.along..choice.offered {
            value = value.wrapping_add(self.value(plan.operand(place)));
        }
        value
    }

    /// What those of the offered operands add that add value.
    fn gains(&self, plan: &Plan, choice: Choice) -> i64 {
        let mut value: i64 = 0;
        for place in choice.offered..choice.end {
            value = value.wrapping_add(self.value(plan.operand(place)).max(0));
        }
        value
    }

    /// Takes the best of the offered operands that adds more than this, and says what is added.
    fn take_best(&mut self, plan: &Plan, number: Number, choice: Choice, more_than: i64) -> i64 {
        let mut best = Number::FIRST;
        let mut value = more_than;
        for place in choice.offered..choice.end {
            let operand = plan.operand(place);
            let other = self.value(operand);
            if other > value {
                value = other;
                best = operand;
            }
        }
        self.taken[number.place()] = if value > more_than {
            Taken::Best(best)
        } else {
            Taken::Nothing
        };
        value
    }

    /// Takes the offered operands that are needed and those that add value, as long as there is
    /// room, and says what they add.
    fn take_several(
        &mut self,
        plan: &Plan,
        number: Number,
        choice: Choice,
        need: u8,
        room: u8,
    ) -> i64 {
        for place in choice.offered..choice.end {
            self.rank(choice.offered, place);
        }
        let mut value: i64 = 0;
        let mut end = choice.offered;
        for place in choice.offered..choice.end {
            let taken = place - choice.offered;
            let more = self.value(self.ranked(place));
            if taken >= room || taken >= need && more <= 0 {
                break;
            }
            value = value.wrapping_add(more);
            end = place + 1;
        }
        self.taken[number.place()] = Taken::Ranked(end);
        value
    }

    /// Moves the ranked operand at a place to the front, as far as it adds more than those before
    /// it. From one time to the next few change places.
    fn rank(&mut self, first: u8, place: u8) {
        let number = self.ranked(place);
        let value = self.value(number);
        for before in (first..place).rev() {
            let other = self.ranked(before);
            if self.value(other) >= value {
                break;
            }
            self.ranked[usize::from(before + 1)] = other;
            self.ranked[usize::from(before)] = number;
        }
    }
}
