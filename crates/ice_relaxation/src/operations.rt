//! A tree under marks as a short list of operations, which work out its greatest net and take the
//! nodes of it.
ghost use Rattle.std.specs.Prelude.{◌≡◌, length};

use crate::number::Number;
use crate::openness::{Openness, mark_of};
use crate::operation::{Choice, Operation, Rule, Work, bit_of};
use crate::outcome::Outcome;
use crate::plan::Plan;
use crate::profile::{Line, Offers, Profile, Share};
use crate::taking::Counts;
use ice_best::{Fixing, Mark};
use ice_tree::{Tree, Weights};

/// The operations of one tree, with what they worked out last and how often each was taken. All of
/// it is kept small, since a search begins with one for each tree.
#[derive(Clone, Copy)]
pub(crate) struct Operations {
    /// The marks that they are of, on so many nodes, and on none before the first look.
    marks: [Mark; 200],
    marked: u16,
    plan: Plan,
    outcome: Outcome,
    counts: Counts,
}

impl Operations {
    /// Those of no tree yet.
    pub(crate) fn new() -> Operations {
        Operations {
            marks: [Mark::Free; 200],
            marked: 0,
            plan: Plan::new(),
            outcome: Outcome::new(),
            counts: Counts::new(),
        }
    }

    /// Whether they are of these marks, where one node may have another one.
    pub(crate) fn are_of(&self, fixing: &Fixing, trial: Option<(u16, Mark)>) -> bool {
        if self.marked != fixing.len() {
            return false;
        }
        for node in 0..fixing.len() {
            if self.marks[usize::from(node)] != mark_of(fixing.get(node), node, trial) {
                return false;
            }
        }
        true
    }

    /// Keeps the marks that they are of.
    pub(crate) fn keep_marks(&mut self, fixing: &Fixing, trial: Option<(u16, Mark)>) {
        self.marked = fixing.len();
        for node in 0..fixing.len() {
            self.marks[usize::from(node)] = mark_of(fixing.get(node), node, trial);
        }
    }

    /// Makes them those of a tree with these weights, of which this is open.
    pub(crate) fn fill(&mut self, tree: &Tree, weights: &Weights, openness: &Openness)
        requires { length weights.now ≡ length tree.now }
    {
        self.plan.fill(tree, weights, openness);
        self.outcome.begin(&self.plan);
    }

    /// How many operations there are.
    pub(crate) fn len(&self) -> u8 {
        self.plan.len()
    }

    /// An operation.
    pub(crate) fn of(&self, number: Number) -> &Operation {
        self.plan.operation(number)
    }

    /// An operand.
    pub(crate) fn operand(&self, place: u8) -> Number {
        self.plan.operand(place)
    }

    /// How often the node of an operation was taken.
    pub(crate) fn count_of(&self, number: Number) -> u32 {
        self.counts.of(number)
    }

    /// The root's operation, where the root may be left out.
    pub(crate) fn optional_root(&self) -> Option<Number> {
        if self.plan.is_forced() {
            None
        } else {
            self.plan.root()
        }
    }

    /// A bit for each good of which units may be bought or sold.
    pub(crate) fn goods(&self) -> u32 {
        match self.plan.root() {
            Some(root) => self.plan.goods(root),
            None => 0,
        }
    }

    /// The greatest net at the multipliers, in 64ths.
    pub(crate) fn evaluate(&mut self, m: &[i64; 32]) -> i64 {
        self.outcome.evaluate(&self.plan, m)
    }

    /// The greatest net at the multipliers, of which that of one good alone may be another than at
    /// the last time. Only those operations are worked out that may change.
    pub(crate) fn evaluate_good(&mut self, m: &[i64; 32], good: u8) -> i64 {
        self.outcome.evaluate_good(&self.plan, m, good)
    }

    /// Works out the rows that have a good once more, and nothing else.
    pub(crate) fn renew_rows(&mut self, m: &[i64; 32], good: u8) {
        self.outcome.renew_rows(&self.plan, m, good);
    }

    /// Adds the units of the set that was found to the excess, and the weight to the count of each
    /// of its operations.
    pub(crate) fn take(&mut self, weight: u32, excess: &mut [i64; 32]) {
        self.counts.take(&self.plan, &self.outcome, weight, excess);
    }

    /// Sets all counts to 0.
    pub(crate) fn clear(&mut self) {
        self.counts.clear(&self.plan);
    }

    /// Whether it is a row, or a choice among rows that takes one of them, or all that add value.
    pub(crate) fn is_flat(&self) -> bool {
        let Some(root) = self.plan.root() else {
            return false;
        };
        match self.plan.operation(root).work {
            Work::Row(_) => true,
            Work::Choice(choice) => {
                self.plan.is_flat() && !matches!(choice.rule, Rule::Several { .. })
            }
        }
    }

    /// What the tree adds as the multiplier of a good moves, where the values stand at 0 of it. Its
    /// rows that may be taken and have the good are told to the profile. None where it has no
    /// operations.
    pub(crate) fn share(&self, good: u8, profile: &mut Profile) -> Option<Share> {
        let root = self.plan.root()?;
        let is_optional = !self.plan.is_forced();
        let operation = self.plan.operation(root);
        let Work::Choice(choice) = operation.work else {
            let fixed = self.line(root, good);
            return Some(Share::new(fixed, Offers::Best, 0, is_optional));
        };
        let fixed = self.fixed_line(operation.worth, choice, good);
        let (offers, least) = match choice.rule {
            Rule::Each => (Offers::Gains, 0),
            Rule::Best => (Offers::Best, i64::MIN),
            _ => (Offers::Best, 0),
        };
        let mut share = Share::new(fixed, offers, least, is_optional);
        for place in choice.offered..choice.end {
            let number = self.plan.operand(place);
            if self.plan.goods(number) & bit_of(good) == 0 {
                share.add_rest(self.outcome.value(number));
            } else {
                profile.add_line(self.line(number, good));
            }
        }
        Some(share)
    }

    /// What a choice of this weight and the rows that come along with it add.
    fn fixed_line(&self, weight: i64, choice: Choice, good: u8) -> Line {
        let mut fixed = Line {
            base: weight,
            units: 0,
        };
        for place in choice.along..choice.offered {
            let line = self.line(self.plan.operand(place), good);
            fixed.base = fixed.base.wrapping_add(line.base);
            fixed.units = fixed.units.wrapping_add(line.units);
        }
        fixed
    }

    /// What a row adds as the multiplier of a good moves from 0. A choice moves with none.
    fn line(&self, number: Number, good: u8) -> Line {
        let mut units: i64 = 0;
        if let Work::Row(row) = self.plan.operation(number).work {
            for place in row.first..row.end {
                let leaf = self.plan.leaf(place);
                if leaf.good == good {
                    units = units.wrapping_add(i64::from(leaf.units));
                }
            }
        }
        Line {
            base: self.outcome.value(number),
            units,
        }
    }
}
