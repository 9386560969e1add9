//! Walks through the splits of a plan, with the marks of each side.

use crate::plan::{Plan, Side, Split};
use crate::sides::{Marks, Sides};
use ice_defs::Mark;
use std::alloc::{AllocError, Global};

/// What is left to do of a walk.
#[derive(Clone, Copy)]
enum Task {
    /// To go into a side.
    Enter(Side),
    /// To go on from the Never side of a split to its Must side.
    Turn(Split),
    /// To leave a split behind.
    Leave(Split),
}

/// What a walk comes to.
#[derive(Clone, Copy)]
pub(crate) enum Event {
    /// A leaf, of this number.
    Leaf(usize),
    /// A split at a node that is free. Its sides are walked through if it is entered.
    Free(Split),
    /// The end of a split that was entered: both its sides are behind.
    Left(Split),
    /// Nothing to speak of.
    Between,
    /// The end.
    End,
}

/// A walk through the tree at a side: first the Never side of each split, then its Must side, and
/// then the split itself once more. Where the marks decide a split, the other side is left out.
#[derive(Drop)]
pub(crate) struct Walk {
    tasks: Vec<Task>,
}

/// The side of a split that has this mark.
pub(crate) fn side_of(split: &Split, mark: Mark) -> Side {
    match mark {
        Mark::Must => split.must,
        _ => split.never,
    }
}

impl Walk {
    /// A walk that begins at a side.
    pub(crate) fn from(alloc: Global, side: Side) -> Result<Walk, AllocError> {
        let mut tasks = Vec::new(alloc);
        tasks.push(Task::Enter(side))?;
        Ok(Walk { tasks })
    }

    /// So many tasks a walk through a tree with all splits of the plan has, its end among them.
    pub(crate) fn most_tasks(plan: &Plan) -> usize {
        plan.len().saturating_mul(4).saturating_add(2)
    }

    /// Takes the next task.
    pub(crate) fn next<S: Sides>(
        &mut self,
        plan: &Plan,
        sides: &mut S,
    ) -> Result<Event, AllocError> {
        match self.tasks.pop() {
            None => Ok(Event::End),
            Some(Task::Enter(Side::Leaf(number))) => Ok(Event::Leaf(number)),
            Some(Task::Enter(Side::At(number))) => match plan.split(number) {
                None => Ok(Event::Leaf(0)),
                Some(split) => self.look_at(split, sides),
            },
            Some(Task::Turn(split)) => {
                sides.mark(split.node, Mark::Must);
                self.tasks.push(Task::Leave(split))?;
                self.tasks.push(Task::Enter(split.must))?;
                Ok(Event::Between)
            }
            Some(Task::Leave(split)) => {
                sides.mark(split.node, Mark::Free);
                Ok(Event::Left(split))
            }
        }
    }

    /// Goes into the side of a split that the marks decide.
    fn look_at<M: Marks>(&mut self, split: Split, marks: &M) -> Result<Event, AllocError> {
        let mark = marks.mark_of(split.node);
        if mark == Mark::Free {
            return Ok(Event::Free(split));
        }
        self.tasks.push(Task::Enter(side_of(&split, mark)))?;
        Ok(Event::Between)
    }

    /// Goes into a split at a free node.
    pub(crate) fn enter<S: Sides>(
        &mut self,
        split: Split,
        sides: &mut S,
    ) -> Result<(), AllocError> {
        sides.mark(split.node, Mark::Never);
        self.tasks.push(Task::Turn(split))?;
        self.tasks.push(Task::Enter(split.never))?;
        Ok(())
    }

    /// Breaks the walk off: the nodes of the splits that were entered are free again.
    pub(crate) fn leave_all<S: Sides>(&mut self, sides: &mut S) {
        while let Some(task) = self.tasks.pop() {
            match task {
                Task::Enter(_) => {}
                Task::Turn(split) => sides.mark(split.node, Mark::Free),
                Task::Leave(split) => sides.mark(split.node, Mark::Free),
            }
        }
    }
}

impl Plan {
    /// The first split on the way down from a side, along the marks, at a node that is free; None
    /// where a leaf comes first.
    pub fn free_split<M: Marks>(&self, side: Side, marks: &M) -> Option<Split> {
        let mut side = side;
        for _split in 0..self.len() {
            let Side::At(number) = side else {
                return None;
            };
            let split = self.split(number)?;
            let mark = marks.mark_of(split.node);
            if mark == Mark::Free {
                return Some(split);
            }
            side = side_of(&split, mark);
        }
        None
    }
}
