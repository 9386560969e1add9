//! Which searches are planned.
ghost use Rattle.std.specs.Prelude.{◌<◌, IsTrue};

use crate::entry::Known;
use crate::problem::Problem;
use ice_planner::{Outline, Sought, is_planned, plan_search};
use ice_refute::Log;
use ice_tree::Assignment;
use std::alloc::{AllocError, Global};

/// A search is planned that has not closed after so many branches, or that follows a log of at
/// least as many.
pub(crate) const TRIED: u32 = 600;

/// Whether a log may be long enough to plan by it at once.
fn is_long(log: Option<&Log>) -> bool {
    match log {
        Some(log) => log.steps().len() > 2 * TRIED as usize,
        None => false,
    }
}

/// Whether a search of so many goods is tried first with few of its branches: one that is planned
/// where they don't suffice.
pub(crate) fn is_tried_first(goods: u8, known: &Known, branches: u32) -> bool
    ensures { IsTrue result → 600 < branches }
{
    if branches <= TRIED {
        return false;
    }
    is_planned(goods) && !is_long(known.log)
}

/// The plan of a search, where it is planned.
pub(crate) fn outline_of(
    alloc: Global,
    problem: &Problem,
    known: &Known,
    finds: &Option<Assignment>,
    branches: u32,
) -> Result<Outline, AllocError> {
    if !is_planned(problem.goods()) || branches <= TRIED {
        return Ok(Outline::none(alloc));
    }
    let sought = Sought {
        value: best_worth(problem, known.candidates, finds),
        log: known.log,
        branches,
    };
    plan_search(
        alloc,
        problem.trees(),
        problem.weights(),
        problem.exact(),
        problem.start,
        &sought,
    )
}

/// The greatest worth of the assignments that are known.
fn best_worth(problem: &Problem, candidates: &[Assignment], finds: &Option<Assignment>) -> i128 {
    let mut value = problem.worth(problem.first).unwrap_or(i128::MIN);
    for candidate in candidates {
        value = value.max(problem.worth(candidate).unwrap_or(i128::MIN));
    }
    match finds {
        Some(sets) => value.max(problem.worth(sets).unwrap_or(i128::MIN)),
        None => value,
    }
}
