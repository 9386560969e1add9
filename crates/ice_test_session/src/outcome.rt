//! What a search answers, in numbers.
ghost use Rattle.std.specs.Prelude.{◌≤◌};
ghost use Rattle.ice_defs.specs.Exchange.{trees_of};
ghost use Rattle.ice_defs.specs.Conditions.{AreWeightsOf};

use crate::markets::{free, lower};
use ice_refute::{Log, Step};
use ice_search::{Found, Problem, SearchEnd, is_feasible, search};
use ice_trade::Exchange;
use ice_tree::{AllWeights, Assignment};
use std::alloc::Global;
use std::test::Fail;

/// What a search answers: the value that it found, the bound where no branch was left, how many
/// steps of its log are branches and how many are leaves, and how many branches are left.
#[derive(Clone, Copy, Debug, PartialEq, Eq)]
pub(crate) struct Outcome {
    pub(crate) value: i128,
    pub(crate) bound: Option<i128>,
    pub(crate) branch_steps: u32,
    pub(crate) leaves: u32,
    pub(crate) left: u32,
}

/// How many steps of the log are branches, and how many are leaves.
fn count(log: &Log) -> (u32, u32) {
    let mut branches: u32 = 0;
    let mut leaves: u32 = 0;
    for step in log.steps() {
        match step {
            Step::Branch { .. } => branches = branches.saturating_add(1),
            Step::Leaf { .. } => leaves = leaves.saturating_add(1),
            Step::Dead { .. } => {}
        }
    }
    (branches, leaves)
}

/// What a search answered, in numbers.
fn told(answer: Result<Found, SearchEnd>, left: u32) -> Result<Outcome, Fail> {
    let (value, bound, (branch_steps, leaves)) = match answer {
        Ok(found) => (found.value, None, count(&found.log)),
        Err(SearchEnd::Spent(spent)) => (spent.value, Some(spent.bound), count(&spent.log)),
        Err(SearchEnd::NoMemory) => return Err("no memory")?,
    };
    Ok(Outcome {
        value,
        bound,
        branch_steps,
        leaves,
        left,
    })
}

/// What a search at these weights answers that begins with no trade.
pub(crate) fn search_at(
    alloc: Global,
    exchange: &Exchange,
    weights: &AllWeights,
    branches: &mut u32,
) -> Result<Result<Found, SearchEnd>, Fail>
    requires weights { AreWeightsOf (trees_of exchange.now) weights.now }
    requires branches { branches.old ≤ 50000 }
{
    let start = free(alloc, exchange)?;
    let first = Assignment::empty(alloc, exchange.trees())?;
    if !is_feasible(exchange, &start, &first) {
        return Err("no trade is not feasible")?;
    }
    let problem = Problem::new(exchange, weights, &start, &first);
    let answer = search(alloc, &problem, branches);
    Ok(answer)
}

/// What a search at lower values answers that begins with no trade.
pub(crate) fn search_lower(
    alloc: Global,
    exchange: &Exchange,
    branches: &mut u32,
) -> Result<Result<Found, SearchEnd>, Fail>
    requires { branches.old ≤ 50000 }
{
    let weights = lower(alloc, exchange)?;
    search_at(alloc, exchange, &weights, branches)
}

/// What a search answers with so many branches, in numbers.
pub(crate) fn search_best(
    alloc: Global,
    exchange: &Exchange,
    branches: u16,
) -> Result<Outcome, Fail>
    requires { branches ≤ 50000 }
{
    let mut left = u32::from(branches);
    let answer = search_lower(alloc, exchange, &mut left)?;
    told(answer, left)
}
