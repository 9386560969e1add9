//! The calls of a search.
ghost use Rattle.std.specs.Prelude.{◌≡◌, ◌+◌, ◌^◌, ◌<◌, ◌≤◌, ◌∷◌, List, length, IfOk, IfErr};
ghost use Rattle.ice_defs.specs.Exchange.{trees_of, exact_of};
ghost use Rattle.ice_defs.specs.Steps.{Step as PlainStep, branch_count};
ghost use Rattle.ice_defs.specs.Trade.{IsBestOfAll};
ghost use Rattle.ice_defs.specs.Conditions.{AreWeightsOf, AreMultipliersOf};
ghost use Rattle.ice_refute.specs.Code.{step_of};
ghost use Rattle.ice_search.specs.Instance.{IsBestOf, empty_search};
ghost use Rattle.ice_search.specs.Results.{IsFoundBy, IsEnd};

use crate::outline::{TRIED, is_tried_first, outline_of};
use crate::problem::Problem;
use crate::progress::Progress;
use crate::results::{Found, SearchEnd};
use crate::run::{Ended, run};
use ice_best::Fixings;
use ice_bound::Multipliers;
use ice_plan::Plan;
use ice_planner::Outline;
use ice_refute::{Log, Step};
use ice_trade::Exchange;
use ice_tree::{AllWeights, Assignment};
use std::alloc::Global;

/// 1 for a branch step.
fn branches_of(step: &Step) -> u32
    ensures { (rest : List PlainStep) → branch_count (step_of step.now ∷ rest)
        ≡ branch_count rest + result }
{
    match step {
        Step::Branch { .. } => 1,
        Step::Leaf { .. } => 0,
        Step::Dead { .. } => 0,
    }
}

/// How many branch steps the log has.
fn count_branches(log: &Log) -> u32
    requires { branch_count log.now < 2 ^ 32 }
    ensures { result ≡ branch_count log.now }
{
    let mut count = 0;
    for step in log.steps() {
        count += branches_of(step);
    }
    count
}

/// Goes on with a search that begins to its end.
fn go_on(alloc: Global, begun: Progress, branches: &mut u32) -> Result<Found, SearchEnd>
    requires parts { length begun.parts ≡ 1 }
    requires branches { branches.old ≤ 50000 }
    ensures found { IfOk result (IsFoundBy begun.entry.instance) }
    ensures best { IfOk result (λ f. IsBestOf begun.entry.instance f.value) }
    ensures branches { IfOk result (λ f. branches.new + branch_count f.log ≡ branches.old) }
    ensures end { IfErr result (IsEnd begun.entry.instance branches.old branches.new) }
{
    let mut progress = begun;
    let mut left = *branches;
    match run(alloc, &mut progress, &mut left)? {
        Ended::Whole => {
            let found = progress.found(alloc)?;
            *branches -= count_branches(&found.log);
            Ok(found)
        }
        Ended::Spent { number, node } => {
            let spent = progress.spent(alloc, number, node)?;
            *branches = 0;
            Err(SearchEnd::Spent(spent))
        }
    }
}

/// What searches before leave to a search. It changes the time, which best assignment is found, the
/// log, and whether the branches suffice.
#[derive(Drop)]
pub struct Known<'a> {
    /// The multipliers of the first bound, one for each good.
    pub from: &'a Multipliers,
    /// Assignments that are looked at where they are feasible and meet the start.
    pub candidates: &'a [Assignment],
    /// The log of a search that may be alike.
    pub log: Option<&'a Log>,
}

/// A search by a plan, where one is made, with an assignment that a try has found.
fn search_planned(
    alloc: Global,
    problem: &Problem,
    known: &Known,
    tried: &Option<Assignment>,
    branches: &mut u32,
) -> Result<Found, SearchEnd>
    requires from { AreMultipliersOf problem.now.exact known.now.from.now }
    requires branches { branches.old ≤ 50000 }
    ensures found { IfOk result (IsFoundBy problem.now) }
    ensures best { IfOk result (λ f. IsBestOf problem.now f.value) }
    ensures branches { IfOk result (λ f. branches.new + branch_count f.log ≡ branches.old) }
    ensures end { IfErr result (IsEnd problem.now branches.old branches.new) }
{
    let Outline { plan, guide, finds } = outline_of(alloc, problem, known, tried, *branches)?;
    let candidates = known.candidates;
    let mut progress = Progress::begin(alloc, problem, known.from, candidates, plan, guide)?;
    progress.offer_some(tried);
    progress.offer_some(&finds);
    go_on(alloc, progress, branches)
}

/// `search` with what searches before left: it is tried with few of its branches first, where that
/// may do, and planned where they don't suffice.
pub fn search_from(
    alloc: Global,
    problem: &Problem,
    known: &Known,
    branches: &mut u32,
) -> Result<Found, SearchEnd>
    requires from { AreMultipliersOf problem.now.exact known.now.from.now }
    requires branches { branches.old ≤ 50000 }
    // On success
    ensures found { IfOk result (IsFoundBy problem.now) }
    ensures best { IfOk result (λ f. IsBestOf problem.now f.value) }
    ensures branches { IfOk result (λ f. branches.new + branch_count f.log ≡ branches.old) }
    // On failure
    ensures end { IfErr result (IsEnd problem.now branches.old branches.new) }
{
    if !is_tried_first(problem.goods(), known, *branches) {
        return search_planned(alloc, problem, known, &None, branches);
    }
    let none = Plan::new(alloc);
    let progress = Progress::begin(alloc, problem, known.from, known.candidates, none, None)?;
    let mut left = TRIED;
    match go_on(alloc, progress, &mut left) {
        Ok(found) => {
            *branches -= TRIED - left;
            Ok(found)
        }
        Err(SearchEnd::NoMemory) => Err(SearchEnd::NoMemory),
        Err(SearchEnd::Spent(spent)) => {
            let tried = Some(spent.into_found());
            search_planned(alloc, problem, known, &tried, branches)
        }
    }
}

/// The best feasible assignment that meets the start, with a log that refutes every greater one.
/// The branches fall by the log's branch steps.
///
/// `Spent` comes only where all branches were used: then no branch is left, and the log refutes
/// what is above its bound, which is above the value that was found. `NoMemory` may come at any
/// time, and leaves the branches as they were.
///
/// Each branch step of a log is earned: both its sides are live, and the bound that one sweep gives
/// of the side that it splits is above the first assignment's value and no less than the best. The
/// log of a spent search leaves such a step.
///
/// There are at most 50,000 branches.
pub fn search(alloc: Global, problem: &Problem, branches: &mut u32) -> Result<Found, SearchEnd>
    requires { branches.old ≤ 50000 }
    // On success
    ensures found { IfOk result (IsFoundBy problem.now) }
    ensures best { IfOk result (λ f. IsBestOf problem.now f.value) }
    ensures branches { IfOk result (λ f. branches.new + branch_count f.log ≡ branches.old) }
    // On failure
    ensures end { IfErr result (IsEnd problem.now branches.old branches.new) }
{
    let zeros = Multipliers::zero(problem.goods());
    let known = Known {
        from: &zeros,
        candidates: &[],
        log: None,
    };
    search_from(alloc, problem, &known, branches)
}

/// `search` from nothing: with all nodes free, from the empty sets.
pub fn search_anew(
    alloc: Global,
    exchange: &Exchange,
    weights: &AllWeights,
    branches: &mut u32,
) -> Result<Found, SearchEnd>
    requires weights { AreWeightsOf (trees_of exchange.now) weights.now }
    requires branches { branches.old ≤ 50000 }
    ensures found { IfOk result (IsFoundBy (empty_search exchange.now weights.now)) }
    ensures best { IfOk result (λ f. IsBestOfAll (trees_of exchange.now) (exact_of exchange.now)
        weights.now f.value) }
    ensures branches { IfOk result (λ f. branches.new + branch_count f.log ≡ branches.old) }
    ensures end { IfErr result
        (IsEnd (empty_search exchange.now weights.now) branches.old branches.new) }
{
    let trees = exchange.trees();
    let start = Fixings::free(alloc, trees)?;
    let empty = Assignment::empty(alloc, trees)?;
    let problem = Problem::new(exchange, weights, &start, &empty);
    search(alloc, &problem, branches)
}
