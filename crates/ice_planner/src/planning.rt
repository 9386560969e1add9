//! Plans of a search.
ghost use Rattle.std.specs.Prelude.{◌≤◌, length};
ghost use Rattle.ice_defs.specs.Conditions.{AreWeightsOf, AreFixingsOf};

use crate::from_log::plan_of_log;
use crate::guide::Guide;
use crate::marking::Marking;
use crate::planner::Planner;
use crate::points::{MOST_PLANNED_GOODS, Points};
use ice_best::Fixings;
use ice_bound::Multipliers;
use ice_master::Master;
use ice_plan::{Plan, drop_idle, make, pull, rebuild};
use ice_refute::{Log, Step};
use ice_tree::{AllWeights, Assignment, Tree};
use std::alloc::{AllocError, Global};

/// A plan is made smaller in at most so many turns ..
const TURNS: u8 = 4;

/// .. and no more where one leaves out one in so many splits, or fewer.
const GAIN: usize = 25;

/// Where more is spent on a plan, trees of so many splits are made anew, and then those of so many.
const REBUILT: [usize; 2] = [16, 64];

/// Many may follow the log of a search where a market has so many bidders.
const MANY: usize = 10;

/// A plan may have so many splits for each branch that is left ..
const SPLITS: usize = 4;

/// .. and so many more.
const SPARE: usize = 10_000;

/// What a plan is made for: a search.
#[derive(Drop)]
pub struct Sought<'a> {
    /// An assignment above this value is sought.
    pub value: i128,
    /// The log of a search that may be alike, which is followed first.
    pub log: Option<&'a Log>,
    /// So many branches are left.
    pub branches: u32,
}

impl Sought<'_> {
    /// So many splits a plan may have.
    fn most_splits(&self) -> usize {
        let branches = self.branches as usize;
        branches.saturating_mul(SPLITS).saturating_add(SPARE)
    }

    /// Whether enough searches may follow the log of a plan of so many splits: the plan follows
    /// none itself, there are many bidders, without each of whom a search may follow, and the
    /// branches that are left would do for half of these.
    fn may_be_followed(&self, bidders: usize, splits: usize) -> bool {
        let half = splits.saturating_mul(bidders / 2);
        self.log.is_none() && bidders >= MANY && half <= self.branches as usize
    }

    /// Whether a plan has more splits than branches are left, and by no more than a quarter.
    fn is_nearly_enough(&self, splits: usize) -> bool {
        let branches = self.branches as usize;
        branches < splits && splits.saturating_sub(branches) <= branches / 4
    }
}

/// A plan of a search with what was found on the way.
#[derive(Drop)]
pub struct Outline {
    /// The plan, which is empty where it would have had too many splits.
    pub plan: Plan,
    /// What finds multipliers for the search. None where nothing was planned.
    pub guide: Option<Guide>,
    /// An assignment that came up, or empty sets. None where nothing was planned.
    pub finds: Option<Assignment>,
}

impl Outline {
    /// That of a search that isn't planned.
    pub fn none(alloc: Global) -> Outline {
        Outline {
            plan: Plan::new(alloc),
            guide: None,
            finds: None,
        }
    }
}

/// Whether a market of so many goods is planned at all.
pub fn is_planned(goods: u8) -> bool {
    goods <= MOST_PLANNED_GOODS
}

/// The numbers of multipliers.
fn numbers_of(m: &Multipliers) -> [i64; 32] {
    let mut numbers = [0; 32];
    for good in 0..m.len() {
        numbers[usize::from(good)] = m.get(good);
    }
    numbers
}

/// Keeps the multipliers of a log's leaves by the numbers of its steps.
fn keep_leaves(points: &mut Points, log: &Log) -> Result<(), AllocError> {
    for step in log.steps() {
        let numbers = match step {
            Step::Leaf { m } => numbers_of(m),
            _ => [0; 32],
        };
        let _number = points.keep(&numbers)?;
    }
    Ok(())
}

/// The plan that a log follows, whose leaves are kept; an empty one where there is no log.
fn seed_of(alloc: Global, points: &mut Points, log: Option<&Log>) -> Result<Plan, AllocError> {
    match log {
        Some(log) => {
            keep_leaves(points, log)?;
            plan_of_log(alloc, log)
        }
        None => Ok(Plan::new(alloc)),
    }
}

/// The plan, made smaller in some turns.
fn smaller(alloc: Global, plan: Plan, planner: &mut Planner) -> Result<Plan, AllocError> {
    let mut plan = plan;
    for _turn in 0..TURNS {
        let before = plan.len();
        let pulled = pull(alloc, &plan, planner)?;
        plan = drop_idle(alloc, &pulled, planner)?;
        let gained = before.saturating_sub(plan.len());
        if gained.saturating_mul(GAIN) <= before {
            break;
        }
    }
    Ok(plan)
}

/// The plan, with small trees of it made anew.
fn rebuilt(alloc: Global, plan: Plan, planner: &mut Planner) -> Result<Plan, AllocError> {
    let mut plan = plan;
    for most in REBUILT {
        let rebuilt = rebuild(alloc, &plan, planner, most)?;
        let pulled = pull(alloc, &rebuilt, planner)?;
        plan = drop_idle(alloc, &pulled, planner)?;
    }
    Ok(plan)
}

/// The plan, made smaller. More is spent where many may follow it, or where it has a few splits too
/// many.
fn made_smaller(
    alloc: Global,
    plan: Plan,
    planner: &mut Planner,
    sought: &Sought,
    bidders: usize,
) -> Result<Plan, AllocError> {
    let plan = smaller(alloc, plan, planner)?;
    let splits = plan.len();
    if sought.may_be_followed(bidders, splits) || sought.is_nearly_enough(splits) {
        return rebuilt(alloc, plan, planner);
    }
    Ok(plan)
}

/// A plan, made and made smaller; an empty one where it would have had too many splits. It owns
/// nothing but the plan, so that an early end lets nothing else go.
fn plan_by(planner: &mut Planner, sought: &Sought) -> Result<Plan, AllocError> {
    let alloc = planner.alloc;
    let bidders = planner.marking.trees.len();
    let seed = seed_of(alloc, &mut planner.points, sought.log)?;
    match make(alloc, planner, &seed, sought.most_splits())? {
        Some(plan) => made_smaller(alloc, plan, planner, sought, bidders),
        None => Ok(Plan::new(alloc)),
    }
}

/// A plan of a search that begins with these marks. It has at most four splits for each branch that
/// is left, and 10,000 more.
pub fn plan_search(
    alloc: Global,
    trees: &[Tree],
    weights: &AllWeights,
    exact: &[bool],
    start: &Fixings,
    sought: &Sought,
) -> Result<Outline, AllocError>
    requires few { length trees.now ≤ 40 }
    requires weights { AreWeightsOf trees.now weights.now }
    requires start { AreFixingsOf trees.now start.now }
{
    let marking = Marking::new(alloc, trees, start)?;
    let finds = Assignment::empty(alloc, trees)?;
    let mut planner = Planner {
        alloc,
        weights,
        exact,
        marking,
        master: Box::new(alloc, Master::new(alloc, trees, weights, exact)?)?,
        points: Points::new(alloc),
        finds,
        value: sought.value,
        looks: 0,
    };
    let plan = plan_by(&mut planner, sought)?;
    Ok(Outline {
        plan,
        guide: Some(Guide {
            master: planner.master,
        }),
        finds: Some(planner.finds),
    })
}
