//! The beginning of a search.
ghost use Rattle.std.specs.Prelude.{◌≡◌, length, IfOk};
ghost use Rattle.ice_defs.specs.Conditions.{AreMultipliersOf};
ghost use Rattle.ice_defs.specs.declared.Mark.TheVariants.{Free};
ghost use Rattle.ice_search_log.specs.Code.{part_of};
ghost use Rattle.ice_search.specs.Instance.{IsInstance, IsIncumbentOf};
ghost use Rattle.ice_search.specs.State.{child_part};

use crate::candidates::consider;
use crate::child::Polished;
use crate::hints::Hint;
use crate::problem::Problem;
use crate::progress::Progress;
use crate::sweep::Bounded;
use crate::workspace::Workspace;
use ice_best::Mark;
use ice_bound::Multipliers;
use ice_plan::Plan;
use ice_planner::Guide;
use ice_search_log::Part;
use ice_subgradient::Incumbent;
use ice_tree::Assignment;
use std::alloc::{AllocError, Global};

/// So many steps are taken at the start.
const ROOT_STEPS: u16 = 500;

/// The first assignment, with its value.
fn first_incumbent(alloc: Global, problem: &Problem) -> Result<Incumbent, AllocError>
    ensures lawful { IfOk result (λ _. IsInstance problem.now) }
    ensures incumbent { IfOk result (λ i. IsIncumbentOf problem.now i.sets i.value) }
{
    let mut sets = Assignment::empty(alloc, problem.trees())?;
    sets.copy_from(problem.first);
    let value = sets.value(problem.trees(), problem.weights());
    Ok(Incumbent { sets, value })
}

/// The first part, which isn't swept.
fn root(bounded: Bounded) -> Part
    ensures { part_of result ≡ child_part 0 0 0 Free bounded.m bounded.key }
{
    Part {
        above: 0,
        bidder: 0,
        node: 0,
        mark: Mark::Free,
        m: bounded.m,
        key: bounded.key,
        swept: false,
        split: None,
    }
}

impl<'a> Progress<'a> {
    /// A search with one part, the start, which is polished from the multipliers that are given.
    /// The candidates are offered where they are feasible and meet the start. It follows the
    /// plan.
    pub(crate) fn begin(
        alloc: Global,
        problem: &Problem<'a>,
        from: &Multipliers,
        candidates: &[Assignment],
        plan: Plan,
        guide: Option<Guide>,
    ) -> Result<Progress<'a>, AllocError>
        requires { AreMultipliersOf problem.now.exact from.now }
        ensures instance { IfOk result (λ p. p.instance ≡ problem.now) }
        ensures parts { IfOk result (λ p. length p.parts ≡ 1) }
    {
        let mut incumbent = first_incumbent(alloc, problem)?;
        for candidate in candidates {
            consider(problem, candidate, &mut incumbent);
        }
        let mut space = Workspace::new(alloc, problem, guide)?;
        let Polished {
            bounded,
            candidates: nodes,
        } = space.polish_from(from, &mut incumbent, ROOT_STEPS);
        let mut parts = Vec::new(alloc);
        parts.push(root(bounded))?;
        let mut hints = Vec::new(alloc);
        hints.push(Hint {
            near: Multipliers::zero(0),
            candidates: nodes,
            place: plan.root(),
        })?;
        let mut open_parts = Vec::new(alloc);
        open_parts.push(0)?;
        Ok(Progress {
            space,
            incumbent,
            parts,
            hints,
            open_parts,
            plan,
        })
    }
}
