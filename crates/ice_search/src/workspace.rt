//! The workspace of a search: the side that is looked at, with its kept bounds, and the room that
//! sweeps need.
ghost use Rattle.std.specs.Prelude.{◌≡◌, ◌<◌, length, IfOk, List, Bool};
ghost use Rattle.ice_defs.specs.Conditions.{AreFixingsOf, AreMultipliersOf};
ghost use Rattle.ice_search_log.specs.Parts.{side_at};
ghost use Rattle.ice_search_log.specs.Code.{parts_of};
ghost use Rattle.ice_search.specs.Instance.{IsSearchOf};

use crate::problem::Problem;
use crate::sides::put_side;
use ice_best::{Fixings, Mark};
use ice_bound::{Desk, Kept, Multipliers};
use ice_plan::Marks;
use ice_planner::{Decided, Guide};
use ice_relaxation::{Candidate, Relaxation};
use ice_search_log::Part;
use ice_subgradient::Trial;
use ice_tree::Tree;
use std::alloc::{AllocError, Global};
use std::marker::Model;

/// The workspace of a search. It is seen as what is asked and the side that is looked at. Only
/// `new` takes memory. What is large stands in boxes, since a search is handed on several times as
/// it begins.
pub(crate) struct Workspace<'a> {
    pub(crate) problem: Problem<'a>,
    pub(crate) kept: Kept<'a>,
    pub(crate) desk: Box<Desk>,
    pub(crate) relaxation: Box<Relaxation>,
    /// What the last trial at this side showed of the children of the node that it chose.
    pub(crate) trial: Box<Trial>,
    /// What finds multipliers at the sides of a search that is planned.
    pub(crate) guide: Option<Guide>,
}

// By hand, so that each exit that drops one has one call to prove, and not all its parts.
impl Drop for Workspace<'_> {
    fn drop(self) {
        let Workspace {
            problem: _,
            kept: _,
            desk: _,
            relaxation: _,
            trial: _,
            guide: _,
        } = self;
    }
}

impl<'a> Model for Workspace<'a> {
    ghost use Rattle.ice_search.specs.Workspace.{Looking, IsWorkspace};

    ghost Value = { Looking };

    ghost view = { λ w. record { instance = w.problem; side = w.kept.marks } };

    ghost invariant = { λ w. IsWorkspace w.problem w.kept w.desk.value.marks w.desk.value.room w.relaxation.value };
}

/// The multipliers that a part is looked at with: its own, and zeros where it has yet to be swept.
fn multipliers_for(part: &Part) -> Multipliers
    ensures { (exact : List Bool) → AreMultipliersOf exact part.now.m
        → AreMultipliersOf exact result }
{
    if part.swept {
        part.m.copy()
    } else {
        Multipliers::zero(part.m.len())
    }
}

/// The mark of a node, where the marks of its tree decide it, else the one that it has.
fn mark_under(trees: &[Tree], marks: &Fixings, node: Candidate) -> Mark
    requires { AreFixingsOf trees.now marks.now }
{
    let place = usize::from(node.bidder);
    if place >= trees.len() || node.node >= trees[place].nodes() {
        return Mark::Never;
    }
    let mut decided = Decided::new();
    decided.fill(&trees[place], marks.of(node.bidder));
    decided.mark_of(node.node)
}

impl<'a> Workspace<'a> {
    /// A workspace that looks at the start.
    pub(crate) fn new(
        alloc: Global,
        problem: &Problem<'a>,
        guide: Option<Guide>,
    ) -> Result<Workspace<'a>, AllocError>
        ensures instance { IfOk result (λ w. w.instance ≡ problem.now) }
        ensures side { IfOk result (λ w. w.side ≡ problem.now.start) }
    {
        let zeros = Multipliers::zero(problem.goods());
        let trees = problem.trees();
        let exact = problem.exact();
        let desk = Box::new(alloc, Desk::new(alloc, trees, exact)?)?;
        let mut relaxation = Box::new(alloc, Relaxation::new(alloc, trees)?)?;
        let trial = Box::new(alloc, Trial::none())?;
        let mut kept = Kept::new(alloc, trees, problem.weights(), exact)?;
        kept.put_side(problem.start, &zeros);
        relaxation.look_at(trees, problem.weights(), problem.start);
        Ok(Workspace {
            problem: problem.again(),
            kept,
            desk,
            relaxation,
            trial,
            guide,
        })
    }

    /// Looks at the side of a part: at its multipliers, and where it isn't swept yet at zeros,
    /// which a sweep begins with.
    pub(crate) fn look_at(&mut self, parts: &[Part], number: u32)
        requires search { IsSearchOf self.old.instance (parts_of parts.now) }
        requires there { number < length parts.now }
        ensures instance { self.new.instance ≡ self.old.instance }
        ensures side { self.new.side ≡ side_at self.old.instance.start (parts_of parts.now) number }
    {
        put_side(&self.problem, parts, number, &mut self.desk.marks);
        let part = &parts[number as usize];
        self.kept.put_side(&self.desk.marks, &multipliers_for(part));
        self.relaxation.look_at(
            self.problem.trees(),
            self.problem.weights(),
            self.kept.marks(),
        );
        self.trial.forget();
    }
}

impl Marks for Workspace<'_> {
    fn mark_of(&self, node: Candidate) -> Mark {
        mark_under(self.problem.trees(), self.kept.marks(), node)
    }
}
