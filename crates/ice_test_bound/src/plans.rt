//! Plans of a market of one bidder with three nodes, with a relaxation that closes just those sides
//! that have all the marks of one of its lists.

use ice_best::Mark;
use ice_bound::Multipliers;
use ice_plan::{
    Bounds, Marks, Plan, Seen, Side, Sides, Split, Tries, drop_idle, make, pull, rebuild,
};
use ice_planner::plan_of_log;
use ice_refute::{Log, Step};
use ice_relaxation::Candidate;
use std::alloc::{AllocError, Global};
use std::test::Fail;

/// Nodes with marks.
type Marked<'a> = &'a [(u16, Mark)];

/// The marks of the side that is looked at, and the lists.
#[derive(Drop)]
struct Fake<'a> {
    marks: [Mark; 3],
    closed: &'a [Marked<'a>],
}

/// A node of the bidder.
fn node(node: u16) -> Candidate {
    Candidate { bidder: 0, node }
}

impl Marks for Fake<'_> {
    fn mark_of(&self, node: Candidate) -> Mark {
        let mark = self.marks.get(usize::from(node.node)).copied();
        mark.unwrap_or(Mark::Never)
    }
}

impl<'a> Fake<'a> {
    /// All nodes free.
    fn new(closed: &'a [Marked<'a>]) -> Fake<'a> {
        Fake {
            marks: [Mark::Free; 3],
            closed,
        }
    }

    /// Whether the side has all the marks of a list.
    fn has(&self, marks: Marked<'_>) -> bool {
        for (number, mark) in marks {
            if self.mark_of(node(*number)) != *mark {
                return false;
            }
        }
        true
    }

    /// The first list all of whose marks the side has.
    fn closing(&self) -> Option<usize> {
        for (number, marks) in self.closed.iter().enumerate() {
            if self.has(*marks) {
                return Some(number);
            }
        }
        None
    }

    /// Whether all nodes are free.
    fn is_free(&self) -> bool {
        self.marks == [Mark::Free; 3]
    }
}

impl Sides for Fake<'_> {
    fn mark(&mut self, node: Candidate, mark: Mark) {
        if let Some(place) = self.marks.get_mut(usize::from(node.node)) {
            *place = mark;
        }
    }

    fn close(&mut self) -> Result<Option<usize>, AllocError> {
        Ok(self.closing())
    }

    fn closes_near(&mut self, _number: usize) -> Result<bool, AllocError> {
        Ok(self.closing().is_some())
    }
}

impl Bounds for Fake<'_> {
    type Basis = ();

    fn target(&self) -> i64 {
        64
    }

    fn start(&self) -> Result<(), AllocError> {
        Ok(())
    }

    fn look(&mut self, _from: &()) -> Result<Seen<()>, AllocError> {
        let mut tries = Tries::new();
        for number in 0..3 {
            if self.mark_of(node(number)) == Mark::Free {
                let _room = tries.try_push(node(number));
            }
        }
        let closing = self.closing();
        Ok(Seen {
            bound: if closing.is_some() { 0 } else { 640 },
            number: closing.unwrap_or(0),
            tries,
            basis: (),
        })
    }
}

/// A leaf of a log.
fn leaf() -> Step {
    Step::Leaf {
        m: Multipliers::zero(1),
    }
}

/// A branch of a log.
fn branch(node: u16) -> Step {
    Step::Branch { bidder: 0, node }
}

/// The plan whose log has a branch at node 0, and below it one at node 1 at each side that is true.
fn planned(alloc: Global, must: bool, never: bool) -> Result<Plan, AllocError> {
    let mut log = Log::new(alloc);
    log.push(branch(0))?;
    for side in [must, never] {
        if side {
            log.push(branch(1))?;
            log.push(leaf())?;
        }
        log.push(leaf())?;
    }
    plan_of_log(alloc, &log)
}

/// The split of a plan at a place from the last one, which splits the whole.
fn from_last(plan: &Plan, place: usize) -> Option<Split> {
    plan.split(plan.len().checked_sub(place)?.checked_sub(1)?)
}

#[test]
fn plan_follows_log(rt: HostRuntime) -> Result<(), Fail> {
    let plan = planned(rt.alloc(), true, true)?;
    assert_eq!(rt; plan.len(), 3);
    assert_eq!(rt; plan.root(), Side::At(2));
    // the steps are: branch, branch, leaf, leaf, branch, leaf, leaf
    let never = Split {
        node: node(1),
        must: Side::Leaf(5),
        never: Side::Leaf(6),
    };
    assert_eq!(rt; plan.split(0), Some(never));
    let must = Split {
        node: node(1),
        must: Side::Leaf(2),
        never: Side::Leaf(3),
    };
    assert_eq!(rt; plan.split(1), Some(must));
    let whole = Split {
        node: node(0),
        must: Side::At(1),
        never: Side::At(0),
    };
    assert_eq!(rt; plan.split(2), Some(whole));
    assert_eq!(rt; plan.split(3), None);
    Ok(())
}

#[test]
fn plan_goes_on_at_first_free_node(rt: HostRuntime) -> Result<(), Fail> {
    let plan = planned(rt.alloc(), true, false)?;
    let mut fake = Fake::new(&[]);
    assert_eq!(rt; plan.free_split(plan.root(), &fake), from_last(&plan, 0));
    fake.mark(node(0), Mark::Must);
    assert_eq!(rt; plan.free_split(plan.root(), &fake), from_last(&plan, 1));
    // at the other side of node 0 there is a leaf
    fake.mark(node(0), Mark::Never);
    assert_eq!(rt; plan.free_split(plan.root(), &fake), None);
    Ok(())
}

#[test]
fn common_split_is_pulled(rt: HostRuntime) -> Result<(), Fail> {
    let alloc = rt.alloc();
    // node 1 closes its Must side alone, and its Never side with either mark of node 0
    let closed: [Marked; 3] = [
        &[(1, Mark::Must)],
        &[(1, Mark::Never), (0, Mark::Must)],
        &[(1, Mark::Never), (0, Mark::Never)],
    ];
    let mut fake = Fake::new(&closed);
    let plan = planned(alloc, true, true)?;
    let pulled = pull(alloc, &plan, &mut fake)?;
    assert!(rt; fake.is_free());
    assert_eq!(rt; pulled.len(), 2);
    let Some(whole) = from_last(&pulled, 0) else {
        return Err("no split")?;
    };
    assert_eq!(rt; whole.node, node(1));
    assert_eq!(rt; whole.must, Side::Leaf(0));
    assert_eq!(rt; whole.never, Side::At(0));
    Ok(())
}

#[test]
fn idle_split_is_dropped(rt: HostRuntime) -> Result<(), Fail> {
    let alloc = rt.alloc();
    // node 1 closes both its sides alone, and node 0 its Never side
    let closed: [Marked; 3] = [&[(1, Mark::Must)], &[(1, Mark::Never)], &[(0, Mark::Never)]];
    let mut fake = Fake::new(&closed);
    let plan = planned(alloc, true, false)?;
    assert_eq!(rt; plan.len(), 2);
    let dropped = drop_idle(alloc, &plan, &mut fake)?;
    assert!(rt; fake.is_free());
    assert_eq!(rt; dropped.len(), 1);
    let Some(whole) = from_last(&dropped, 0) else {
        return Err("no split")?;
    };
    assert_eq!(rt; whole.node, node(1));
    Ok(())
}

#[test]
fn plan_is_made_small(rt: HostRuntime) -> Result<(), Fail> {
    let alloc = rt.alloc();
    // node 1 closes both its sides, and node 0 neither
    let closed: [Marked; 2] = [&[(1, Mark::Must)], &[(1, Mark::Never)]];
    let mut fake = Fake::new(&closed);
    let none = Plan::new(alloc);
    let Some(made) = make(alloc, &mut fake, &none, 10)? else {
        return Err("no plan")?;
    };
    assert!(rt; fake.is_free());
    assert_eq!(rt; made.len(), 1);
    // a plan that is followed is taken as it is
    let seed = planned(alloc, true, true)?;
    let Some(followed) = make(alloc, &mut fake, &seed, 10)? else {
        return Err("no plan")?;
    };
    assert!(rt; fake.is_free());
    assert_eq!(rt; followed.len(), 3);
    assert!(rt; make(alloc, &mut fake, &seed, 3)?.is_some());
    assert!(rt; make(alloc, &mut fake, &seed, 2)?.is_none());
    assert!(rt; fake.is_free());
    Ok(())
}

/// The plan that splits at node 0, at both its sides at node 1, and at all theirs at node 2.
fn all_planned(alloc: Global) -> Result<Plan, AllocError> {
    let mut log = Log::new(alloc);
    log.push(branch(0))?;
    for _side in 0..2 {
        log.push(branch(1))?;
        for _below in 0..2 {
            log.push(branch(2))?;
            log.push(leaf())?;
            log.push(leaf())?;
        }
    }
    plan_of_log(alloc, &log)
}

/// So many splits that plan has when its trees of at most so many are made anew, where node 2
/// closes both its sides alone.
fn rebuilt(alloc: Global, most: usize) -> Result<usize, AllocError> {
    let closed: [Marked; 2] = [&[(2, Mark::Must)], &[(2, Mark::Never)]];
    let mut fake = Fake::new(&closed);
    let plan = all_planned(alloc)?;
    let made = rebuild(alloc, &plan, &mut fake, most)?;
    Ok(made.len())
}

#[test]
fn small_tree_is_made_anew(rt: HostRuntime) -> Result<(), Fail> {
    assert_eq!(rt; rebuilt(rt.alloc(), 7)?, 1);
    // the trees below have three splits, and those of fewer than four stay as they are
    assert_eq!(rt; rebuilt(rt.alloc(), 6)?, 7);
    Ok(())
}
