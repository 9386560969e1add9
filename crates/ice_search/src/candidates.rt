//! Assignments that a search may begin with.
ghost use Rattle.std.specs.Prelude.{◌≡◌, ◌↔◌, length, IsTrue, ◌≤ℤ◌};
ghost use Rattle.ice_defs.specs.Bound.{IsOpen};
ghost use Rattle.ice_defs.specs.Exchange.{trees_of, exact_of};
ghost use Rattle.ice_defs.specs.Fixing.{Agrees, Meets};
ghost use Rattle.ice_defs.specs.Trade.{IsFeasible, MeetsAll};
ghost use Rattle.ice_defs.specs.Conditions.{AreFixingsOf};
ghost use Rattle.ice_search.specs.Instance.{IsIncumbentOf};

use crate::problem::Problem;
use ice_best::{Fixing, Fixings, Mark};
use ice_subgradient::Incumbent;
use ice_trade::Exchange;
use ice_tree::{Assignment, NodeSet, Tree};

/// Whether a node may be inside or not, by its mark.
fn agrees(mark: Mark, inside: bool) -> bool
    ensures { IsTrue result ↔ Agrees mark inside }
{
    match mark {
        Mark::Free => true,
        Mark::Must => inside,
        Mark::Never => !inside,
    }
}

/// Whether the set has each Must node and no Never node.
fn meets(set: &NodeSet, fixing: &Fixing) -> bool
    requires { length set.now ≡ length fixing.now }
    ensures { IsTrue result ↔ Meets set.now fixing.now }
{
    for node in 0..set.len() {
        if !agrees(fixing.get(node), set.has(node)) {
            return false;
        }
    }
    true
}

/// Whether the bidder may take the set.
fn may_take(tree: &Tree, fixing: &Fixing, set: &NodeSet) -> bool
    requires { length fixing.now ≡ length tree.now }
    ensures { IsTrue result ↔ IsOpen tree.now fixing.now set.now }
{
    set.len() == tree.nodes() && tree.is_satisfied(set).is_ok() && meets(set, fixing)
}

/// Whether the assignment is feasible and meets the marks, as one that a search begins with has to.
/// Takes no memory.
pub fn is_feasible(exchange: &Exchange, start: &Fixings, sets: &Assignment) -> bool
    requires { AreFixingsOf (trees_of exchange.now) start.now }
    ensures { IsTrue result ↔ (IsFeasible (trees_of exchange.now) (exact_of exchange.now) sets.now
        × MeetsAll sets.now start.now) }
{
    let trees = exchange.trees();
    if sets.len() != trees.len() {
        return false;
    }
    for bidder in 0..exchange.bidders() {
        if !may_take(&trees[bidder as usize], start.of(bidder), sets.of(bidder)) {
            return false;
        }
    }
    exchange.feasible(sets).is_ok()
}

/// Takes over a candidate that is feasible, meets the start and is worth more than the incumbent.
pub(crate) fn consider(problem: &Problem, candidate: &Assignment, incumbent: &mut Incumbent)
    requires { IsIncumbentOf problem.now incumbent.old.sets incumbent.old.value }
    ensures incumbent { IsIncumbentOf problem.now incumbent.new.sets incumbent.new.value }
    ensures no_less { incumbent.old.value ≤ℤ incumbent.new.value }
{
    let Some(value) = problem.worth(candidate) else {
        return;
    };
    if incumbent.value < value {
        incumbent.sets.copy_from(candidate);
        incumbent.value = value;
    }
}
