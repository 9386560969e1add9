//! The open sides: the marks of the first one, and the branches that led to it. A branch whose node
//! is Must waits with its second side; one whose node is Never has none left.
ghost use Rattle.std.specs.Prelude.{◌≡◌, ◌<◌, ◌≤◌, length, vec_len, vec_capacity, [], ◌∷◌, ◌++◌, reverse, true};
ghost use Rattle.ice_defs.specs.declared.Mark.TheVariants.{Free};
ghost use Rattle.ice_defs.specs.Fixing.{mark_of};
ghost use Rattle.ice_defs.specs.Trade.{fixing_of};
ghost use Rattle.ice_defs.specs.Steps.{branch, sides_after};
ghost use Rattle.ice_refute.specs.Code.{step_of};
ghost use Rattle.ice_refute.specs.Waiting.{waiting_sides, open_sides, nodes_of, AreKept};
ghost use Rattle.ice_refute.specs.Moving.{CanBranch};

use crate::step::Step;
use ice_best::{Fixings, Mark};

/// Appends a branch, for which there is room.
fn push_branch(branches: &mut Vec<(u8, u16)>, place: (u8, u16))
    requires { vec_len branches.old < vec_capacity branches.old }
    ensures items { branches.new.items ≡ branches.old.items ++ place ∷ [] }
    ensures capacity { vec_capacity branches.old ≤ vec_capacity branches.new }
{
    if branches.push(place).is_err() {
        unreachable!();
    }
}

/// Splits the first open side at a free node.
fn split(marks: &mut Fixings, branches: &mut Vec<(u8, u16)>, bidder: u8, node: u16)
    requires kept { AreKept marks.old branches.old.items }
    requires room { 2000 ≤ vec_capacity branches.old }
    requires bidder { bidder < length marks.old }
    requires node { node < length (fixing_of marks.old bidder) }
    requires free { mark_of (fixing_of marks.old bidder) node ≡ Free }
    ensures sides { open_sides true marks.new branches.new.items
        ≡ sides_after (open_sides true marks.old branches.old.items) (branch bidder node) }
    ensures kept { AreKept marks.new branches.new.items }
    ensures nodes { nodes_of marks.new ≡ nodes_of marks.old }
    ensures room { 2000 ≤ vec_capacity branches.new }
{
    push_branch(branches, (bidder, node));
    marks.mark(bidder, node, Mark::Must);
}

/// Leaves the first open side, which is closed, for the next one. False comes exactly where there
/// is none.
pub(crate) fn leave(marks: &mut Fixings, branches: &mut Vec<(u8, u16)>) -> bool
    requires kept { AreKept marks.old branches.old.items }
    requires room { 2000 ≤ vec_capacity branches.old }
    ensures sides { open_sides result marks.new branches.new.items
        ≡ waiting_sides marks.old (reverse branches.old.items) }
    ensures kept { AreKept marks.new branches.new.items }
    ensures nodes { nodes_of marks.new ≡ nodes_of marks.old }
    ensures room { 2000 ≤ vec_capacity branches.new }
{
    while let Some((bidder, node)) = branches.pop() {
        if marks.of(bidder).get(node) == Mark::Must {
            marks.mark(bidder, node, Mark::Never);
            push_branch(branches, (bidder, node));
            return true;
        }
        marks.mark(bidder, node, Mark::Free);
    }
    false
}

/// Goes on behind a step that passes. False comes exactly where no side is open then.
pub(crate) fn advance(step: &Step, marks: &mut Fixings, branches: &mut Vec<(u8, u16)>) -> bool
    requires kept { AreKept marks.old branches.old.items }
    requires room { 2000 ≤ vec_capacity branches.old }
    requires passes { CanBranch marks.old (step_of step.now) }
    ensures sides { open_sides result marks.new branches.new.items
        ≡ sides_after (open_sides true marks.old branches.old.items) (step_of step.now) }
    ensures kept { AreKept marks.new branches.new.items }
    ensures nodes { nodes_of marks.new ≡ nodes_of marks.old }
    ensures room { 2000 ≤ vec_capacity branches.new }
{
    match step {
        Step::Branch { bidder, node } => {
            split(marks, branches, *bidder, *node);
            true
        }
        Step::Leaf { .. } => leave(marks, branches),
        Step::Dead { .. } => leave(marks, branches),
    }
}
