//! A change of a node's gain followed to the entry of its parent, whose choice is made anew only
//! where it may not stay the best.
ghost use Rattle.std.specs.Prelude.{◌≡◌, ◌<◌, ◌≤◌, length, IfSome};
ghost use Rattle.ice_defs.specs.Set.{IsSmall};
ghost use Rattle.ice_defs.specs.Tree.{IsTree, parent_of};
ghost use Rattle.ice_best.specs.Rise.{IsFollowed, WasTableOf, MayStay};

use crate::choice::Offer;
use crate::fill::fill;
use crate::fixing::Fixing;
use crate::table::Table;
use ice_tree::{Tree, Weights};

/// Brings the entry of a node to its weight, which was `before`, and says how much more the node
/// adds.
pub(crate) fn weigh(
    tree: &Tree,
    weights: &Weights,
    fixing: &Fixing,
    table: &mut Table,
    node: u16,
    before: i128,
) -> i128
    requires tree { IsTree tree.now }
    requires few { length tree.now ≤ 200 }
    requires node { node < length tree.now }
    requires weights { length weights.now ≡ length tree.now }
    requires small { IsSmall before }
    requires before { WasTableOf tree.now weights.now fixing.now table.old node before }
    ensures { IsFollowed tree.now weights.now fixing.now table.new node result }
{
    if !table.possible[node as usize] {
        return 0;
    }
    let more = weights.get(node) - before;
    table.gain[node as usize] += more;
    more
}

/// How much more a best choice of children adds where it stays the best though one of them, that
/// now adds `gain`, adds `more` than it did; `choice` is what it added before. None where it may
/// not stay so. `all`: all children must be taken.
fn rise_of_choice(
    taken: bool,
    all: bool,
    most: u16,
    choice: i128,
    gain: i128,
    more: i128,
) -> Option<i128>
    ensures { IfSome result (MayStay taken all most choice gain more) }
{
    if taken {
        if more >= 0 || all { Some(more) } else { None }
    } else if more <= 0 || (most <= 1 && gain <= choice) {
        Some(0)
    } else {
        None
    }
}

/// Brings the entry of a node's parent to the node's gain, which is `more` than it was, and says
/// how much more the parent adds.
pub(crate) fn follow(
    tree: &Tree,
    weights: &Weights,
    fixing: &Fixing,
    table: &mut Table,
    offers: &mut [Offer; 200],
    node: u16,
    more: i128,
) -> i128
    requires tree { IsTree tree.now }
    requires few { length tree.now ≤ 200 }
    requires node { node < length tree.now }
    requires inner { 0 < node }
    requires weights { length weights.now ≡ length tree.now }
    requires fixing { length fixing.now ≡ length tree.now }
    requires followed { IsFollowed tree.now weights.now fixing.now table.old node more }
    ensures { IsFollowed tree.now weights.now fixing.now table.new
        (parent_of tree.now node) result }
{
    let parent = tree.parent(node);
    if !table.possible[parent as usize] {
        return 0;
    }
    let before = table.gain[parent as usize];
    let (least, most) = tree.kind(parent).interval();
    let all = least as usize == tree.children(parent).len();
    let choice = before - weights.get(parent);
    let gain = table.gain[node as usize];
    match rise_of_choice(table.taken[node as usize], all, most, choice, gain, more) {
        Some(rise) => {
            table.gain[parent as usize] = before + rise;
            rise
        }
        None => {
            fill(tree, weights, fixing, table, offers, parent);
            table.gain[parent as usize] - before
        }
    }
}
