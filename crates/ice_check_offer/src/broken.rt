//! The rule that a set breaks by itself.
ghost use Rattle.ice_check_offer.specs.Broken.{IsBroken};

use ice_journal_laws::Rule;
use ice_tree::{NodeSet, Tree};

/// The rule that a set of a tree breaks by itself, before anything else is asked of it: `Count`
/// where it doesn't have as many bits as the tree has nodes, else the rule of the first node at
/// which it isn't satisfied, `Parent`, `Few` or `Many`. None where the set is satisfied. It takes
/// no memory.
pub fn broken_rule(tree: &Tree, set: &NodeSet) -> Option<Rule>
    ensures { IsBroken tree.now set.now result }
{
    if set.len() != tree.nodes() {
        return Some(Rule::Count);
    }
    match tree.is_satisfied(set) {
        Ok(()) => None,
        Err(fault) => Some(Rule::of(fault.rule)),
    }
}
