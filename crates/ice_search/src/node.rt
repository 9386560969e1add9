//! The node that a side is split at.
ghost use Rattle.std.specs.Prelude.{◌≡◌, ◌<◌, ◌↔◌, false, IsTrue, IfNone, IfSome, length};
ghost use Rattle.ice_defs.specs.declared.Mark.TheVariants.{Must, Never};
ghost use Rattle.ice_defs.specs.Log.{IsFreeNode};
ghost use Rattle.ice_defs.specs.Steps.{with_mark};
ghost use Rattle.ice_defs.specs.Sweep.{IsLive};
ghost use Rattle.ice_defs.specs.Trade.{tree_of};
ghost use Rattle.ice_defs.specs.Conditions.{AreFixingsOf};
ghost use Rattle.ice_search_log.specs.Nodes.{HasNoNode};
ghost use Rattle.ice_search.specs.Nodes.{IsSplitNode, HasNoNodeOf, IsSameStanding};

use crate::workspace::Workspace;
use ice_best::Mark;
use ice_bound::{Kept, NetSum};
use ice_relaxation::Candidate;

/// Whether each bidder still has a set.
fn is_live(kept: &Kept) -> bool
    ensures yes { IsTrue result → IsLive kept.now.trees kept.now.marks }
    ensures no { result ≡ false → ¬ IsLive kept.now.trees kept.now.marks }
{
    match kept.net_sum() {
        NetSum::Sum(_) => true,
        NetSum::Dead(_) => false,
    }
}

/// Whether each bidder still has a set where one more node has this mark.
fn is_live_with(kept: &mut Kept, candidate: Candidate, mark: Mark) -> bool
    requires fit { AreFixingsOf kept.old.trees kept.old.marks }
    requires free { IsFreeNode kept.old.trees kept.old.marks candidate.bidder candidate.node }
    ensures yes { IsTrue result → IsLive kept.old.trees (with_mark kept.old.marks candidate.bidder
        candidate.node mark) }
    ensures no { result ≡ false → ¬ IsLive kept.old.trees (with_mark kept.old.marks candidate.bidder
        candidate.node mark) }
    ensures same { IsSameStanding kept.old kept.new }
{
    kept.mark(candidate.bidder, candidate.node, mark);
    let live = is_live(kept);
    kept.mark(candidate.bidder, candidate.node, Mark::Free);
    live
}

/// Whether the node is free.
fn is_free(kept: &Kept, candidate: Candidate) -> bool
    requires bidder { candidate.bidder < length kept.now.trees }
    requires node { candidate.node < length (tree_of kept.now.trees candidate.bidder) }
    ensures free { IsTrue result
        ↔ IsFreeNode kept.now.trees kept.now.marks candidate.bidder candidate.node }
    ensures fit { AreFixingsOf kept.now.trees kept.now.marks }
{
    kept.marks().of(candidate.bidder).get(candidate.node) == Mark::Free
}

/// Whether the node is free and leaves both children live.
pub(crate) fn splits(kept: &mut Kept, candidate: Candidate) -> bool
    requires bidder { candidate.bidder < length kept.old.trees }
    requires node { candidate.node < length (tree_of kept.old.trees candidate.bidder) }
    ensures yes { IsTrue result
        → IsSplitNode kept.old.trees kept.old.marks candidate.bidder candidate.node }
    ensures no { result ≡ false
        → IsFreeNode kept.old.trees kept.old.marks candidate.bidder candidate.node
        → IsLive kept.old.trees (with_mark kept.old.marks candidate.bidder candidate.node Must)
        → ¬ IsLive kept.old.trees (with_mark kept.old.marks candidate.bidder candidate.node Never) }
    ensures same { IsSameStanding kept.old kept.new }
{
    if !is_free(kept, candidate) {
        return false;
    }
    if !is_live_with(kept, candidate, Mark::Must) {
        return false;
    }
    is_live_with(kept, candidate, Mark::Never)
}

/// A node of the bidder that is free and leaves both children live.
fn find_in_tree(kept: &mut Kept, bidder: u8) -> Option<Candidate>
    requires { bidder < length kept.old.trees }
    ensures none { IfNone result (HasNoNodeOf kept.old.trees kept.old.marks bidder) }
    ensures some { IfSome result
        (λ candidate. IsSplitNode kept.old.trees kept.old.marks candidate.bidder candidate.node) }
    ensures same { IsSameStanding kept.old kept.new }
{
    for node in 0..kept.marks().of(bidder).len() {
        let candidate = Candidate { bidder, node };
        if splits(kept, candidate) {
            return Some(candidate);
        }
    }
    None
}

/// A node that is free and leaves both children live.
pub(crate) fn find(kept: &mut Kept) -> Option<Candidate>
    ensures none { IfNone result (HasNoNode kept.old.trees kept.old.marks) }
    ensures some { IfSome result
        (λ candidate. IsSplitNode kept.old.trees kept.old.marks candidate.bidder candidate.node) }
    ensures same { IsSameStanding kept.old kept.new }
{
    for bidder in 0..kept.len() {
        let found = find_in_tree(kept, bidder);
        if found.is_some() {
            return found;
        }
    }
    None
}

impl<'a> Workspace<'a> {
    /// Whether the node is there and free, and leaves both children live.
    pub(crate) fn splits(&mut self, candidate: Candidate) -> bool
        ensures yes { IsTrue result → IsSplitNode self.old.instance.trees self.old.side
            candidate.bidder candidate.node }
        ensures same { self.new ≡ self.old }
    {
        candidate.bidder < self.kept.len()
            && candidate.node < self.kept.marks().of(candidate.bidder).len()
            && splits(&mut self.kept, candidate)
    }

    /// A node that is free and leaves both children live.
    pub(crate) fn find_node(&mut self) -> Option<Candidate>
        ensures none { IfNone result (HasNoNode self.old.instance.trees self.old.side) }
        ensures some { IfSome result (λ node. IsSplitNode self.old.instance.trees self.old.side
            node.bidder node.node) }
        ensures same { self.new ≡ self.old }
    {
        find(&mut self.kept)
    }
}
