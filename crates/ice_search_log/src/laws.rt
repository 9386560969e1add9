//! Laws of a branch and bound search, which hold of the definitions.
ghost use Rattle.ice_search_log.specs.Laws.{OpenRises, OpenBounds, OpenCloses, OpenSplits, ChildrenAreLater, FoundIsBest, FoundByIsBest, SplitCovers, CoverIsWhole, BestIsBelow, TreeLogPasses, TreeLogIsEarned, TreeLogLeaves, BranchesAreSplits, BestIsThere, NoneIsLeft, GreatestIsNext, SplitIsEarned, SearchBegins, SearchBounds, SearchSplits, SearchIsFound, SearchIsSpent, ClosedIsLow, SideIsBelow, SideIsStart, SidesAreFixings, BoundIsLive, NodeIsThere, MarkedIsLive, OpenSetsMeet, MarkedIsMet, MeetsStart, NetsGiveValue, SweepIsLawful, SweptIsPart, AllIsLeft, LeafIsNext, BranchIsNext};

/// What a search finds is the best.
pub fn found_sets_are_best()
    ensures { FoundIsBest }
{}

/// What a search finds by lawful derived goods is the best.
pub fn found_by_are_best()
    ensures { FoundByIsBest }
{}

/// A feasible assignment that meets a side meets one of its two children, and not both.
pub fn splits_cover()
    ensures { SplitCovers }
{}

/// No feasible assignment that meets the start is worth more than the greatest bound of a part that
/// isn't split.
pub fn bests_are_below()
    ensures { BestIsBelow }
{}

/// The log of the parts passes, where each leaf's bound is at most the target.
pub fn tree_logs_pass()
    ensures { TreeLogPasses }
{}

/// Each branch step of the log of the parts is earned, and each leaf has as many numbers as its
/// bound wants, and at most one for each good and derived good.
pub fn tree_logs_are_earned()
    ensures { TreeLogIsEarned }
{}

/// The log of all parts leaves an earned branch, where a part that isn't split has one.
pub fn tree_logs_leave()
    ensures { TreeLogLeaves }
{}

/// The log of all parts has a branch step for each part that is split.
pub fn branches_are_splits()
    ensures { BranchesAreSplits }
{}

/// Where an assignment is feasible and meets the start, there is a best one.
pub fn bests_are_there()
    ensures { BestIsThere }
{}

/// A feasible assignment that meets the start is worth at most the value, or meets an open part.
pub fn covers_are_whole()
    ensures { CoverIsWhole }
{}

/// Where no open part has a bound above the value, no part that isn't split has one.
pub fn none_are_left()
    ensures { NoneIsLeft }
{}

/// A swept part of the greatest bound of all open ones is next, where that is above the value.
pub fn greatest_are_next()
    ensures { GreatestIsNext }
{}

/// A branch of the next part is earned, where both its children are live.
pub fn splits_are_earned()
    ensures { SplitIsEarned }
{}

/// A search begins with one part, the start.
pub fn searches_begin()
    ensures { SearchBegins }
{}

/// A part of a search takes other multipliers, or is swept.
pub fn searches_bound()
    ensures { SearchBounds }
{}

/// A part of a search is split into two, by an earned branch.
pub fn searches_split()
    ensures { SearchSplits }
{}

/// Where no part that isn't split has a bound above the value, the search has found its sets.
pub fn searches_are_found()
    ensures { SearchIsFound }
{}

/// Where the next part has a free node both of whose sides are live, the search is spent at its
/// bound.
pub fn searches_are_spent()
    ensures { SearchIsSpent }
{}

/// A closed part has a bound of at most the value.
pub fn closed_are_low()
    ensures { ClosedIsLow }
{}

/// A part but the first has the marks of the part above it, and one more on a node that is free
/// there.
pub fn sides_are_below()
    ensures { SideIsBelow }
{}

/// The first part is the start.
pub fn first_sides_are_starts()
    ensures { SideIsStart }
{}

/// Each side has one mark per node.
pub fn sides_are_fixings()
    ensures { SidesAreFixings }
{}

/// A side with a bound is live.
pub fn bounded_are_live()
    ensures { BoundIsLive }
{}

/// Where no free node leaves both children live, the swept bound is at most any value that the open
/// sets don't exceed: one set for each bidder that it may still take, which together are worth at
/// most the value if they are feasible, and at most 2^50 more in any case.
pub fn nodes_are_there()
    ensures { NodeIsThere }
{}

/// What meets a marked side meets the side, where the node was free.
pub fn marks_are_met()
    ensures { MarkedIsMet }
{}

/// What meets a part meets the start.
pub fn parts_meet_starts()
    ensures { MeetsStart }
{}

/// The nets of any assignment and the costs of its goods sum to 64 times its value.
pub fn nets_give_values()
    ensures { NetsGiveValue }
{}

/// A sweep of zeros gives one lawful multiplier per good.
pub fn sweeps_are_lawful()
    ensures { SweepIsLawful }
{}

/// A part is swept: its bound falls to the swept one, or is no greater.
pub fn swept_are_parts()
    ensures { SweptIsPart }
{}

/// At first the whole log is left on the stack.
pub fn logs_are_left()
    ensures { AllIsLeft }
{}

/// The last part of the stack is written as a leaf.
pub fn leaves_are_next()
    ensures { LeafIsNext }
{}

/// The last part of the stack is written as a branch, and its two children take its place.
pub fn branches_are_next()
    ensures { BranchIsNext }
{}

/// A marked side is live where the bidder of the node still has a set.
pub fn marked_are_live()
    ensures { MarkedIsLive }
{}

/// Sets that bidders may still take meet the side, and are feasible where their goods are covered.
pub fn open_sets_meet()
    ensures { OpenSetsMeet }
{}

/// The children of each part of a search come later.
pub fn children_are_later()
    ensures { ChildrenAreLater }
{}

/// The open parts stay so where the value rises.
pub fn open_parts_rise()
    ensures { OpenRises }
{}

/// The open parts stay so where one of them takes another bound.
pub fn open_parts_bound()
    ensures { OpenBounds }
{}

/// A part whose bound is at most the value needn't stay open.
pub fn open_parts_close()
    ensures { OpenCloses }
{}

/// Where an open part is split, the others and its two children are the open ones.
pub fn open_parts_split()
    ensures { OpenSplits }
{}
