//! Laws of rounds: their order is free between bidders, one taken submission by submission is the
//! round of the definition, and bounds stay bounds. It has no code.
#![tactic(auto)]

ghost use Rattle.ice_round_laws.specs.Keeping.{RoundsKeepBounds};
ghost use Rattle.ice_round_laws.specs.Laws.{OrderIsFree, OwnSubmissionsTell, OthersSwap};
ghost use Rattle.ice_round_laws.specs.Running.{EntriesBegin, EntriesGoOn, EntriesAreDefined, EntriesTellBounds, EntriesTellVerdict, RoundsBegin, RoundsGoOn, VerdictsMakeRound, VerdictIsOne, NamesBegin, NamesStay, StandingsAreNamed, StandingIs, OneEntryDecides, NoEntryDecides, OneEntryChanges, AcceptedIsTaken, OthersChangeNothing, OtherEntriesStay};

/// Rounds with the same submissions of each name in the same order give the same verdicts to each
/// name and the same next bounds.
pub fn order_is_free()
    ensures { OrderIsFree }
{}

/// A verdict looks at the earlier submissions of its own name alone.
pub fn own_submissions_tell()
    ensures { OwnSubmissionsTell }
{}

/// Two submissions of different names may change places.
pub fn others_swap()
    ensures { OthersSwap }
{}

/// Rounds leave bounds that are bounds of the bidders' trees.
pub fn rounds_keep_bounds()
    ensures { RoundsKeepBounds }
{}

/// Before any submission each bidder has its own bounds, and none was accepted.
pub fn entries_begin()
    ensures { EntriesBegin }
{}

/// A submission and its verdict make of the definition's entries those after it.
pub fn entries_go_on()
    ensures { EntriesGoOn }
{}

/// The entries that a round's submissions leave, one after another, are the definition's.
pub fn entries_are_defined()
    ensures { EntriesAreDefined }
{}

/// The bounds in the entries are the definition's next bounds.
pub fn entries_tell_bounds()
    ensures { EntriesTellBounds }
{}

/// The next verdict goes by the entries alone.
pub fn entries_tell_verdict()
    ensures { EntriesTellVerdict }
{}

/// A round without submissions is one.
pub fn rounds_begin()
    ensures { RoundsBegin }
{}

/// A round with one submission more is a round with the next verdict.
pub fn rounds_go_on()
    ensures { RoundsGoOn }
{}

/// Verdicts taken one at a time by the entries are those of a round, and no others are.
pub fn verdicts_make_round()
    ensures { VerdictsMakeRound }
{}

/// There is at most one next verdict.
pub fn verdicts_are_one()
    ensures { VerdictIsOne }
{}

/// The entries have the bidders' names.
pub fn names_begin()
    ensures { NamesBegin }
{}

/// No submission changes the entries' names.
pub fn names_stay()
    ensures { NamesStay }
{}

/// What the bidders of an exchange bring into a round has their names.
pub fn standings_are_named()
    ensures { StandingsAreNamed }
{}

/// Each bidder brings its own tree, bounds and set.
pub fn standing_is_its_bidders()
    ensures { StandingIs }
{}

/// The entry of a submission's bidder decides its verdict.
pub fn one_entry_decides()
    ensures { OneEntryDecides }
{}

/// Where no entry has the submission's name, the bidder is unknown.
pub fn no_entry_decides()
    ensures { NoEntryDecides }
{}

/// A submission changes its bidder's entry alone.
pub fn one_entry_changes()
    ensures { OneEntryChanges }
{}

/// An accepted submission gives its bounds to an entry that took none before.
pub fn accepted_is_taken()
    ensures { AcceptedIsTaken }
{}

/// A submission that isn't accepted changes nothing.
pub fn others_change_nothing()
    ensures { OthersChangeNothing }
{}

/// A submission leaves the entries of other names as they are.
pub fn other_entries_stay()
    ensures { OtherEntriesStay }
{}
