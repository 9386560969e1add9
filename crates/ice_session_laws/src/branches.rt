//! Laws of branches: where a search of a session or of a regret is spent, the settings allowed
//! fewer branches than the number of nodes and of searches asks for.
ghost use Rattle.ice_session_laws.specs.BranchLaws.{GroupLogIsShort, SpentRegretHasFew, SpentSessionHasFew};

/// A log that passes from the start of a group has fewer branch steps than 2 to the number of
/// nodes.
#[tactic(auto, using(crate::proofs::BranchLogs::group_log_is_short))]
pub fn group_log_is_short()
    ensures { GroupLogIsShort }
{}

/// Where one of the two searches of a regret is spent, there were fewer branches than twice 2 to
/// the number of nodes.
pub fn spent_regret_has_few()
    ensures { SpentRegretHasFew }
{}

/// Where a search of a session is spent, there were fewer branches than 2 to the number of nodes
/// for each search that a session may have: three a settlement that goes on, two of the last one,
/// and one without each bidder.
#[tactic(auto, using(crate::proofs::BranchSessions::spent_session_has_few))]
pub fn spent_session_has_few()
    ensures { SpentSessionHasFew }
{}
