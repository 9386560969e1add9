//! Laws of replays, which hold of the definitions.
ghost use Rattle.ice_replay.specs.Laws.{OneReplayAnswer};

/// But for want of memory, bytes have one replay of a settlement, or one reason why there is none:
/// any two answers say the same.
pub fn bytes_have_one_replay()
    ensures { OneReplayAnswer }
{}
