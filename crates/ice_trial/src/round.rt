//! A round in which bids are submitted.
ghost use Rattle.ice_trial.specs.Rounds.{Submits};

use ice_round::InRound;
use ice_terms::Bid;

/// Submits the bids in their order.
#[tactic(none)]
pub(crate) fn submit_all(round: &mut InRound, bids: &[Bid])
    ensures { Submits round.old round.new bids.now }
{
    for bid in bids {
        let _values = bid.lo();
        let _verdict = round.submit(bid);
    }
}
