//! A session whose bidders state their true values in its first round.
ghost use Rattle.std.specs.Prelude.{◌≡◌, [], IfOk};
ghost use Rattle.ice_defs.specs.Exchange.{opening_bounds};
ghost use Rattle.ice_round.specs.SessionAt.{SessionAt};
ghost use Rattle.ice_round.specs.Shown.{IsOpening};
ghost use Rattle.ice_session_laws.specs.Running.{IsRunning};
ghost use Rattle.ice_trial.specs.Truths.{AreTruths};
ghost use Rattle.ice_trial.specs.Rounds.{IsTold};
ghost use Rattle.ice_trial.specs.Ends.{IsTrialEnd};

use crate::bids::truth_bids;
use crate::round::submit_all;
use crate::summary::{Summary, summary_of};
use ice_price::PriceLimit;
use ice_round::{InRound, Ready, Settled};
use ice_search::Spent;
use ice_settled::{Halt, Opening};
use ice_terms::Bid;
use ice_trade::Exchange;
use ice_tree::Bounds;
use std::alloc::{AllocError, Global};

/// The first round of a trial.
pub struct TruthRound {
    /// The settlement that opened it.
    pub opening: Opening,
    /// The bids that state the true values of all bidders, in order. All of them were accepted.
    pub bids: Vec<Bid>,
}

// By hand, so that each exit that drops one has one call to prove, and not all its parts.
impl Drop for TruthRound {
    fn drop(self) {
        let TruthRound {
            opening: _,
            bids: _,
        } = self;
    }
}

/// How a trial ends.
#[derive(Drop)]
pub enum TrialEnd {
    /// The session closed.
    Closed(Summary),
    /// A search spent the branches: before the round of the true values, or behind it.
    Spent(Option<TruthRound>, Halt, Spent),
    /// The pricing run of settlement 0 ended at a limit.
    Limit(Halt, PriceLimit),
    /// No memory was left. It says nothing of the session.
    NoMemory,
}

/// Settles behind the round: with exact values no regret is left, so that the session closes,
/// unless a search ends it.
#[tactic(none)]
fn close(ready: Ready, first: TruthRound) -> TrialEnd
    requires { IsTold ready first }
    ensures { IsTrialEnd ready.exchange ready.bounds result }
{
    match ready.settle() {
        Settled::Closed(closing) => {
            let opening = &first.opening;
            TrialEnd::Closed(summary_of(&opening.best, &opening.regret, &closing))
        }
        Settled::Spent(halt, spent) => TrialEnd::Spent(Some(first), halt, spent),
        Settled::NoMemory => TrialEnd::NoMemory,
        Settled::Going(_, _) => unreachable!(),
        Settled::Limit(_, _) => unreachable!(),
    }
}

/// Submits the bids of all bidders, which are accepted, and ends the round.
#[tactic(none)]
fn hold_round(
    alloc: Global,
    round: InRound,
    opening: Opening,
    truths: &[Bounds],
) -> Result<(Ready, TruthRound), AllocError>
    requires { (s : SessionAt) × IsRunning [] s × IsOpening s round opening
        × AreTruths s.bounds truths.now }
    ensures { IfOk result (λ two. IsTold two.0 two.1
        × (two.0.exchange ≡ round.exchange) × (two.0.bounds ≡ truths.now)) }
{
    let mut round = round;
    let _den = opening.pricing.prices.den();
    let bids = truth_bids(alloc, round.exchange(), truths)?;
    submit_all(&mut round, &bids);
    Ok((round.end(), TruthRound { opening, bids }))
}

/// Settles, and where that opens a round lets the bidders state their true values and settles
/// again.
#[tactic(none)]
fn settle_twice(alloc: Global, ready: Ready, truths: &[Bounds]) -> TrialEnd
    requires running { IsRunning [] ready }
    requires truths { AreTruths ready.bounds truths.now }
    ensures { IsTrialEnd ready.exchange truths.now result }
{
    match ready.settle() {
        Settled::Closed(closing) => {
            TrialEnd::Closed(summary_of(&closing.best, &closing.regret, &closing))
        }
        Settled::Going(round, opening) => match hold_round(alloc, round, opening, truths) {
            Ok((next, first)) => close(next, first),
            Err(AllocError) => TrialEnd::NoMemory,
        },
        Settled::Spent(halt, spent) => TrialEnd::Spent(None, halt, spent),
        Settled::Limit(halt, limit) => TrialEnd::Limit(halt, limit),
        Settled::NoMemory => TrialEnd::NoMemory,
    }
}

/// Runs the session of an exchange: settlement 0, and where that doesn't close it a round in which
/// each bidder states its true values, which lie inside its opening bounds, and settlement 1. Each
/// bid is accepted, so all values are exact then and no regret is left: the session closes, unless
/// a search or the pricing of settlement 0 ended it before.
pub fn try_truths(alloc: Global, exchange: Exchange, truths: &[Bounds]) -> TrialEnd
    requires { AreTruths (opening_bounds exchange) truths.now }
    ensures { IsTrialEnd exchange truths.now result }
{
    let _bidders = exchange.bidders();
    match Ready::start(alloc, exchange) {
        Ok(ready) => settle_twice(alloc, ready, truths),
        Err(AllocError) => TrialEnd::NoMemory,
    }
}
