//! A session in a round.
ghost use Rattle.std.specs.Prelude.{◌≡◌, ◌∷◌, ◌++◌, [], List};
ghost use Rattle.ice_defs.specs.Round.{Judged, IsNextVerdict};
ghost use Rattle.ice_verdicts.specs.Judges.{bidders_in, IsVerdictIn, round_after, IsAfter};
ghost use Rattle.ice_round.specs.SessionAt.{session_after};

use crate::ready::Ready;
use crate::session::Session;
use ice_rules::Verdict;
use ice_terms::{Bid, Prices};
use ice_trade::Exchange;
use ice_tree::{Assignment, Bounds};
use std::marker::Model;

/// A session whose round takes submissions, seen as its exchange, the number of the settlement that
/// opened the round, the branches that are left, and the round: the bounds, provisional sets and
/// prices at its start, and of each bidder the next bounds and whether a submission was accepted.
#[derive(Drop)]
pub struct InRound {
    pub(crate) session: Session,
}

impl Model for InRound {
    ghost use Rattle.ice_round.specs.SessionAt.{RoundAt, IsRoundAt};
    ghost use Rattle.ice_round.specs.Kept.{round_at};

    ghost Value = { RoundAt };

    ghost view = { λ r. round_at r.session };

    ghost invariant = { λ r. IsRoundAt (round_at r.session) };
}

impl InRound {
    /// The exchange. It takes no memory.
    pub fn exchange(&self) -> &Exchange
        ensures { result.now ≡ self.now.exchange }
    {
        &self.session.exchange
    }

    /// The bidders' bounds at the start of the round. It takes no memory.
    pub fn bounds(&self) -> &[Bounds]
        ensures { result.now ≡ self.now.round.bounds }
    {
        self.session.judge.bounds()
    }

    /// The provisional sets, one of each bidder.
    pub fn sets(&self) -> &Assignment
        ensures { result.now ≡ self.now.round.sets }
    {
        self.session.judge.sets()
    }

    /// The prices.
    pub fn prices(&self) -> &Prices
        ensures { result.now ≡ self.now.round.prices }
    {
        self.session.judge.prices()
    }

    /// The number of the settlement that opened the round, from 0.
    pub fn number(&self) -> u8
        ensures { result ≡ self.now.number }
    {
        self.session.number
    }

    /// The verdict on a bid. The first that holds: `UnknownBidder` where no bidder has its name;
    /// `Repeated` where a bid of the bidder was accepted in this round; `WrongCount` where its
    /// values don't count the nodes of the bidder's tree; and else the verdict on new bounds,
    /// judged against the bounds, sets and prices at the start of the round.
    ///
    /// An accepted bid gives the bidder its next bounds and a mark, and changes nothing else. Any
    /// other one changes nothing. It takes no memory.
    pub fn submit(&mut self, bid: &Bid) -> Verdict
        ensures verdict { IsVerdictIn self.old.exchange self.old.round bid.now result }
        ensures next { (judged : List Judged) → IsAfter self.old.exchange judged self.old.round
            → IsNextVerdict self.old.round.prices self.old.exchange.settings.improve
            (bidders_in self.old.exchange self.old.round) judged bid.now result }
        ensures changed { self.new ≡ record self.old {
          round = round_after self.old.exchange self.old.round (record {
            submission = bid.now;
            verdict = result;
          });
        } }
        ensures after { (judged : List Judged) → IsAfter self.old.exchange judged self.old.round
            → IsAfter self.old.exchange (judged ++ record {
              submission = bid.now;
              verdict = result;
            } ∷ []) self.new.round }
    {
        let session = &mut self.session;
        session.judge.submit(&session.exchange, bid)
    }

    /// The session after the round: the next bounds stand, and the next settlement comes. It takes
    /// no memory.
    pub fn end(self) -> Ready
        ensures { result ≡ session_after self }
    {
        let mut session = self.session;
        session.judge.begin_next();
        session.number += 1;
        Ready { session }
    }
}
