//! What a session does in a settlement: its searches, its halt, and the round that it opens.
ghost use Rattle.std.specs.Prelude.{◌≡◌, ◌+◌, ◌≤◌, [], false, IfOk, IfErr};
ghost use Rattle.ice_defs.specs.Session.{closes as closing};
ghost use Rattle.ice_defs.specs.Steps.{branch_count};
ghost use Rattle.ice_search.specs.Results.{IsFoundBy, IsEnd};
ghost use Rattle.ice_price.specs.Ends.{IsPriced};
ghost use Rattle.ice_round.specs.Kept.{session_at, IsKept};
ghost use Rattle.ice_round.specs.Searches.{final_search, provisional_search, settlement_branches, IsSettlementOf};
ghost use Rattle.ice_round.specs.Shown.{priced_trade, IsOpening};
ghost use Rattle.ice_round.specs.Ends.{IsHaltOf, IsStoppedAt, IsHaltedBy};
ghost use Rattle.ice_round.specs.Held.{HasFound};

use crate::in_round::InRound;
use crate::session::Session;
use crate::settling::Settling;
use ice_regret::{Regret, best_at_lower_values, regret_among_ties};
use ice_search::{Found, SearchEnd, search_anew};
use ice_settled::{Halt, Opening};
use ice_tree::AllWeights;
use ice_vickrey::Marginal;

impl Session {
    /// The final sets.
    fn final_sets(&self, branches: &mut u32) -> Result<Found, SearchEnd>
        requires kept { IsKept self.now }
        requires branches { branches.old ≤ 50000 }
        ensures found { IfOk result (IsFoundBy (final_search (session_at self.now))) }
        ensures branches { IfOk result (λ f. branches.new + branch_count f.log ≡ branches.old) }
        ensures end { IfErr result (IsEnd (final_search (session_at self.now))
            branches.old branches.new) }
    {
        best_at_lower_values(self.alloc, &self.exchange, self.judge.bounds(), branches)
    }

    /// The provisional sets.
    pub(crate) fn provisional_sets(&self, branches: &mut u32) -> Result<Found, SearchEnd>
        requires kept { IsKept self.now }
        requires branches { branches.old ≤ 50000 }
        ensures found { IfOk result (IsFoundBy (provisional_search (session_at self.now))) }
        ensures branches { IfOk result (λ f. branches.new + branch_count f.log ≡ branches.old) }
        ensures end { IfErr result (IsEnd (provisional_search (session_at self.now))
            branches.old branches.new) }
    {
        let mut weights = AllWeights::new(self.alloc, self.exchange.trees())?;
        weights.fill_weighted(self.judge.bounds(), self.exchange.settings().weight);
        search_anew(self.alloc, &self.exchange, &weights, branches)
    }

    /// A halt of this session, with what was found.
    pub(crate) fn halt(
        self,
        best: Option<Found>,
        regret: Option<Regret>,
        provisional: Option<Found>,
        marginals: Vec<Marginal>,
    ) -> Halt
        ensures session { IsHaltOf (session_at self) result }
        ensures best { result.best ≡ best }
        ensures regret { result.regret ≡ regret }
        ensures provisional { result.provisional ≡ provisional }
        ensures marginals { result.marginals ≡ marginals }
    {
        Halt {
            exchange: self.exchange,
            bounds: self.judge.into_bounds(),
            number: self.number,
            best,
            regret,
            provisional,
            marginals,
        }
    }

    /// The halt where one of the first two searches ended early.
    fn stop(self, end: SearchEnd, best: Option<Found>) -> (Halt, SearchEnd)
        requires { IsStoppedAt (session_at self) best None [] end }
        ensures { IsHaltedBy (session_at self) result.0 result.1 }
    {
        let none = Vec::new(self.alloc);
        (self.halt(best, None, None, none), end)
    }

    /// The round that a settlement opens.
    pub(crate) fn open(self, opening: &Opening, branches: u32) -> InRound
        requires number { opening.now.number ≡ self.number }
        requires kept { IsKept self }
        requires goes_on { closing self.exchange.settings self.number
            opening.now.regret.amount ≡ false }
        // What the settlement found
        requires settlement { IsSettlementOf (session_at self) opening.now.best opening.now.regret }
        requires provisional { IsFoundBy (provisional_search (session_at self))
            opening.now.provisional }
        requires pricing { IsPriced (priced_trade (session_at self) opening.now)
            opening.now.pricing }
        requires branches { branches + (settlement_branches opening.now.best opening.now.regret
            + branch_count opening.now.provisional.log) ≡ self.branches }
        // The round
        ensures { IsOpening (session_at self) result opening.now }
    {
        let mut session = self;
        session
            .judge
            .offer(&session.exchange, &opening.provisional.best);
        session.judge.price(&opening.pricing.prices);
        session.branches = branches;
        InRound { session }
    }

    /// The final sets with their regret, by ties too.
    pub(crate) fn search(self) -> Result<Settling, (Halt, SearchEnd)>
        requires { IsKept self }
        ensures settling { IfOk result (λ x. HasFound x []) }
        ensures session { IfOk result (λ x. x.session ≡ session_at self) }
        ensures end { IfErr result (λ e. IsHaltedBy (session_at self) e.0 e.1) }
    {
        let mut left = self.branches;
        let mut best = match self.final_sets(&mut left) {
            Ok(best) => best,
            Err(end) => return Err(self.stop(end, None)),
        };
        let regret = match regret_among_ties(
            self.alloc,
            &self.exchange,
            self.judge.bounds(),
            &mut best,
            &mut left,
        ) {
            Ok(regret) => regret,
            Err(end) => return Err(self.stop(end, Some(best))),
        };
        let witnesses = Vec::new(self.alloc);
        let discounts = Vec::new(self.alloc);
        Ok(Settling {
            session: self,
            best,
            regret,
            witnesses,
            discounts,
            left,
        })
    }
}
