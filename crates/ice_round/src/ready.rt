//! A session between rounds.
ghost use Rattle.std.specs.Prelude.{◌≡◌, [], IfOk, IfErr};
ghost use Rattle.ice_defs.specs.Exchange.{opening_bounds};
ghost use Rattle.ice_round.specs.Ends.{IsHaltedBy, IsSettledAs};
ghost use Rattle.ice_round.specs.Held.{HasFound};

use crate::session::Session;
use crate::settled::Settled;
use crate::settling::Settling;
use ice_search::SearchEnd;
use ice_settled::Halt;
use ice_trade::Exchange;
use ice_tree::Bounds;
use ice_verdicts::Judge;
use std::alloc::{AllocError, Global};
use std::marker::Model;

/// A session whose next settlement may come, seen as its exchange, the bidders' bounds, the number
/// of that settlement, and the branches that are left.
#[derive(Drop)]
pub struct Ready {
    pub(crate) session: Session,
}

impl Model for Ready {
    ghost use Rattle.ice_round.specs.SessionAt.{SessionAt};
    ghost use Rattle.ice_round.specs.Kept.{session_at, IsKept};

    ghost Value = { SessionAt };

    ghost view = { λ r. session_at r.session };

    ghost invariant = { λ r. IsKept r.session };
}

impl Ready {
    /// The session of an exchange: its opening bounds stand, settlement 0 comes next, and all
    /// branches of the settings are left. It takes the memory that its rounds need.
    pub fn start(alloc: Global, exchange: Exchange) -> Result<Ready, AllocError>
        ensures { IfOk result (λ r. r ≡ record {
          exchange = exchange;
          bounds = opening_bounds exchange;
          number = 0;
          branches = exchange.settings.branches;
        }) }
    {
        // The exchange is a lawful one.
        let _bidders = exchange.bidders();
        let judge = Judge::new(alloc, &exchange)?;
        let branches = exchange.settings().branches;
        Ok(Ready {
            session: Session {
                alloc,
                exchange,
                judge,
                number: 0,
                branches,
            },
        })
    }

    /// The exchange. It takes no memory.
    pub fn exchange(&self) -> &Exchange
        ensures { result.now ≡ self.now.exchange }
    {
        &self.session.exchange
    }

    /// The bidders' bounds, one of each bidder. It takes no memory.
    pub fn bounds(&self) -> &[Bounds]
        ensures { result.now ≡ self.now.bounds }
    {
        self.session.judge.bounds()
    }

    /// The number of the settlement that comes next, from 0.
    pub fn number(&self) -> u8
        ensures { result ≡ self.now.number }
    {
        self.session.number
    }

    /// The branches that are left for the searches to come.
    pub fn branches(&self) -> u32
        ensures { result ≡ self.now.branches }
    {
        self.session.branches
    }

    /// The next settlement as far as its final sets and their regret: the search at lower values
    /// from the empty assignment, and the regret of what it finds.
    ///
    /// An error has what was found before the search that ended early.
    pub fn search(self) -> Result<Settling, (Halt, SearchEnd)>
        ensures settling { IfOk result (λ x. HasFound x []) }
        ensures session { IfOk result (λ x. x.session ≡ self) }
        ensures end { IfErr result (λ e. IsHaltedBy self e.0 e.1) }
    {
        self.session.search()
    }

    /// The next settlement as a whole, in this order: the search at lower values from the empty
    /// assignment, the regret of what it finds, and the close test. Where the test closes the
    /// session, the Vickrey discounts and the Threshold payments follow. Where it doesn't, the
    /// search at weighted values from the empty assignment follows, then the prices of what it
    /// finds, and a round begins, with the same bounds and the branches that these searches left.
    ///
    /// `Spent` comes only where a search used all branches that those before it left; `Limit` only
    /// where the pricing run ended so. After these, and after want of memory, the session is gone;
    /// the halt has what was done.
    pub fn settle(self) -> Settled
        ensures { IsSettledAs self result }
    {
        match self.search() {
            Ok(settling) => settling.finish(),
            Err((halt, end)) => match end {
                SearchEnd::Spent(spent) => Settled::Spent(halt, spent),
                SearchEnd::NoMemory => Settled::NoMemory,
            },
        }
    }
}
