//! The settings of a session.
ghost use Rattle.std.specs.Prelude.{◌≡◌};
ghost use Rattle.ice_terms.specs.Made.{IsMade};
ghost use Rattle.ice_defs.specs.Session.{closes as closing};
ghost use Rattle.ice_defs.specs.Exchange as exchange;

use std::marker::Model;

/// The settings of a session. Values and amounts of money are in whole units.
#[derive(Clone, Copy)]
pub struct Settings {
    /// How much the lower bounds weigh in provisional values, from 0 to 100.
    pub weight: u8,
    /// The greatest regret at which a session closes, from 0 to 10^12.
    pub close_regret: i64,
    /// The greatest price, from 1 to 10^9.
    pub cap: i64,
    /// How far a submission has to improve, from 0 to 10^9.
    pub improve: i64,
    /// How many rounds a session has at most, from 0 to 20.
    pub rounds: u8,
    /// How many branches all searches of a session, or of a regret, may take together, from 0 to
    /// 50,000.
    pub branches: u32,
    /// How many derived goods a journal may state, from 0 to 2,000.
    pub derived: u16,
}

impl Model for Settings {
    ghost use Rattle.ice_defs.specs.Exchange as exchange;

    ghost Value = { exchange.Settings };

    ghost view = { λ a. record { weight = a.weight; close_regret = a.close_regret; cap = a.cap; improve = a.improve; rounds = a.rounds; branches = a.branches; derived = a.derived } };

    ghost invariant = { λ a. exchange.AreSettings (record { weight = a.weight; close_regret = a.close_regret; cap = a.cap; improve = a.improve; rounds = a.rounds; branches = a.branches; derived = a.derived }) };

    ghost inverse = { λ v. record { weight = v.weight; close_regret = v.close_regret; cap = v.cap; improve = v.improve; rounds = v.rounds; branches = v.branches; derived = v.derived } };
}

impl Settings {
    /// These settings, with no derived goods, and None exactly where one of them is outside its
    /// limits.
    pub fn new(
        weight: u8,
        close_regret: i64,
        cap: i64,
        improve: i64,
        rounds: u8,
        branches: u32,
    ) -> Option<Settings>
        ensures { IsMade result exchange.AreSettings (record { weight = weight; close_regret = close_regret; cap = cap; improve = improve; rounds = rounds; branches = branches; derived = 0 }) }
    {
        if weight > 100 {
            return None;
        }
        if close_regret < 0 || close_regret > 1_000_000_000_000 {
            return None;
        }
        if cap < 1 || cap > 1_000_000_000 {
            return None;
        }
        if improve < 0 || improve > 1_000_000_000 {
            return None;
        }
        if rounds > 20 || branches > 50_000 {
            return None;
        }
        Some(Settings {
            weight,
            close_regret,
            cap,
            improve,
            rounds,
            branches,
            derived: 0,
        })
    }

    /// The same settings with so many derived goods, and None exactly where these are more than
    /// 2,000.
    pub fn with_derived(&self, derived: u16) -> Option<Settings>
        ensures { IsMade result exchange.AreSettings (record self.now { derived = derived }) }
    {
        if derived > 2000 {
            return None;
        }
        Some(Settings { derived, ..*self })
    }

    /// Whether a settlement with this number and regret is the last one: the regret is at most the
    /// one that closes, or its number is that of the rounds, so that none is left.
    pub fn closes(&self, settlement: u8, regret: i128) -> bool
        ensures { result ≡ closing self.now settlement regret }
    {
        regret <= i128::from(self.close_regret) || settlement == self.rounds
    }
}
