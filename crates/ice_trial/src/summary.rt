//! The figures of a session that closed.
ghost use Rattle.std.specs.Prelude.{◌≡◌};

use ice_frac::Frac;
use ice_regret::Regret;
use ice_search::Found;
use ice_settled::Closing;

/// The figures of a trial that closed.
#[derive(Drop)]
pub struct Summary {
    /// The best value at the opening bounds.
    pub opened: i128,
    /// The regret there of the assignment that was found.
    pub opened_regret: i128,
    /// The number of the settlement that closed the session: 0, or 1 where the bidders stated their
    /// true values before.
    pub settled: u8,
    /// The best value at the bounds of that settlement.
    pub total: i128,
    /// The regret there of the assignment that was found.
    pub regret: i128,
    /// What the discounts leave of the total.
    pub surplus: Frac,
}

/// The figures of a session in which settlement 0 found this and this regret, and that then closed.
pub(crate) fn summary_of(best: &Found, regret: &Regret, closing: &Closing) -> Summary
    ensures { result ≡ record {
      opened = best.now.value;
      opened_regret = regret.now.amount;
      settled = closing.now.number;
      total = closing.now.best.value;
      regret = closing.now.regret.amount;
      surplus = closing.now.payments.surplus;
    } }
{
    Summary {
        opened: best.value,
        opened_regret: regret.amount,
        settled: closing.number,
        total: closing.best.value,
        regret: closing.regret.amount,
        surplus: closing.payments.surplus,
    }
}
