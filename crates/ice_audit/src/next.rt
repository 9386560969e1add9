//! What comes next behind the section of a statement.
use ice_defs::Verdict;
use ice_journal::LowestFraction;

/// What comes next.
#[derive(Clone, Copy)]
pub(crate) enum Next {
    /// The regret.
    Regret,
    /// The final set, at this regret.
    Kept { regret: i64 },
    /// The provisional set.
    Offered,
    /// The prices.
    Prices,
    /// A submission, or the next settlement.
    Round,
    /// This verdict.
    Verdict(Verdict),
    /// The cut and the surplus.
    Threshold,
    /// The payment at this cut.
    Payment { cut: LowestFraction },
    /// The end, behind this payment.
    End { payment: LowestFraction },
    /// Nothing, behind this payment.
    Nothing { payment: LowestFraction },
}
