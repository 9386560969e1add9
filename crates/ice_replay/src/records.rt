//! The records of a session that a replay looks at.
ghost use Rattle.std.specs.Prelude.{◌≡◌, ℕ, None, MatchOption};
ghost use Rattle.ice_journal.specs.Lines.{record_of};
ghost use Rattle.ice_journal.specs.Records as records;
ghost use Rattle.ice_journal_laws.specs.Fields.{prices_in};
ghost use Rattle.ice_replay.specs.Settlements.{is_session_head};

use ice_journal::{Kind, Line};
use ice_terms::Prices;

/// Whether the record is the head of a session.
pub(crate) fn is_session_head(line: &Line) -> bool
    ensures { result ≡ is_session_head (record_of line.now) }
{
    matches!(
        line,
        Line::Head {
            kind: Kind::Session,
            ..
        }
    )
}

/// The prices that the record states.
pub(crate) fn prices_in(line: &Line) -> Option<Prices>
    ensures { MatchOption result ((goods : ℕ) → prices_in goods (record_of line.now) ≡ None)
        (λ prices. record_of line.now ≡ records.prices prices) }
{
    match line {
        Line::Prices(prices) => Some(prices.copy()),
        _ => None,
    }
}
