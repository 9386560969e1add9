//! Fractions in the fields of records.
ghost use Rattle.std.specs.Prelude.{◌≡◌};
ghost use Rattle.ice_journal.specs.Lines.{fraction_of};
ghost use Rattle.ice_journal.specs.Ranges.{IsFractionField};

use ice_frac::Frac;
use ice_journal::LowestFraction;

/// The fraction as a record holds it.
pub(crate) fn lowest_fraction(fraction: &Frac) -> LowestFraction
    requires { IsFractionField fraction.now }
    ensures { fraction_of result ≡ fraction.now }
{
    LowestFraction {
        num: fraction.num() as i64,
        den: fraction.den() as u16,
    }
}
