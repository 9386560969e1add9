//! The cut and the surplus of a session that closes.
ghost use Rattle.std.specs.Prelude.{◌≡◌, ◌<◌, ◌≤◌, pos};
ghost use Rattle.ice_defs.specs.Fraction.{whole_number};
ghost use Rattle.ice_frac.specs.Lowest.{IsLowest};
ghost use Rattle.ice_journal.specs.Lines.{fraction_of};
ghost use Rattle.ice_journal.specs.Ranges.{IsFractionField};

use ice_frac::Frac;
use ice_journal::LowestFraction;
use std::marker::Model;

/// The cut off each Vickrey discount, and what the discounts that it leaves leave of the total.
#[derive(Clone, Copy)]
pub struct Charge {
    cut: LowestFraction,
    surplus: LowestFraction,
}

impl Model for Charge {
    ghost use Rattle.std.specs.Prelude.{◌≤◌};
    ghost use Rattle.ice_frac.specs.Lowest.{IsLowest};
    ghost use Rattle.ice_journal.specs.Lines.{fraction_of};
    ghost use Rattle.ice_journal_laws.specs.Fields.{Closing};

    ghost Value = { Closing };

    ghost view = { λ c. record { cut = fraction_of c.cut; surplus = fraction_of c.surplus } };

    ghost invariant = { λ c. IsLowest (fraction_of c.cut) × IsLowest (fraction_of c.surplus)
        × (c.cut.den ≤ 1000) };

    ghost inverse = { λ v. record {
      cut = record { num = v.cut.num; den = v.cut.den };
      surplus = record { num = v.surplus.num; den = v.surplus.den };
    } };
}

impl Charge {
    /// No cut and no surplus, as before a session closes.
    pub fn none() -> Charge
        ensures cut { result.cut ≡ whole_number (pos 0) }
        ensures surplus { result.surplus ≡ whole_number (pos 0) }
    {
        let nothing = LowestFraction { num: 0, den: 1 };
        Charge {
            cut: nothing,
            surplus: nothing,
        }
    }

    /// The cut and the surplus that a record states.
    pub(crate) fn new(cut: LowestFraction, surplus: LowestFraction) -> Charge
        requires cut { IsFractionField (fraction_of cut) }
        requires surplus { IsFractionField (fraction_of surplus) }
        ensures cut { result.cut ≡ fraction_of cut }
        ensures surplus { result.surplus ≡ fraction_of surplus }
    {
        Charge { cut, surplus }
    }

    /// The cut, over a denominator of at most 1,000.
    pub fn cut(&self) -> LowestFraction
        ensures value { fraction_of result ≡ self.now.cut }
        ensures proper { 0 < result.den }
        ensures few { result.den ≤ 1000 }
    {
        self.cut
    }

    /// The surplus.
    pub fn surplus(&self) -> Frac
        ensures { result ≡ self.now.surplus }
    {
        match Frac::new(i128::from(self.surplus.num), i128::from(self.surplus.den)) {
            Some(fraction) => fraction,
            None => unreachable!(),
        }
    }
}
