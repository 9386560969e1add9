//! A place in a list, the variable that stands there, and its ratio.
ghost use Rattle.std.specs.Prelude.{◌≡◌};
ghost use Rattle.ice_defs.specs.Dictionary.{is_positive, is_negative, is_before};

use ice_frac::Frac;
use std::cmp::Ordering;
use std::marker::Model;

/// A place, and the number of the variable that stands there.
#[derive(Clone, Copy)]
pub(crate) struct Spot {
    pub(crate) place: usize,
    pub(crate) variable: usize,
}

impl Model for Spot {
    ghost use Rattle.ice_defs.specs.Dictionary.{Spot as Place};

    ghost Value = { Place };

    ghost view = { λ s. record { place = s.place; variable = s.variable } };

    ghost inverse = { λ v. record { place = v.place; variable = v.variable } };
}

/// A variable on the left that bounds the entering one, and how far that may rise: the ratio of its
/// constant to minus its coefficient.
#[derive(Clone, Copy)]
pub(crate) struct Ratio {
    pub(crate) spot: Spot,
    pub(crate) ratio: Frac,
}

impl Model for Ratio {
    ghost use Rattle.ice_defs.specs.Dictionary.{Ratio as SpotRatio};

    ghost Value = { SpotRatio };

    ghost view = { λ r. record { spot = r.spot; ratio = r.ratio } };

    ghost inverse = { λ v. record { spot = v.spot; ratio = v.ratio } };
}

/// Whether the fraction is above 0.
pub(crate) fn is_positive(fraction: &Frac) -> bool
    ensures { result ≡ is_positive fraction.now }
{
    fraction.num() > 0
}

/// Whether the fraction is below 0.
pub(crate) fn is_negative(fraction: &Frac) -> bool
    ensures { result ≡ is_negative fraction.now }
{
    fraction.num() < 0
}

impl Spot {
    /// The place.
    pub(crate) fn place(&self) -> usize
        ensures { result ≡ self.now.place }
    {
        self.place
    }
}

impl Ratio {
    /// The place of the variable.
    pub(crate) fn place(&self) -> usize
        ensures { result ≡ self.now.spot.place }
    {
        self.spot.place()
    }

    /// Whether this ratio is the lower one, or of two equal ones that of the variable with the
    /// lower number.
    pub(crate) fn is_before(&self, other: &Ratio) -> bool
        ensures { result ≡ is_before self.now other.now }
    {
        match self.ratio.cmp(&other.ratio) {
            Ordering::Less => true,
            Ordering::Equal => self.spot.variable < other.spot.variable,
            Ordering::Greater => false,
        }
    }
}
