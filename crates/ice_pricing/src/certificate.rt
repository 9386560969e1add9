//! Certificates of prices.
ghost use Rattle.std.specs.Prelude.{IsTrue};
ghost use Rattle.ice_pricing.specs.Priced.{IsLimited};

use ice_defs::GREATEST_DENOMINATOR;
use ice_terms::Prices;
use ice_tree::NodeSet;
use std::marker::Model;

/// A satisfied set of a bidder, with a weight.
#[derive(Drop)]
pub struct CertificateRow {
    /// The bidder's number.
    pub bidder: u8,
    /// The weight, over the certificate's denominator.
    pub weight: u64,
    /// The set.
    pub set: NodeSet,
}

impl Model for CertificateRow {
    ghost use Rattle.ice_defs.specs.Rows.{Row};

    ghost Value = { Row };

    ghost view = { λ r. record { bidder = r.bidder; weight = r.weight; set = r.set } };
}

/// Weighted sets, over one denominator, that show how good prices are.
#[derive(Drop)]
pub struct Certificate {
    /// The denominator of the weights.
    pub den: u64,
    /// The sets.
    pub rows: Vec<CertificateRow>,
}

impl Model for Certificate {
    ghost use Rattle.ice_defs.specs.Rows.{Certificate as Rows};

    ghost Value = { Rows };

    ghost view = { λ c. record { den = c.den; rows = c.rows.items } };
}

/// The greatest weight of a row, and the greatest denominator of weights and of prices.
pub const GREATEST_WEIGHT: u64 = GREATEST_DENOMINATOR as u64;

impl Certificate {
    /// Whether the denominator is from 1 to 2^32, and there are at most 200 rows, each with a
    /// weight of at most 2^32.
    pub fn is_limited(&self) -> bool
        ensures yes { IsTrue result → IsLimited self.now }
        ensures no { IsLimited self.now → IsTrue result }
    {
        if self.den == 0 || self.den > GREATEST_WEIGHT || self.rows.len() > 200 {
            return false;
        }
        for row in &self.rows {
            if row.weight > GREATEST_WEIGHT {
                return false;
            }
        }
        true
    }
}

/// Prices with their violation and what shows that they are accurate and balanced.
pub struct Pricing {
    /// The prices.
    pub prices: Prices,
    /// Their violation, in hundredths and times their denominator.
    pub delta: i128,
    /// What shows that no prices have a smaller violation.
    pub accuracy: Certificate,
    /// What shows that no prices of this violation have a smaller greatest price.
    pub balance: Certificate,
}

// By hand, so that each exit that drops one has one call to prove, and not all its parts.
impl Drop for Pricing {
    fn drop(self) {
        let Pricing {
            prices: _,
            delta: _,
            accuracy: _,
            balance: _,
        } = self;
    }
}
