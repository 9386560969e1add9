//! The certificate of fair prices.
use ice_pricing::Certificate;
use std::marker::Model;

/// What shows that no accurate prices come nearer to the payments.
#[derive(Drop)]
pub struct FairCertificate {
    /// The denominator, and weighted sets.
    pub certificate: Certificate,
    /// For each bidder, the weight of what it pays above its set's cost.
    pub low: Vec<u64>,
    /// For each bidder, the weight of its set's cost above what it pays.
    pub high: Vec<u64>,
}

impl Model for FairCertificate {
    ghost use Rattle.ice_fair_laws.specs.Fair.{FairCertificate as Numbers};

    ghost Value = { Numbers };

    ghost view = { λ c. record { den = c.certificate.den; low = c.low.items; high = c.high.items; rows = c.certificate.rows } };
}
