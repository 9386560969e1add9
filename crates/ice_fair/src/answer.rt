//! Fair prices, with what shows them to be fair.
use ice_fair_stage::FairCertificate;
use ice_frac::Frac;
use ice_pricing::Certificate;
use ice_terms::Prices;

/// Fair prices with what shows them to be fair.
pub struct Fair {
    /// The prices.
    pub prices: Prices,
    /// Their violation, in hundredths and times their denominator.
    pub delta: i128,
    /// What shows that no prices have a smaller violation.
    pub accuracy: Certificate,
    /// The greatest size of a bidder's payment less what its set costs.
    pub distance: Frac,
    /// What shows that no prices of this violation have a smaller distance.
    pub certificate: FairCertificate,
}

// By hand, so that each exit that drops one has one call to prove, and not all its parts.
impl Drop for Fair {
    fn drop(self) {
        let Fair {
            prices: _,
            delta: _,
            accuracy: _,
            distance: _,
            certificate: _,
        } = self;
    }
}
