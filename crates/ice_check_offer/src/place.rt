//! What comes next in an offer.
use ice_defs::Verdict;

/// A list of rows.
#[derive(Clone, Copy)]
pub enum CertificateList {
    /// The rows that show the accuracy of the prices.
    Accuracy,
    /// The rows that show their balance.
    Balance,
}

/// What comes next.
#[derive(Clone, Copy)]
pub enum Place {
    /// The prices.
    Prices,
    /// The violation, with the denominator of the first list.
    Accuracy,
    /// A row of this list, or what follows the list.
    Rows(CertificateList),
    /// A submission, or the next settlement.
    Round,
    /// This verdict.
    Verdict(Verdict),
}

/// Where a record led.
#[derive(Clone, Copy)]
pub enum Went {
    /// To the next record of the offer.
    On,
    /// To the next settlement.
    ToSettlement,
}
