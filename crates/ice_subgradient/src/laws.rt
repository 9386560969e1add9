//! Laws of offers, which hold of the definitions.
ghost use Rattle.ice_subgradient.specs.Laws.{OffersAreOne};

/// Several offers at one side are one.
#[tactic(auto, using(crate::proofs::Offering::offered_again))]
pub fn offers_are_one()
    ensures { OffersAreOne }
{}
