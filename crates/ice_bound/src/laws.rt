//! Laws of the definitions, which hold of every bound.

ghost use Rattle.ice_bound.specs.Laws.{BoundIsSound, DeadHasNone, BoundByIsSound, PlainBoundIsBound, BoundStays, ChargedGivesNet};

/// A bound is above every feasible assignment that meets the side.
#[tactic(auto, using(crate::proofs::Above::bound_is_sound))]
pub fn bounds_are_sound()
    ensures { BoundIsSound }
{}

/// No feasible assignment meets a side with a dead bidder.
#[tactic(auto, using(crate::proofs::Above::dead_has_none))]
pub fn dead_sides_have_none()
    ensures { DeadHasNone }
{}

/// A bound at the numbers of a leaf is above every feasible assignment that meets the side, where
/// the limits of the derived goods that it counts are kept.
#[tactic(auto, using(crate::proofs::Above::bound_by_is_sound))]
pub fn bounds_by_are_sound()
    ensures { BoundByIsSound }
{}

/// A bound by goods alone is the one at 64 times its multipliers, with no tolls, among any derived
/// goods.
pub fn plain_bounds_are_bounds()
    ensures { PlainBoundIsBound }
{}

/// More derived goods change no bound that has tolls on those before them alone.
pub fn bounds_stay()
    ensures { BoundStays }
{}

/// The net of a set, less its tolls, is its value at charged weights, less what its units cost. So
/// whatever finds nets at weights in 4096ths finds nets with tolls.
#[tactic(auto, using(crate::proofs::Derived::charged_gives_net))]
pub fn charged_weights_give_nets()
    ensures { ChargedGivesNet }
{}
