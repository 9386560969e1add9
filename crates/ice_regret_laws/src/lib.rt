//! Laws of the definitions of regret and trades, which hold in every market.
#![tactic(auto)]

ghost use Rattle.ice_regret_laws.specs.Laws.{PerturbedGivesRegret, PerturbedAttains, RegretIsOne, RegretIsNotNegative, AssignmentsTrade, RegretBoundsTrades, WorthCoversLower};

/// The best value at perturbed weights, less the final value at lower ones, is the regret: nodes
/// that both assignments share cancel.
pub fn perturbed_weights_give_regret()
    ensures { PerturbedGivesRegret }
{}

/// The regret is exact: the best assignment at perturbed weights leads the final one by it, under a
/// profile inside the bounds.
pub fn perturbed_weights_attain_regret()
    ensures { PerturbedAttains }
{}

/// An assignment has one regret.
pub fn regrets_are_one()
    ensures { RegretIsOne }
{}

/// The regret of a feasible assignment isn't negative.
pub fn regrets_are_not_negative()
    ensures { RegretIsNotNegative }
{}

/// The trade of a feasible assignment is a feasible trade, where no bidder's tree sells more than
/// the bidder owns.
pub fn assignments_are_trades()
    ensures { AssignmentsTrade }
{}

/// Under every profile inside the bounds, no feasible trade is worth more than the final one by
/// more than the regret.
pub fn regret_bounds_trades()
    ensures { RegretBoundsTrades }
{}

/// Under every profile inside the bounds, the trade of a feasible assignment is worth to each
/// bidder at least the lower value of its set.
pub fn worths_cover_lower_values()
    ensures { WorthCoversLower }
{}
