//! Laws over the definitions of linear programs and their dictionaries.
ghost use Rattle.ice_program_laws.specs.Laws.{DualsGiveLeast, MixGivesInfeasible, PivotKeepsSolutions, LeastEndGivesDuals, LeastEndGivesLeast, InfeasibleEndGivesMix, SomeAreNeverWide, ProductsCommute, ZeroRowStays};

/// A feasible point with duals is least.
pub fn duals_give_least()
    ensures { DualsGiveLeast }
{}

/// A mix shows that no point is feasible.
pub fn mix_gives_infeasible()
    ensures { MixGivesInfeasible }
{}

/// A pivot that isn't too wide keeps the solutions of a dictionary.
pub fn pivot_keeps_solutions()
    ensures { PivotKeepsSolutions }
{}

/// Where costs are at least 0 and the trace ends with the least, it states a feasible point and its
/// duals.
pub fn least_end_gives_duals()
    ensures { LeastEndGivesDuals }
{}

/// So the stated point is least.
pub fn least_end_gives_least()
    ensures { LeastEndGivesLeast }
{}

/// Where the trace ends with no leaving variable, it states a mix.
pub fn infeasible_end_gives_mix()
    ensures { InfeasibleEndGivesMix }
{}

/// Products by 0, 1 and -1, sums with 0, and quotients of 0 and 1 are never too wide.
pub fn some_are_never_wide()
    ensures { SomeAreNeverWide }
{}

/// The order of a product's factors doesn't matter, also for what is too wide.
pub fn products_commute()
    ensures { ProductsCommute }
{}

/// A pivot leaves a row whose coefficient of the entering variable is 0 as it is.
pub fn zero_row_stays()
    ensures { ZeroRowStays }
{}
