//! Laws over the definitions of fractions, and of the greatest common divisor.
ghost use Rattle.ice_frac.specs.Laws.{CommonDivisorIsGreatest, IsEquality, IsField, IsOrder, LowestIsUnique};

/// Equality of fractions is an equivalence that sums, products and negated fractions keep.
pub fn equality_laws()
    ensures { IsEquality }
{}

/// Fractions are a field.
pub fn field_laws()
    ensures { IsField }
{}

/// The order of fractions is that of an ordered field.
pub fn order_laws()
    ensures { IsOrder }
{}

/// One fraction has one numerator and one denominator in lowest terms.
pub fn lowest_is_unique()
    ensures { LowestIsUnique }
{}

/// What Euclid's steps give of two numbers divides both, and each number that divides both divides
/// it.
pub fn common_divisors_are_greatest()
    ensures { CommonDivisorIsGreatest }
{}
