//! True values with their bounds.
ghost use Rattle.std.specs.Prelude.{◌≡◌, pos, neg_ℤ, ◌+ℤ◌, ◌-ℤ◌};
ghost use Rattle.ice_defs.specs.Exchange.{IsBetween};
ghost use Rattle.ice_gen.specs.Generated.{advanced};
ghost use Rattle.ice_gen.specs.Drawing.{drawn};

use crate::random::Generator;

/// The true value of a node, and how far below and above it the bounds are.
#[derive(Clone, Copy, Default)]
pub(crate) struct Valued {
    pub(crate) truth: i64,
    pub(crate) below: u8,
    pub(crate) above: u8,
}

/// What a node is worth that has no value of its own.
pub(crate) const NO_VALUE: Valued = Valued {
    truth: 0,
    below: 0,
    above: 0,
};

/// This true value, with the distances that are drawn: first the one below, and then the one above.
pub(crate) fn with_distances(truth: i64, generator: &mut Generator) -> Valued
    ensures truth { result.truth ≡ truth }
    ensures below { result.below ≡ drawn generator.old 10 }
    ensures above { result.above ≡ drawn (advanced generator.old) 10 }
    ensures state { generator.new ≡ advanced (advanced generator.old) }
{
    let below = generator.draw(10);
    let above = generator.draw(10);
    Valued {
        truth,
        below,
        above,
    }
}

/// The lower value.
pub(crate) fn lower(value: Valued) -> i64
    requires { IsBetween (neg_ℤ (pos 1000)) (pos 1000) value.truth }
    ensures { result ≡ value.truth -ℤ pos value.below }
{
    value.truth - i64::from(value.below)
}

/// The upper value.
pub(crate) fn upper(value: Valued) -> i64
    requires { IsBetween (neg_ℤ (pos 1000)) (pos 1000) value.truth }
    ensures { result ≡ value.truth +ℤ pos value.above }
{
    value.truth + i64::from(value.above)
}
