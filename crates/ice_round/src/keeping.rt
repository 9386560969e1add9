//! What is kept of a bidder that is done.
ghost use Rattle.std.specs.Prelude.{◌≡◌, ◌∷◌, ◌++◌, [], length, IfOk, OnErr};

use ice_tree::{Assignment, Tree};
use ice_vickrey::Marginal;
use std::alloc::{AllocError, Global};

/// Keeps what later steps of a settlement read of what a market is worth without a bidder: the
/// sets, as a hint for later searches, and the discount. The log isn't kept.
pub(crate) fn keep(
    alloc: Global,
    trees: &[Tree],
    marginal: &Marginal,
    witnesses: &mut Vec<Assignment>,
    discounts: &mut Vec<i128>,
) -> Result<(), AllocError>
    requires { length marginal.now.witness ≡ length trees.now }
    ensures witness { IfOk result (λ _. witnesses.new.items
        ≡ witnesses.old.items ++ marginal.now.witness ∷ []) }
    ensures discount { IfOk result (λ _. discounts.new.items
        ≡ discounts.old.items ++ marginal.now.discount ∷ []) }
    ensures as_they_were { OnErr result (discounts.new.items ≡ discounts.old.items) }
{
    let mut witness = Assignment::empty(alloc, trees)?;
    witness.copy_from(&marginal.witness);
    witnesses.push(witness)?;
    discounts.push(marginal.discount)?;
    Ok(())
}
