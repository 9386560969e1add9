//! The certificate of a stage: its duals as weights of the pool's sets.
ghost use Rattle.std.specs.Prelude.{◌≡◌, ◌≤◌, ◌*◌, ◌^◌, length, IfOk, IfErr};
ghost use Rattle.ice_defs.specs.Program.{AreNonNegative};
ghost use Rattle.ice_pricing_laws.specs.Weights.{weights_of_duals};
ghost use Rattle.ice_price.specs.Certified.{IsCertificate};
ghost use Rattle.ice_turns.specs.Large.{AreLarge, IsStoppedBy};

use ice_defs::LimitKind;
use ice_frac::Frac;
use ice_pricing::{Certificate, GREATEST_WEIGHT};
use ice_turns::{PoolMember, Stop, common_den, member_rows, numerators, weights_of};
use std::alloc::Global;

/// The certificate that the duals of a pool's members make, times a factor. It stops where the
/// denominator or a weight is above 2^32.
pub(crate) fn certified(
    alloc: Global,
    factor: u64,
    pool: &[PoolMember],
    duals: &[Frac],
) -> Result<Certificate, Stop>
    requires few { factor ≤ 100 * 2 ^ 32 }
    requires pool { length pool.now ≤ 200 }
    requires same_length { length duals.now ≡ length pool.now }
    requires low { AreNonNegative duals.now }
    ensures value { IfOk result (λ made.
        IsCertificate pool.now (weights_of_duals factor duals.now) made) }
    ensures stopped { let ws = weights_of_duals factor duals.now in
        IfErr result (IsStoppedBy (AreLarge (2 ^ 32) ws)) }
{
    let weights = weights_of(alloc, factor, duals, GREATEST_WEIGHT)?;
    let den = match common_den(&weights, GREATEST_WEIGHT) {
        Some(den) => den,
        None => return Err(Stop::AtLimit(LimitKind::Den)),
    };
    let numbers = numerators(alloc, &weights, den, GREATEST_WEIGHT)?;
    let rows = member_rows(alloc, pool, &numbers)?;
    Ok(Certificate { den, rows })
}
