//! The certificate of the fairness stage: its duals as numbers of the bidders and weights of the
//! pool's sets.
ghost use Rattle.std.specs.Prelude.{◌≡◌, ◌≤◌, ◌+◌, ◌*◌, ◌++◌, ◌^◌, length, IfOk, IfErr, pos, ◌≤ℤ◌};
ghost use Rattle.std.specs.List.{AllByRecursion};
ghost use Rattle.ice_defs.specs.Program.{AreNonNegative};
ghost use Rattle.ice_defs.specs.PricingRun.{common_den, num_over};
ghost use Rattle.ice_pricing_laws.specs.Weights.{weights_of_duals};
ghost use Rattle.ice_fair_stage.specs.Certified.{lows_of, highs_of, weights_at, IsCertificate};
ghost use Rattle.ice_turns.specs.Large.{AreFitting, AreLarge, IsStoppedBy};

use crate::certificate::FairCertificate;
use crate::stage::Stage;
use ice_defs::LimitKind;
use ice_frac::Frac;
use ice_pricing::{Certificate, Provisional};
use ice_turns::{PoolMember, Stop, common_den, member_rows, numerators, weights_of};
use std::alloc::{AllocError, Global};

/// The greatest denominator of a certificate of fair prices, and the greatest number of a bidder or
/// weight of a row.
pub const GREATEST_FAIR_NUMBER: u64 = 16_777_216;

/// For each bidder two numbers.
#[derive(Drop)]
struct Holds {
    low: Vec<u64>,
    high: Vec<u64>,
}

/// The bidders' numbers, which stand in pairs.
fn holds_of(alloc: Global, numbers: &[u64], bidders: u8) -> Result<Holds, AllocError>
    requires { length numbers.now ≡ 2 * bidders }
    ensures low { IfOk result (λ made. made.low.items ≡ lows_of bidders numbers.now) }
    ensures high { IfOk result (λ made. made.high.items ≡ highs_of bidders numbers.now) }
{
    let mut low = Vec::new(alloc);
    let mut high = Vec::new(alloc);
    for bidder in 0..bidders {
        let place = 2 * usize::from(bidder);
        low.push(numbers[place])?;
        high.push(numbers[place + 1])?;
    }
    Ok(Holds { low, high })
}

/// The weights that the duals of the bidders' rows make, times the cut's denominator, and behind
/// them those of the members' rows, times that of accurate prices. It stops where one of them by
/// itself is too large.
fn all_weights(
    alloc: Global,
    cut: u16,
    den: u64,
    own: &[Frac],
    members: &[Frac],
) -> Result<Vec<Frac>, Stop>
    requires den { den ≤ 2 ^ 32 }
    requires own { AreNonNegative own.now }
    requires members { AreNonNegative members.now }
    ensures value { IfOk result (λ made. made.items
        ≡ weights_of_duals cut own.now ++ weights_of_duals den members.now) }
    ensures fits { IfOk result (λ made. AllByRecursion (AreFitting (2 ^ 24)) made.items) }
    ensures stopped { let ws = weights_of_duals cut own.now ++ weights_of_duals den members.now in
        IfErr result (IsStoppedBy (AreLarge (2 ^ 24) ws)) }
{
    let mut made = weights_of(alloc, u64::from(cut), own, GREATEST_FAIR_NUMBER)?;
    let later = weights_of(alloc, den, members, GREATEST_FAIR_NUMBER)?;
    made.extend_from_slice(&later)?;
    Ok(made)
}

/// The certificate that weights make, two a bidder and then one a member of the pool. It stops
/// where their least common denominator, or one of them over it, is above 2^24.
fn made_of(
    alloc: Global,
    bidders: u8,
    pool: &[PoolMember],
    weights: &[Frac],
) -> Result<FairCertificate, Stop>
    requires pool { length pool.now ≤ 200 }
    requires same_length { length weights.now ≡ 2 * bidders + length pool.now }
    requires fits { AllByRecursion (AreFitting (2 ^ 24)) weights.now }
    requires low { AllByRecursion (λ w. pos 0 ≤ℤ num_over (common_den weights.now) w) weights.now }
    ensures value { IfOk result (IsCertificate bidders pool.now weights.now) }
    ensures stopped { IfErr result (IsStoppedBy (AreLarge (2 ^ 24) weights.now)) }
{
    let den = match common_den(weights, GREATEST_FAIR_NUMBER) {
        Some(den) => den,
        None => return Err(Stop::AtLimit(LimitKind::Den)),
    };
    let numbers = numerators(alloc, weights, den, GREATEST_FAIR_NUMBER)?;
    let (own, members) = numbers.split_at(2 * usize::from(bidders));
    let Holds { low, high } = holds_of(alloc, own, bidders)?;
    let rows = member_rows(alloc, pool, members)?;
    Ok(FairCertificate {
        certificate: Certificate { den, rows },
        low,
        high,
    })
}

/// The certificate that the duals of the stage's program make. It stops where its denominator, a
/// number of a bidder or a weight is above 2^24.
pub(crate) fn certified(
    alloc: Global,
    trade: &Provisional<'_>,
    at: &Stage<'_>,
    pool: &[PoolMember],
    duals: &[Frac],
) -> Result<FairCertificate, Stop>
    requires pool { length pool.now ≤ 200 }
    requires den { at.now.den ≤ 2 ^ 32 }
    requires same_length { let t = trade.now in
        length duals.now ≡ t.goods + (2 * length t.trees + length pool.now) }
    requires low { AreNonNegative duals.now }
    ensures value { let ws = weights_at trade.now at.now duals.now in
        IfOk result (IsCertificate (length trade.now.trees) pool.now ws) }
    ensures stopped { let ws = weights_at trade.now at.now duals.now in
        IfErr result (IsStoppedBy (AreLarge (2 ^ 24) ws)) }
{
    let bidders = trade.bidders();
    let (_goods, later) = duals.split_at(usize::from(trade.goods()));
    let (own, members) = later.split_at(2 * usize::from(bidders));
    let weights = all_weights(alloc, at.cut, at.den, own, members)?;
    made_of(alloc, bidders, pool, &weights)
}
