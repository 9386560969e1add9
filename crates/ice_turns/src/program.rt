//! Rows and numbers of the programs of stages: a column a good, and one more.
ghost use Rattle.std.specs.Prelude.{◌≡◌, ◌<◌, ◌≤◌, ◌+◌, ◌*◌, ◌^◌, suc, replicate, vec_len, length, All, IfOk, pos, neg_ℤ, ◌≤ℤ◌, ◌-ℤ◌, ◌*ℤ◌};
ghost use Rattle.ice_defs.specs.Trade.{tree_of};
ghost use Rattle.ice_defs.specs.PricingRun.{only_at, units_above};
ghost use Rattle.ice_lp.specs.Limits.{IsNumber};

use crate::pool::PoolMember;
use ice_certificate::units_above;
use ice_pricing::Provisional;
use std::alloc::{AllocError, Global};

/// A 0 for each price, and one more.
pub fn zeros(alloc: Global, goods: u8) -> Result<Vec<i128>, AllocError>
    ensures value { IfOk result (λ made. made.items ≡ replicate (suc goods) (pos 0)) }
    ensures len { IfOk result (λ made. vec_len made ≡ goods + 1) }
    ensures sized { IfOk result (λ made. All IsNumber made.items) }
{
    vec![in alloc; 0i128; usize::from(goods) + 1]
}

/// A 0 for each price, and then 1: the costs of a stage's program.
pub fn last_alone(alloc: Global, goods: u8) -> Result<Vec<i128>, AllocError>
    ensures value { IfOk result (λ made. made.items ≡ only_at (suc goods) goods (pos 1)) }
    ensures len { IfOk result (λ made. vec_len made ≡ goods + 1) }
    ensures sized { IfOk result (λ made. All IsNumber made.items) }
    ensures low { IfOk result (λ made. All (λ c. pos 0 ≤ℤ c) made.items) }
{
    let mut made = zeros(alloc, goods)?;
    made[usize::from(goods)] = 1;
    Ok(made)
}

/// A factor by a number of units.
pub fn times_units(factor: i128, units: i128) -> i128
    requires factor_low { neg_ℤ (pos (100 * 2 ^ 32)) ≤ℤ factor }
    requires factor_high { factor ≤ℤ pos (100 * 2 ^ 32) }
    requires low { neg_ℤ (pos (2 ^ 19)) ≤ℤ units }
    requires high { units ≤ℤ pos (2 ^ 19) }
    ensures value { result ≡ factor *ℤ units }
    ensures sized { IsNumber result }
{
    factor * units
}

/// The units of a member above those of the bidder's own set, good by good, times a factor.
pub fn member_units(
    alloc: Global,
    trade: &Provisional<'_>,
    factor: u64,
    member: &PoolMember,
) -> Result<Vec<i128>, AllocError>
    requires few { factor ≤ 100 * 2 ^ 32 }
    requires bidder { member.now.bidder < length trade.now.trees }
    requires nodes { length member.now.set ≡ length (tree_of trade.now.trees member.now.bidder) }
    ensures value { let t = trade.now in IfOk result (λ made. made.items
        ≡ units_above t.trees t.weights t.sets t.goods t.cap (pos factor) member.now) }
    ensures len { IfOk result (λ made. vec_len made ≡ trade.now.goods) }
    ensures sized { IfOk result (λ made. All IsNumber made.items) }
{
    let tree = trade.tree(member.bidder);
    let units = tree.units(&member.set);
    let own = tree.units(trade.own(member.bidder));
    let mut made = Vec::new(alloc);
    for good in 0..trade.goods() {
        let more = units_above(&units, &own, good);
        made.push(times_units(i128::from(factor), more))?;
    }
    Ok(made)
}

/// A number by a denominator, less another: the least of the row of a member of that worth, where
/// no excess may be above the other over the denominator.
pub fn least_above(den: u64, number: i128, less: i128) -> i128
    requires den { den ≤ 2 ^ 32 }
    requires low { neg_ℤ (pos (2 ^ 49)) ≤ℤ number }
    requires high { number ≤ℤ pos (2 ^ 49) }
    requires less_low { pos 0 ≤ℤ less }
    requires less_high { less ≤ℤ pos (2 ^ 81) }
    ensures value { result ≡ (pos den *ℤ number) -ℤ less }
    ensures low { neg_ℤ (pos (2 ^ 82)) ≤ℤ result }
    ensures high { result ≤ℤ pos (2 ^ 82) }
{
    i128::from(den) * number - less
}
