//! The fairness test.
ghost use Rattle.std.specs.Prelude.{◌≡◌, ◌≤◌, ◌+◌, ◌^◌, IsTrue, length, sum_by, pos, ◌≤ℤ◌, ◌*ℤ◌};
ghost use Rattle.ice_row_laws.specs.Sizes.{IsSizedWithin};
ghost use Rattle.std.specs.List.{AllByRecursion};
ghost use Rattle.ice_fair.specs.Tested.{IsTested, numbers_of};
ghost use Rattle.ice_fair_stage.specs.Certified.{IsFairLimited};
ghost use Rattle.ice_fair.specs.Trades.{num_at, paid_by, AreNumbers, SumsAreEven};

use crate::even::{Amounts, Dens, is_even};
use crate::gaps::Paid;
use crate::held::{asked, held_paid, total};
use ice_certificate::RowSums;
use ice_pricing::Certificate;
use ice_terms::Prices;

/// Prices with their violation and the greatest gap that they leave.
#[derive(Clone, Copy)]
pub(crate) struct Priced<'a> {
    pub(crate) prices: &'a Prices,
    pub(crate) violation: i128,
    pub(crate) gap: i128,
}

/// What is asked for, at the cap.
fn at_cap(cap: i64, asked: i128) -> i128
    requires cap_low { pos 0 ≤ℤ cap }
    requires cap_high { cap ≤ℤ pos 1000000000 }
    requires low { pos 0 ≤ℤ asked }
    requires high { asked ≤ℤ pos (2 ^ 71) }
    ensures value { result ≡ cap *ℤ asked }
    ensures low { pos 0 ≤ℤ result }
    ensures high { result ≤ℤ pos (2 ^ 101) }
{
    i128::from(cap) * asked
}

/// Whether numbers, and rows with these sums, make both sides of the test the same.
fn are_even(
    paid: &Paid<'_>,
    priced: &Priced<'_>,
    den: u64,
    low: &[u64],
    high: &[u64],
    sums: &RowSums,
) -> bool
    requires numbers { AreNumbers paid.now.trade paid.now.cut paid.now.nums.now }
    requires violation { pos 0 ≤ℤ priced.now.violation }
    requires violation_high { priced.now.violation ≤ℤ pos (2 ^ 100) }
    requires gap_low { pos 0 ≤ℤ priced.now.gap }
    requires gap_high { priced.now.gap ≤ℤ pos (2 ^ 102) }
    requires den { den ≤ 2 ^ 24 }
    requires low_count { length low.now ≡ length paid.now.trade.trees }
    requires high_count { length high.now ≡ length paid.now.trade.trees }
    requires low_fits { AllByRecursion (λ n. n ≤ 2 ^ 24) low.now }
    requires high_fits { AllByRecursion (λ n. n ≤ 2 ^ 24) high.now }
    requires held { sum_by (λ n. n) low.now + sum_by (λ n. n) high.now ≤ 2 ^ 24 }
    requires worth { IsSizedWithin (2 ^ 81) sums.now.worth }
    ensures yes { let p = paid.now in let q = priced.now in IsTrue result
        → SumsAreEven p.trade p.cut p.nums.now den low.now high.now q.prices.now q.violation q.gap sums.now }
    ensures no { let p = paid.now in let q = priced.now in
        SumsAreEven p.trade p.cut p.nums.now den low.now high.now q.prices.now q.violation q.gap sums.now
        → IsTrue result }
{
    let trade = &paid.trade;
    let dens = Dens {
        cut: i128::from(paid.cut),
        prices: i128::from(priced.prices.den()),
        certificate: i128::from(den),
    };
    let amounts = Amounts {
        cost: at_cap(trade.cap(), asked(trade, low, high, sums)),
        violation: priced.violation,
        weight: i128::from(sums.weight()),
        paid: held_paid(low, high, paid.nums),
        worth: sums.worth(),
        gap: priced.gap,
    };
    is_even(dens, amounts)
}

/// Whether two lists of numbers and the rows of a certificate pass the test, where no bidder's gap
/// is greater than this one.
pub(crate) fn passes(
    paid: &Paid<'_>,
    priced: &Priced<'_>,
    certificate: &Certificate,
    low: &[u64],
    high: &[u64],
) -> bool
    requires numbers { AreNumbers paid.now.trade paid.now.cut paid.now.nums.now }
    requires violation { pos 0 ≤ℤ priced.now.violation }
    requires violation_high { priced.now.violation ≤ℤ pos (2 ^ 100) }
    requires gap_low { pos 0 ≤ℤ priced.now.gap }
    requires gap_high { priced.now.gap ≤ℤ pos (2 ^ 102) }
    requires limited { IsFairLimited (length paid.now.trade.trees)
        (numbers_of certificate.now low.now high.now) }
    ensures yes { let p = paid.now in let q = priced.now in IsTrue result
        → IsTested (paid_by p.trade p.cut p.nums.now) (numbers_of certificate.now low.now high.now)
        q.prices.now q.violation p.cut (num_at p.nums.now) q.gap }
    ensures no { let p = paid.now in let q = priced.now in
        IsTested (paid_by p.trade p.cut p.nums.now) (numbers_of certificate.now low.now high.now)
        q.prices.now q.violation p.cut (num_at p.nums.now) q.gap → IsTrue result }
{
    let _bidders = paid.trade.bidders();
    if total(low) + total(high) > i128::from(certificate.den) {
        return false;
    }
    match certificate.sums(&paid.trade) {
        Some(sums) => {
            let _worth = sums.worth();
            are_even(paid, priced, certificate.den, low, high, &sums)
        }
        None => false,
    }
}
