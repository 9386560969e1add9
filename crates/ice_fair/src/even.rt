//! Whether the two sides of the fairness test are even.
ghost use Rattle.std.specs.Prelude.{◌≡◌, ◌^◌, ◌*◌, IsTrue, IfSome, IfNone, pos, neg_ℤ, ◌≤ℤ◌, ◌+ℤ◌, ◌-ℤ◌, ◌*ℤ◌};
ghost use Rattle.ice_fair.specs.Sides.{AreEven};

/// The product of two numbers that aren't below 0. None exactly where it is too large.
fn times(one: i128, other: i128) -> Option<i128>
    requires one { pos 0 ≤ℤ one }
    requires other { pos 0 ≤ℤ other }
    ensures some { IfSome result (λ product. product ≡ one *ℤ other) }
    ensures low { IfSome result (λ product. pos 0 ≤ℤ product) }
    ensures none { IfNone result (pos (2 ^ 127) ≤ℤ (one *ℤ other)) }
{
    one.checked_mul(other)
}

/// The sum of two numbers that aren't below 0. None exactly where it is too large.
fn plus(one: i128, other: i128) -> Option<i128>
    requires one { pos 0 ≤ℤ one }
    requires other { pos 0 ≤ℤ other }
    ensures some { IfSome result (λ sum. sum ≡ one +ℤ other) }
    ensures none { IfNone result (pos (2 ^ 127) ≤ℤ (one +ℤ other)) }
{
    one.checked_add(other)
}

/// What is asked for, times both denominators.
fn asked_part(cut: i128, den: i128, cost: i128) -> Option<i128>
    requires cut { pos 1 ≤ℤ cut }
    requires den { pos 0 ≤ℤ den }
    requires cost { pos 0 ≤ℤ cost }
    ensures some { IfSome result (λ part. part ≡ cut *ℤ (den *ℤ cost)) }
    ensures low { IfSome result (λ part. pos 0 ≤ℤ part) }
    ensures none { IfNone result (pos (2 ^ 127) ≤ℤ (cut *ℤ (den *ℤ cost))) }
{
    times(cut, times(den, cost)?)
}

/// The side of the test that is never below 0: what is asked for at the cap, and what the rows
/// weigh at the violation, both times both denominators. None exactly where it is too large.
fn left(cut: i128, den: i128, cost: i128, violation: i128, weight: i128) -> Option<i128>
    requires cut { pos 1 ≤ℤ cut }
    requires den { pos 0 ≤ℤ den }
    requires cost { pos 0 ≤ℤ cost }
    requires violation { pos 0 ≤ℤ violation }
    requires weight { pos 0 ≤ℤ weight }
    ensures some { IfSome result
        (λ sum. sum ≡ (cut *ℤ (den *ℤ cost)) +ℤ (cut *ℤ (violation *ℤ weight))) }
    ensures none { IfNone result
        (pos (2 ^ 127) ≤ℤ ((cut *ℤ (den *ℤ cost)) +ℤ (cut *ℤ (violation *ℤ weight)))) }
{
    plus(
        asked_part(cut, den, cost)?,
        asked_part(cut, violation, weight)?,
    )
}

/// A denominator times what is paid.
fn den_paid(den: i128, paid: i128) -> i128
    requires den_low { pos 0 ≤ℤ den }
    requires den_high { den ≤ℤ pos (2 ^ 32) }
    requires low { neg_ℤ (pos (2 ^ 24 * 10 ^ 21)) ≤ℤ paid }
    requires high { paid ≤ℤ pos (2 ^ 24 * 10 ^ 21) }
    ensures value { result ≡ den *ℤ paid }
    ensures low { neg_ℤ (pos (2 ^ 56 * 10 ^ 21)) ≤ℤ result }
    ensures high { result ≤ℤ pos (2 ^ 56 * 10 ^ 21) }
{
    den * paid
}

/// A denominator times what rows are worth.
fn den_worth(den: i128, worth: i128) -> i128
    requires den_low { pos 0 ≤ℤ den }
    requires den_high { den ≤ℤ pos (2 ^ 32) }
    requires low { neg_ℤ (pos (2 ^ 81)) ≤ℤ worth }
    requires high { worth ≤ℤ pos (2 ^ 81) }
    ensures value { result ≡ den *ℤ worth }
    ensures low { neg_ℤ (pos (2 ^ 113)) ≤ℤ result }
    ensures high { result ≤ℤ pos (2 ^ 113) }
{
    den * worth
}

/// The other denominator times that.
fn cut_worth(cut: i128, worth: i128) -> i128
    requires cut_low { pos 1 ≤ℤ cut }
    requires cut_high { cut ≤ℤ pos 1000 }
    requires low { neg_ℤ (pos (2 ^ 113)) ≤ℤ worth }
    requires high { worth ≤ℤ pos (2 ^ 113) }
    ensures value { result ≡ cut *ℤ worth }
    ensures low { neg_ℤ (pos (2 ^ 123)) ≤ℤ result }
    ensures high { result ≤ℤ pos (2 ^ 123) }
{
    cut * worth
}

/// A certificate's denominator times a gap.
fn cert_gap(cert_den: i128, gap: i128) -> i128
    requires den_low { pos 0 ≤ℤ cert_den }
    requires den_high { cert_den ≤ℤ pos (2 ^ 24) }
    requires low { pos 0 ≤ℤ gap }
    requires high { gap ≤ℤ pos (2 ^ 102) }
    ensures value { result ≡ cert_den *ℤ gap }
    ensures low { pos 0 ≤ℤ result }
    ensures high { result ≤ℤ pos (2 ^ 126) }
{
    cert_den * gap
}

/// A sum.
fn sum(one: i128, other: i128) -> i128
    requires one_low { neg_ℤ (pos (2 ^ 56 * 10 ^ 21)) ≤ℤ one }
    requires one_high { one ≤ℤ pos (2 ^ 56 * 10 ^ 21) }
    requires low { neg_ℤ (pos (2 ^ 123)) ≤ℤ other }
    requires high { other ≤ℤ pos (2 ^ 123) }
    ensures value { result ≡ one +ℤ other }
    ensures low { neg_ℤ (pos (2 ^ 126)) ≤ℤ result }
    ensures high { result ≤ℤ pos (2 ^ 126) }
{
    one + other
}

/// A difference.
fn less(one: i128, other: i128) -> i128
    requires one_low { neg_ℤ (pos (2 ^ 126)) ≤ℤ one }
    requires one_high { one ≤ℤ pos (2 ^ 126) }
    requires low { pos 0 ≤ℤ other }
    requires high { other ≤ℤ pos (2 ^ 126) }
    ensures value { result ≡ one -ℤ other }
    ensures low { neg_ℤ (pos (2 ^ 127)) ≤ℤ result }
    ensures high { result ≤ℤ pos (2 ^ 126) }
{
    one - other
}

/// The denominators of both sides.
#[derive(Clone, Copy)]
pub(crate) struct Dens {
    /// Of the payments.
    pub(crate) cut: i128,
    /// Of the prices.
    pub(crate) prices: i128,
    /// Of the certificate.
    pub(crate) certificate: i128,
}

/// What is compared, over these denominators.
#[derive(Clone, Copy)]
pub(crate) struct Amounts {
    /// What is asked for, at the cap.
    pub(crate) cost: i128,
    /// The violation.
    pub(crate) violation: i128,
    /// The weight of all rows.
    pub(crate) weight: i128,
    /// What the held numbers weigh of the payments.
    pub(crate) paid: i128,
    /// What all rows are worth.
    pub(crate) worth: i128,
    /// The greatest gap.
    pub(crate) gap: i128,
}

/// The other side of the test.
fn right(cut: i128, den: i128, paid: i128, worth: i128, cert_den: i128, gap: i128) -> i128
    requires cut_low { pos 1 ≤ℤ cut }
    requires cut_high { cut ≤ℤ pos 1000 }
    requires den_low { pos 0 ≤ℤ den }
    requires den_high { den ≤ℤ pos (2 ^ 32) }
    requires paid_low { neg_ℤ (pos (2 ^ 24 * 10 ^ 21)) ≤ℤ paid }
    requires paid_high { paid ≤ℤ pos (2 ^ 24 * 10 ^ 21) }
    requires worth_low { neg_ℤ (pos (2 ^ 81)) ≤ℤ worth }
    requires worth_high { worth ≤ℤ pos (2 ^ 81) }
    requires cert_low { pos 0 ≤ℤ cert_den }
    requires cert_high { cert_den ≤ℤ pos (2 ^ 24) }
    requires gap_low { pos 0 ≤ℤ gap }
    requires gap_high { gap ≤ℤ pos (2 ^ 102) }
    ensures value { result ≡ ((den *ℤ paid) +ℤ (cut *ℤ (den *ℤ worth))) -ℤ (cert_den *ℤ gap) }
    ensures low { neg_ℤ (pos (2 ^ 127)) ≤ℤ result }
    ensures high { result ≤ℤ pos (2 ^ 126) }
{
    less(
        sum(den_paid(den, paid), cut_worth(cut, den_worth(den, worth))),
        cert_gap(cert_den, gap),
    )
}

/// Whether both sides of the test are the same.
pub(crate) fn is_even(dens: Dens, amounts: Amounts) -> bool
    requires cut_low { pos 1 ≤ℤ dens.cut }
    requires cut_high { dens.cut ≤ℤ pos 1000 }
    requires den_low { pos 0 ≤ℤ dens.prices }
    requires den_high { dens.prices ≤ℤ pos (2 ^ 32) }
    requires cost { pos 0 ≤ℤ amounts.cost }
    requires violation { pos 0 ≤ℤ amounts.violation }
    requires weight { pos 0 ≤ℤ amounts.weight }
    requires paid_low { neg_ℤ (pos (2 ^ 24 * 10 ^ 21)) ≤ℤ amounts.paid }
    requires paid_high { amounts.paid ≤ℤ pos (2 ^ 24 * 10 ^ 21) }
    requires worth_low { neg_ℤ (pos (2 ^ 81)) ≤ℤ amounts.worth }
    requires worth_high { amounts.worth ≤ℤ pos (2 ^ 81) }
    requires cert_low { pos 0 ≤ℤ dens.certificate }
    requires cert_high { dens.certificate ≤ℤ pos (2 ^ 24) }
    requires gap_low { pos 0 ≤ℤ amounts.gap }
    requires gap_high { amounts.gap ≤ℤ pos (2 ^ 102) }
    ensures yes { IsTrue result → AreEven dens amounts }
    ensures no { AreEven dens amounts → IsTrue result }
{
    let other = right(
        dens.cut,
        dens.prices,
        amounts.paid,
        amounts.worth,
        dens.certificate,
        amounts.gap,
    );
    match left(
        dens.cut,
        dens.prices,
        amounts.cost,
        amounts.violation,
        amounts.weight,
    ) {
        Some(sum) => sum == other,
        None => false,
    }
}
