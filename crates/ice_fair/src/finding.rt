//! Fair prices of the last settlement of a closed session.
ghost use Rattle.std.specs.Prelude.{◌≡◌, length, IfOk, IfErr, IfSome, IsTrue};
ghost use Rattle.ice_fair.specs.Ends.{IsFairEnd, IsStageStop};
ghost use Rattle.ice_fair.specs.Found.{IsFairFound, IsFoundWith, fair_at, fair_with};
ghost use Rattle.ice_fair.specs.Lasts.{trade_of};
ghost use Rattle.ice_price.specs.Ends.{IsPriced};
ghost use Rattle.ice_pricing.specs.Priced.{IsLimited};

use crate::answer::Fair;
use crate::check::{are_accurate, are_nearest};
use crate::ends::FairEnd;
use crate::gaps::{Paid, distance_of};
use crate::last::Last;
use crate::limits::is_fair_limited;
use ice_cutting_planes::{GivenUp, Nearest, Work, nearest_prices};
use ice_fair_stage::{FairCertificate, FairStageEnd, FairStop, run_fair_stage};
use ice_frac::Frac;
use ice_price::{Certificate, CertificateRow, PriceEnd, Pricing, RunWork};
use ice_pricing::Scratch;
use ice_terms::Prices;
use std::alloc::{AllocError, Global};

/// Prices that may be fair, and what may show it.
#[derive(Drop)]
struct Candidate {
    prices: Prices,
    delta: i128,
    distance: Frac,
    certificate: FairCertificate,
}

/// What cutting planes find from a pricing, if anything. Nothing is promised of it.
fn sought(alloc: Global, last: &Last, pricing: &Pricing) -> Result<Option<Nearest>, AllocError> {
    let trade = last.trade();
    let mut work = Work::none();
    match nearest_prices(alloc, &trade, last.nums(), last.cut(), pricing, &mut work) {
        Ok(nearest) => Ok(Some(nearest)),
        Err(GivenUp::NoMemory) => Err(AllocError),
        Err(_) => Ok(None),
    }
}

/// These prices with their distance, where there is one price a good.
fn with_distance(last: &Last, nearest: Nearest) -> Option<Candidate>
    ensures { IfSome result (λ found. length found.prices.nums ≡ last.now.paid.goods) }
{
    let Nearest {
        prices,
        delta,
        certificate,
        low,
        high,
    } = nearest;
    let paid = Paid {
        trade: last.trade(),
        nums: last.nums(),
        cut: last.cut(),
    };
    if prices.goods() != paid.trade.goods() {
        return None;
    }
    let distance = distance_of(&paid, &prices);
    Some(Candidate {
        prices,
        delta,
        distance,
        certificate: FairCertificate {
            certificate,
            low,
            high,
        },
    })
}

impl Candidate {
    /// Whether it passes all tests with this certificate of accuracy.
    fn passes(&self, last: &Last, accuracy: &Certificate) -> bool
        requires goods { length self.now.prices.nums ≡ last.now.paid.goods }
        requires accuracy { IsLimited accuracy.now }
        ensures { IsTrue result → IsFoundWith last.now accuracy.now self.now }
    {
        let trade = last.trade();
        if !is_fair_limited(&self.certificate, trade.bidders()) {
            return false;
        }
        let mut scratch = Scratch::new();
        if !are_accurate(&trade, &self.prices, self.delta, accuracy, &mut scratch) {
            return false;
        }
        are_nearest(
            last,
            &self.prices,
            self.delta,
            &self.distance,
            &self.certificate,
        )
    }

    /// Fair prices with this certificate of accuracy.
    fn with(self, accuracy: Certificate) -> Fair
        ensures { result ≡ fair_with self accuracy }
    {
        Fair {
            prices: self.prices,
            delta: self.delta,
            accuracy,
            distance: self.distance,
            certificate: self.certificate,
        }
    }
}

/// The same certificate once more.
fn copy_of(alloc: Global, certificate: &Certificate) -> Result<Certificate, AllocError>
    ensures { IfOk result (λ made. made ≡ certificate.now) }
{
    let mut rows = Vec::new(alloc);
    for row in &certificate.rows {
        rows.push(CertificateRow {
            bidder: row.bidder,
            weight: row.weight,
            set: row.set,
        })?;
    }
    Ok(Certificate {
        den: certificate.den,
        rows,
    })
}

/// Fair prices by cutting planes, but for their certificate of accuracy, which is that of the
/// pricing. None where they find none that pass all tests.
fn quick(alloc: Global, last: &Last, pricing: &Pricing) -> Result<Option<Candidate>, AllocError>
    requires { IsPriced (trade_of last.now.paid) pricing.now }
    ensures { IfOk result (λ found. IfSome found (IsFoundWith last.now pricing.now.accuracy)) }
{
    let Some(nearest) = sought(alloc, last, pricing)? else {
        return Ok(None);
    };
    match with_distance(last, nearest) {
        Some(found) if found.passes(last, &pricing.accuracy) => Ok(Some(found)),
        _ => Ok(None),
    }
}

/// The prices that the stage ends with, and this certificate of accuracy.
fn fair_of(end: FairStageEnd, accuracy: Certificate) -> Fair
    ensures { result ≡ fair_at end accuracy }
{
    Fair {
        prices: end.prices,
        delta: end.violation,
        accuracy,
        distance: end.distance,
        certificate: end.certificate,
    }
}

/// The end of a search whose stage stopped so.
fn end_of(stop: FairStop, last: &Last) -> FairEnd
    requires { IsStageStop last.now stop }
    ensures { IsFairEnd last.now result }
{
    let _cut = last.cut();
    match stop {
        FairStop::Limit(limit) => FairEnd::Limit(limit),
        FairStop::NoMemory => FairEnd::NoMemory,
    }
}

/// Fair prices by the stated run of the fairness stage.
fn stated(alloc: Global, last: &Last, pricing: &Pricing) -> Result<Fair, FairEnd>
    requires { IsPriced (trade_of last.now.paid) pricing.now }
    ensures fair { IfOk result (IsFairFound last.now) }
    ensures ended { IfErr result (IsFairEnd last.now) }
{
    let trade = last.trade();
    let den = pricing.prices.den() as u64;
    let accuracy = copy_of(alloc, &pricing.accuracy)?;
    let mut work = RunWork::none();
    let run = run_fair_stage(
        alloc,
        &trade,
        last.payments(),
        last.cut(),
        pricing.delta,
        den,
        &mut work,
    );
    match run {
        Ok(end) => Ok(fair_of(end, accuracy)),
        Err(stop) => Err(end_of(stop, last)),
    }
}

/// Fair prices for the last settlement of a closed session: accurate ones for the final sets at low
/// bounds, and none of these come nearer to what the bidders pay. The distance is the greatest size
/// of a bidder's payment less what its set costs.
///
/// The prices are one a good, from 0 to the cap, over their least common denominator. They pass all
/// tests of `check_fair`; both certificates are within the limits that it wants.
///
/// They are sought by cutting planes first. What these find is given only where it passes all
/// tests; else the stated run of the fairness stage takes their place. `Price` comes only where
/// `price` ends at that limit, `Limit` only where the stated run ends at a limit: a program is too
/// wide or takes too many pivots, 200 sets don't suffice, the prices' denominator is above 2^32, or
/// that of the certificate or one of its numbers above 2^24. `NoMemory` comes at any time.
pub fn fair(alloc: Global, last: &Last) -> Result<Fair, FairEnd>
    ensures fair { IfOk result (IsFairFound last.now) }
    ensures ended { IfErr result (IsFairEnd last.now) }
{
    let pricing = match last.price(alloc) {
        Ok(pricing) => pricing,
        Err(PriceEnd::Limit(limit)) => return Err(FairEnd::Price(limit)),
        Err(PriceEnd::NoMemory) => return Err(FairEnd::NoMemory),
    };
    match quick(alloc, last, &pricing)? {
        Some(found) => Ok(found.with(copy_of(alloc, &pricing.accuracy)?)),
        None => stated(alloc, last, &pricing),
    }
}
