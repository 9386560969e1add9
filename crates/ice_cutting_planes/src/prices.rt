//! Prices by cutting planes.
ghost use Rattle.ice_cutting_planes.specs.Works.{IsMoreWork};

use crate::asked::Asked;
use crate::dictionary::{Dictionary, Point};
use crate::equation::Variable;
use crate::numbers::{divisor_of, product, quotient};
use crate::rounding::Rounding;
use crate::stage::CutSearch;
use crate::violation::Violation;
use crate::work::{GivenUp, Work};
use ice_pricing::{Certificate, Pricing, Provisional};
use ice_terms::Prices;
use std::alloc::Global;

/// The dictionary of the second stage, with the cuts whose multipliers stand on the left at the end
/// of the first.
fn second_dictionary(
    alloc: Global,
    goods: u8,
    violation: &Violation,
    first: &Dictionary,
) -> Result<Dictionary, GivenUp> {
    let mut second = Dictionary::balance(alloc, goods, violation)?;
    for equation in &first.left {
        if let Variable::Cut(number) = equation.variable {
            if let Some(cut) = first.cuts.get(number) {
                let _is_added = second.add(alloc, cut.copy())?;
            }
        }
    }
    Ok(second)
}

/// Rounds prices whose denominator is too long.
fn round_to_fit(
    found: &mut Rounding,
    search: &mut CutSearch<'_>,
    work: &mut Work,
) -> Result<(), GivenUp>
    ensures { IsMoreWork work.old work.new }
{
    if found.fits()? {
        return Ok(());
    }
    work.is_rounded = true;
    found.round_all(search)
}

/// Prices in hundredths as prices in whole units.
fn whole_prices(alloc: Global, found: &Rounding) -> Result<Prices, GivenUp> {
    let whole = product(found.den, 100)?;
    let shared = divisor_of(whole, &found.nums);
    let den = i64::try_from(quotient(whole, shared)).map_err(|_| GivenUp::Long)?;
    let nums: Vec<i128> = found
        .nums
        .iter()
        .map(|num| quotient(*num, shared))
        .collect(alloc)?;
    Prices::new(den, &nums).ok_or(GivenUp::Long)
}

/// Runs a stage, and makes the certificate of its end.
pub(crate) fn run_whole_stage(
    search: &mut CutSearch<'_>,
    dictionary: &mut Dictionary,
    work: &mut Work,
) -> Result<(Point, Certificate), GivenUp>
    ensures { IsMoreWork work.old work.new }
{
    let point = search.run_stage(dictionary, work)?;
    let certificate = dictionary.certificate(search.alloc)?;
    Ok((point, certificate))
}

/// The prices of the point at which a stage ended, rounded where their denominator is too long, to
/// prices up to `top`.
pub(crate) fn prices_at(
    point: Point,
    top: i128,
    search: &mut CutSearch<'_>,
    asked: &Asked,
    work: &mut Work,
) -> Result<Prices, GivenUp>
    ensures { IsMoreWork work.old work.new }
{
    let mut found = Rounding::of(point, top, search, asked)?;
    round_to_fit(&mut found, search, work)?;
    whole_prices(search.alloc, &found)
}

/// Looks for prices of a provisional trade that are accurate and then balanced, with their
/// violation and certificates.
///
/// What it finds isn't promised to be so, nor to be within the limits of prices and certificates.
/// It gives up with `Wide` where a number doesn't fit; with `Spent` where a stage has more than 400
/// columns or takes more than 400 turns, where `work` has 5,000 pivots and one more is to be taken,
/// and where nothing bounds an entering variable; with `Long` where a denominator or a weight is
/// above 2^32; and with `NoMemory` at any time. What it does is added to `work`, in which no count
/// falls.
pub fn cut_prices(
    alloc: Global,
    trade: &Provisional<'_>,
    work: &mut Work,
) -> Result<Pricing, GivenUp>
    ensures { IsMoreWork work.old work.new }
{
    let goods = trade.goods();
    let mut search = CutSearch::new(alloc, trade, None);
    let mut first = Dictionary::accuracy(alloc, goods, trade.cap())?;
    let (point, accuracy) = run_whole_stage(&mut search, &mut first, work)?;
    let violation = Violation::at(&point);
    let mut second = second_dictionary(alloc, goods, &violation, &first)?;
    let (point, balance) = run_whole_stage(&mut search, &mut second, work)?;
    let top = point.last();
    let prices = prices_at(point, top, &mut search, &second.asked, work)?;
    let delta = violation.over(i128::from(prices.den()))?;
    Ok(Pricing {
        prices,
        delta,
        accuracy,
        balance,
    })
}
