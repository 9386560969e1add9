//! The turns of a stage.
ghost use Rattle.std.specs.Prelude.{◌<◌};
ghost use Rattle.ice_cutting_planes.specs.Works.{IsMoreWork};

use crate::cut::Cut;
use crate::dictionary::{Dictionary, Point};
use crate::gaps::{Gap, Payments};
use crate::nets::LongPrices;
use crate::numbers::product;
use crate::work::{GivenUp, MOST_COLUMNS, Work};
use ice_best::Scratch;
use ice_pricing::Provisional;
use std::alloc::{AllocError, Global};

/// The most cuts of sets that a turn adds, and the most of gaps.
const CUTS_PER_TURN: u8 = 8;

/// Where cuts are sought next, and how.
#[derive(Drop)]
pub(crate) struct CutSearch<'a> {
    pub(crate) alloc: Global,
    pub(crate) trade: &'a Provisional<'a>,
    /// What prices are to come near, if anything.
    payments: Option<Payments<'a>>,
    pub(crate) scratch: Scratch,
    /// The bidder that is asked first.
    next: u8,
}

/// By how many bits prices are cut short, so that the nets of sets stay small.
fn excess_bits(den: i128, nums: &[i128]) -> u32
    ensures { result < 128 }
{
    for bits in 0..127 {
        if den >> bits <= 1 << 52 && nums.iter().all(|num| *num >> bits <= 1 << 79) {
            return bits;
        }
    }
    127
}

/// The numbers without so many of their last bits.
fn cut_short(alloc: Global, nums: &[i128], bits: u32) -> Result<Vec<i128>, AllocError>
    requires { bits < 128 }
{
    nums.iter().map(|num| *num >> bits).collect(alloc)
}

impl<'a> CutSearch<'a> {
    /// A search that begins with the first bidder.
    pub(crate) fn new(
        alloc: Global,
        trade: &'a Provisional<'a>,
        payments: Option<Payments<'a>>,
    ) -> CutSearch<'a> {
        CutSearch {
            alloc,
            trade,
            payments,
            scratch: Scratch::new(),
            next: 0,
        }
    }

    /// The size of the greatest gap at prices, and 0 where they aren't to come near to payments.
    pub(crate) fn farthest(&self, den: i128, nums: &[i128]) -> Result<i128, GivenUp> {
        match &self.payments {
            Some(payments) => payments.farthest(self.trade, den, nums),
            None => Ok(0),
        }
    }

    /// The gaps that are greater than the last column of a point, the greatest first.
    fn wide_gaps(&self, point: &Point) -> Result<Vec<Gap>, GivenUp> {
        let mut gaps = Vec::new(self.alloc);
        if let Some(payments) = &self.payments {
            for bidder in 0..self.trade.bidders() {
                let gap = payments.gap(self.trade, bidder, point.den, &point.nums)?;
                if gap.size() > point.last() {
                    gaps.push(gap)?;
                }
            }
        }
        gaps.sort_unstable_by_key(|gap| (gap.size().wrapping_neg(), gap.bidder));
        Ok(gaps)
    }

    /// Adds the greatest gaps at a point as cuts, where the point doesn't meet them, and says
    /// whether there was one.
    fn add_gaps(&mut self, dictionary: &mut Dictionary, point: &Point) -> Result<bool, GivenUp> {
        let gaps = self.wide_gaps(point)?;
        let mut is_added = false;
        for gap in gaps.iter().take(usize::from(CUTS_PER_TURN)) {
            let Some(cut) = Cut::of_gap(self.trade, gap) else {
                continue;
            };
            if dictionary.add(self.alloc, cut)? {
                is_added = true;
            }
        }
        Ok(is_added)
    }

    /// Adds the best sets of bidders at a point as cuts, where the point doesn't meet them. How
    /// many were added.
    fn add_sets(&mut self, dictionary: &mut Dictionary, point: &Point) -> Result<u8, GivenUp> {
        let den = product(point.den, dictionary.asked.times)?;
        let bits = excess_bits(den, &point.nums);
        let nums = cut_short(self.alloc, &point.nums, bits)?;
        let prices = LongPrices {
            den: den >> bits,
            nums: &nums,
        };
        let trade = self.trade;
        let bidders = trade.bidders();
        let first = self.next;
        let mut added = 0;
        for step in 0..bidders {
            let bidder = (first % bidders + step) % bidders;
            let best = prices.excess(trade, bidder, &mut self.scratch)?;
            let cut = Cut::of(trade, bidder, &best.set);
            if dictionary.add(self.alloc, cut)? {
                added += 1;
                if added >= CUTS_PER_TURN {
                    self.next = bidder + 1;
                    break;
                }
            }
        }
        Ok(added)
    }

    /// Takes turns until no cut is to be added, and answers the point of the last one.
    pub(crate) fn run_stage(
        &mut self,
        dictionary: &mut Dictionary,
        work: &mut Work,
    ) -> Result<Point, GivenUp>
        ensures { IsMoreWork work.old work.new }
    {
        for _turn in 0..MOST_COLUMNS {
            work.turns = work.turns.saturating_add(1);
            dictionary.solve(work)?;
            let point = dictionary.point(self.alloc)?;
            let has_gaps = self.add_gaps(dictionary, &point)?;
            let sets = self.add_sets(dictionary, &point)?;
            let columns = dictionary.columns();
            if columns > MOST_COLUMNS {
                return Err(GivenUp::Spent);
            }
            work.columns = work.columns.max(columns);
            if !has_gaps && sets == 0 {
                return Ok(point);
            }
        }
        Err(GivenUp::Spent)
    }
}
