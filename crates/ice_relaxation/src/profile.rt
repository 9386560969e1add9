//! What the trees that may buy or sell one good add together, as its multiplier alone moves.

use crate::operations::Operations;

/// So many rows are told at most.
const MOST_LINES: u8 = 255;

/// What a row adds, as the multiplier moves.
#[derive(Clone, Copy)]
pub(crate) struct Line {
    /// What it adds where the multiplier is 0.
    pub(crate) base: i64,
    /// The units of the good that it buys, and less than none where it sells.
    pub(crate) units: i64,
}

/// Which of a tree's rows that may be taken add to what it does.
#[derive(Clone, Copy, PartialEq, Eq)]
pub(crate) enum Offers {
    /// The best one.
    Best,
    /// Each that adds value.
    Gains,
}

/// What a tree adds, as the multiplier moves: its fixed part and what its rows add that may be
/// taken.
#[derive(Clone, Copy)]
pub(crate) struct Share {
    fixed: Line,
    offers: Offers,
    /// Whether the tree may add nothing.
    is_optional: bool,
    /// What those rows add together that don't have the good, or none.
    rest: i64,
    /// Where its rows that have the good begin, and where they end.
    first: u8,
    end: u8,
}

/// Multipliers, and what the trees that may buy or sell one good add together as its multiplier
/// moves. Such a sum is worked out in few steps for each tree that chooses among rows.
#[derive(Drop)]
pub struct Profile {
    /// The multipliers of all goods.
    pub(crate) m: [i64; 32],
    /// The good whose multiplier moves.
    pub(crate) good: u8,
    lines: [Line; 256],
    line_count: u8,
    shares: [Share; 64],
    share_count: u8,
    /// A bit for each tree that may buy or sell the good, and isn't told.
    pub(crate) others: u64,
}

impl Line {
    /// What the row adds at a multiplier. Numbers that wrap around would only mislead a forecast.
    fn at(&self, multiplier: i64) -> i64 {
        self.base.wrapping_sub(self.units.wrapping_mul(multiplier))
    }
}

impl Share {
    /// That of a tree with this fixed part, and no row yet that may be taken; none of them adds
    /// this.
    pub(crate) fn new(fixed: Line, offers: Offers, none: i64, is_optional: bool) -> Share {
        Share {
            fixed,
            offers,
            is_optional,
            rest: none,
            first: 0,
            end: 0,
        }
    }

    /// Adds what a row without the good adds that may be taken.
    pub(crate) fn add_rest(&mut self, value: i64) {
        self.rest = self.with(self.rest, value);
    }

    /// What a row that may be taken adds to what others add.
    fn with(&self, others: i64, value: i64) -> i64 {
        if self.offers == Offers::Gains {
            others.wrapping_add(value.max(0))
        } else {
            others.max(value)
        }
    }
}

impl Profile {
    /// All multipliers 0, and no tree told.
    pub fn new() -> Profile {
        let none = Line { base: 0, units: 0 };
        Profile {
            m: [0; 32],
            good: 0,
            lines: [none; 256],
            line_count: 0,
            shares: [Share::new(none, Offers::Best, 0, false); 64],
            share_count: 0,
            others: 0,
        }
    }

    /// The multipliers of all goods.
    pub fn multipliers(&self) -> &[i64; 32] {
        &self.m
    }

    /// Begins with a good, of which no tree is told.
    pub(crate) fn begin(&mut self, good: u8) {
        self.good = good;
        self.line_count = 0;
        self.share_count = 0;
        self.others = 0;
    }

    /// Gives the good another multiplier.
    pub(crate) fn put(&mut self, multiplier: i64) {
        self.m[usize::from(self.good % 32)] = multiplier;
    }

    /// Adds a row that has the good to the tree that is told next. There is room for all rows of
    /// that tree.
    pub(crate) fn add_line(&mut self, line: Line) {
        self.lines[usize::from(self.line_count)] = line;
        self.line_count = self.line_count.saturating_add(1);
    }

    /// Adds a tree, whose rows that have the good are told since the last one.
    fn add_share(&mut self, share: Share, first: u8) {
        let end = self.line_count;
        self.shares[usize::from(self.share_count % 64)] = Share {
            first,
            end,
            ..share
        };
        self.share_count = self.share_count.saturating_add(1);
    }

    /// Tells what a tree adds as the multiplier of the good moves, where its values stand at 0 of
    /// it. False where it can't be told so, since it is no choice among rows, or has too many.
    pub(crate) fn tell(&mut self, tree: &Operations) -> bool {
        let first = self.line_count;
        if !tree.is_flat()
            || usize::from(first) + usize::from(tree.len()) > usize::from(MOST_LINES)
            || self.share_count >= 64
        {
            return false;
        }
        let Some(share) = tree.share(self.good, self) else {
            return false;
        };
        self.add_share(share, first);
        true
    }

    /// What a tree adds at a multiplier.
    fn share_at(&self, share: &Share, multiplier: i64) -> i64 {
        let mut others = share.rest;
        for place in share.first..share.end {
            others = share.with(others, self.lines[usize::from(place)].at(multiplier));
        }
        let value = share.fixed.at(multiplier).wrapping_add(others);
        if share.is_optional {
            value.max(0)
        } else {
            value
        }
    }

    /// What the trees that are told add together at a multiplier of the good.
    pub(crate) fn sum_at(&self, multiplier: i64) -> i128 {
        let mut sum: i128 = 0;
        for place in 0..self.share_count {
            let value = self.share_at(&self.shares[usize::from(place % 64)], multiplier);
            sum = sum.saturating_add(i128::from(value));
        }
        sum
    }
}
