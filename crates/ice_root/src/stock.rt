//! The derived goods at hand.
ghost use Rattle.std.specs.Prelude.{◌≡◌, ◌<◌, ◌≤◌, [], length, vec_len, OnOk, IfSome};
ghost use Rattle.std.specs.List.{All};
ghost use Rattle.ice_refute.specs.Waiting.{nodes_of};
ghost use Rattle.ice_derived.specs.Ranges.{AreAmounts};
ghost use Rattle.ice_separation.specs.Derivations.{IsDerivation};

use ice_bound::Room;
use ice_master::Master;
use ice_rows::{Rows, Taken};
use ice_separation::{Derivation, push_shown};
use ice_tree::{Tree, Weights};
use std::alloc::{AllocError, Global};
use std::cmp::Reverse;

/// So many stay at most.
const MOST: usize = 64;

/// The row of a derived good.
#[derive(Clone, Copy)]
struct Line {
    /// Its number.
    number: u8,
    /// The sum of the squares of its amounts.
    squares: u128,
}

/// Derived goods, and the row of each.
#[derive(Drop)]
pub(crate) struct Stock {
    pub(crate) found: Vec<Derivation>,
    lines: Vec<Line>,
}

/// Adds what the nodes of one tree take.
fn take_row(
    taken: &mut Vec<Taken>,
    bidder: u8,
    nodes: u16,
    amounts: &Weights,
) -> Result<(), AllocError>
    requires nodes { length amounts.now ≡ nodes }
    requires range { AreAmounts amounts.now }
{
    for node in 0..nodes {
        let amount = amounts.get(node) as i32;
        if amount != 0 {
            taken.push(Taken {
                bidder,
                node,
                amount,
            })?;
        }
    }
    Ok(())
}

/// What nodes take of a derived good.
fn taken_of(alloc: Global, trees: &[Tree], one: &Derivation) -> Result<Vec<Taken>, AllocError>
    requires few { length trees.now ≤ 40 }
    requires nodes { nodes_of one.now.derived.amounts ≡ nodes_of trees.now }
{
    let amounts = one.amounts();
    let mut taken = Vec::new(alloc);
    for bidder in 0..trees.len() as u8 {
        let nodes = trees[usize::from(bidder)].nodes();
        take_row(&mut taken, bidder, nodes, amounts.of(bidder))?;
    }
    Ok(taken)
}

/// The sum of the squares of amounts.
fn squares_of(taken: &[Taken]) -> u128 {
    let mut squares: u128 = 0;
    for part in taken {
        let size = u128::from(part.amount.unsigned_abs());
        squares = squares.saturating_add(size.saturating_mul(size));
    }
    squares
}

impl Line {
    /// The square of its toll times its size: 0 where it has no toll.
    fn weight(&self, tolls: &[i64; 144]) -> u128 {
        let toll = u128::from(tolls[usize::from(self.number % 144)].unsigned_abs());
        toll.saturating_mul(toll).saturating_mul(self.squares)
    }
}

/// Takes the last one out, where all of them are shown.
fn pop_shown(found: &mut Vec<Derivation>, trees: &[Tree], room: &Room) -> Option<Derivation>
    requires each { All (IsDerivation trees.now room.now) found.old.items }
    ensures each { All (IsDerivation trees.now room.now) found.new.items }
    ensures is { IfSome result (IsDerivation trees.now room.now) }
    ensures fewer { IfSome result (λ one. vec_len found.new < vec_len found.old) }
{
    found.pop()
}

impl Stock {
    /// None yet.
    pub(crate) fn new(alloc: Global) -> Stock
        ensures none { result.found.items ≡ [] }
        ensures len { vec_len result.found ≡ 0 }
    {
        Stock {
            found: Vec::new(alloc),
            lines: Vec::new(alloc),
        }
    }

    /// Adds derived goods to it and to the rows, as long as there is room.
    pub(crate) fn add(
        &mut self,
        alloc: Global,
        trees: &[Tree],
        room: &Room,
        others: &mut Vec<Derivation>,
        rows: &mut Rows,
    ) -> Result<(), AllocError>
        requires few { length trees.now ≤ 40 }
        requires each { All (IsDerivation trees.now room.now) self.old.found.items }
        requires others { All (IsDerivation trees.now room.now) others.old.items }
        ensures each { OnOk result (All (IsDerivation trees.now room.now) self.new.found.items) }
    {
        while let Some(one) = pop_shown(others, trees, room) {
            let taken = taken_of(alloc, trees, &one)?;
            let Some(number) = rows.put(&taken, one.limit()) else {
                break;
            };
            push_shown(&mut self.found, one, trees, room)?;
            let squares = squares_of(&taken);
            self.lines.push(Line { number, squares })?;
        }
        Ok(())
    }

    /// The weight below which none stays.
    fn least_weight(&self, alloc: Global, tolls: &[i64; 144]) -> Result<u128, AllocError> {
        let mut weights = Vec::new(alloc);
        for line in &self.lines {
            weights.push(line.weight(tolls))?;
        }
        weights.sort_unstable_by_key(|weight| Reverse(*weight));
        let least = weights.get(MOST - 1).copied().unwrap_or(1);
        Ok(least.max(1))
    }

    /// Keeps those with a toll, here and in the rows: at most 64, those of the greatest weight.
    pub(crate) fn keep(
        &mut self,
        alloc: Global,
        trees: &[Tree],
        room: &Room,
        master: &Master,
        rows: &mut Rows,
    ) -> Result<(), AllocError>
        requires each { All (IsDerivation trees.now room.now) self.old.found.items }
        ensures each { OnOk result (All (IsDerivation trees.now room.now) self.new.found.items) }
        ensures few { OnOk result (vec_len self.new.found ≤ 64) }
    {
        let tolls = rows.tolls(master);
        let least = self.least_weight(alloc, &tolls)?;
        let mut stay = Stock::new(alloc);
        let mut kept = [false; 144];
        while let Some(one) = pop_shown(&mut self.found, trees, room) {
            let Some(line) = self.lines.pop() else {
                break;
            };
            if stay.found.len() < MOST && line.weight(&tolls) >= least {
                push_shown(&mut stay.found, one, trees, room)?;
                stay.lines.push(line)?;
                kept[usize::from(line.number % 144)] = true;
            }
        }
        rows.keep(&kept);
        *self = stay;
        Ok(())
    }

    /// Puts its derived goods alone into the rows, each at the number of its place.
    pub(crate) fn number_anew(
        &self,
        alloc: Global,
        trees: &[Tree],
        room: &Room,
        rows: &mut Rows,
    ) -> Result<(), AllocError>
        requires few { length trees.now ≤ 40 }
        requires each { All (IsDerivation trees.now room.now) self.now.found.items }
    {
        rows.keep(&[false; 144]);
        for one in &self.found {
            let taken = taken_of(alloc, trees, one)?;
            rows.put(&taken, one.limit());
        }
        Ok(())
    }
}
