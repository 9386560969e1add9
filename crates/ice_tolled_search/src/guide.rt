//! What guides the search: the duals of sides, with the derived goods at hand.
ghost use Rattle.std.specs.Prelude.{◌≡◌, ◌<◌, ◌≤◌, length, sum, vec_len, OnOk, IfSome};
ghost use Rattle.std.specs.List.{All};
ghost use Rattle.ice_defs.specs.Follows.{AreLawful};
ghost use Rattle.ice_derived.specs.Ranges.{AreAmounts};
ghost use Rattle.ice_separation.specs.Derivations.{IsDerivation};
ghost use Rattle.ice_tolled_search.specs.Stated.{IsMore, AddsShown, AreSame};
ghost use Rattle.ice_defs.specs.Conditions.{AreWeightsOf, AreFixingsOf};
ghost use Rattle.ice_refute.specs.Waiting.{nodes_of};

use crate::stated::Stated;
use ice_best::Fixings;
use ice_bound::Room;
use ice_derived::Rates;
use ice_master::{Aim, Master};
use ice_root::close_root;
use ice_rows::{Rows, Taken};
use ice_separation::Derivation;
use ice_tree::{AllWeights, Tree, Weights};
use std::alloc::{AllocError, Global};

/// No number of a leaf is greater.
const FARTHEST: i64 = 1 << 62;

/// So many derived goods of before are looked at.
const MOST_OLD: u16 = 140;

/// The bound below which a side has nothing above a value, in 64ths.
pub(crate) fn closing(value: i128) -> i64 {
    let above = value.saturating_add(1).saturating_mul(64);
    above.clamp(-(1 << 56), 1 << 56) as i64
}

/// What guides the search. It decides nothing.
#[derive(Drop)]
pub(crate) struct Guide {
    pub(crate) master: Box<Master>,
    pub(crate) rows: Box<Rows>,
    /// The number of the derived good of each row.
    pub(crate) numbers: Vec<u16>,
}

/// Adds what the nodes of one tree take.
fn take_row(
    taken: &mut Vec<Taken>,
    bidder: u8,
    nodes: u16,
    amounts: &Weights,
) -> Result<(), AllocError>
    requires nodes { length amounts.now ≡ nodes }
    requires range { AreAmounts amounts.now }
{
    for node in 0..nodes {
        let amount = amounts.get(node) as i32;
        if amount != 0 {
            taken.push(Taken {
                bidder,
                node,
                amount,
            })?;
        }
    }
    Ok(())
}

/// What nodes take of a derived good.
fn taken_of(alloc: Global, trees: &[Tree], one: &Derivation) -> Result<Vec<Taken>, AllocError>
    requires few { length trees.now ≤ 40 }
    requires nodes { nodes_of one.now.derived.amounts ≡ nodes_of trees.now }
{
    let amounts = one.amounts();
    let mut taken = Vec::new(alloc);
    for bidder in 0..trees.len() as u8 {
        let nodes = trees[usize::from(bidder)].nodes();
        take_row(&mut taken, bidder, nodes, amounts.of(bidder))?;
    }
    Ok(taken)
}

/// Takes the last one out, where all of them are shown.
fn pop_shown(found: &mut Vec<Derivation>, trees: &[Tree], room: &Room) -> Option<Derivation>
    requires each { All (IsDerivation trees.now room.now) found.old.items }
    ensures each { All (IsDerivation trees.now room.now) found.new.items }
    ensures is { IfSome result (IsDerivation trees.now room.now) }
    ensures fewer { IfSome result (λ one. vec_len found.new < vec_len found.old) }
{
    found.pop()
}

/// Adds those that are shown, the last one first, where there is room.
#[tactic(auto, using(crate::proofs::Shown::adds_none, crate::proofs::Shown::adds_more))]
fn state_all(
    found: &mut Vec<Derivation>,
    trees: &[Tree],
    room: &Room,
    stated: &mut Stated,
) -> Result<(), AllocError>
    requires each { All (IsDerivation trees.now room.now) found.old.items }
    requires nodes { stated.old.goods.nodes ≡ nodes_of trees.now }
    requires lawful { AreLawful trees.now room.now stated.old.goods.goods }
    ensures lawful { OnOk result (AreLawful trees.now room.now stated.new.goods.goods) }
    ensures more { OnOk result (IsMore stated.old.goods stated.new.goods) }
    ensures shown { OnOk result (AddsShown trees.now room.now stated.old.shown.items
        stated.new.shown.items) }
{
    while let Some(one) = pop_shown(found, trees, room) {
        stated.add(one, trees, room)?;
    }
    Ok(())
}

impl Guide {
    /// One that looks at the start, with no derived goods yet.
    pub(crate) fn new(
        alloc: Global,
        trees: &[Tree],
        weights: &AllWeights,
        exact: &[bool],
        start: &Fixings,
    ) -> Result<Guide, AllocError>
        requires few { length trees.now ≤ 40 }
        requires weights { AreWeightsOf trees.now weights.now }
        requires marks { AreFixingsOf trees.now start.now }
    {
        let mut master = Box::new(alloc, Master::new(alloc, trees, weights, exact)?)?;
        let rows = Box::new(alloc, Rows::new(alloc, &master)?)?;
        master.look_at(trees, start);
        Ok(Guide {
            master,
            rows,
            numbers: Vec::new(alloc),
        })
    }

    /// Puts derived goods of these numbers alone into the rows.
    fn put_rows(
        &mut self,
        alloc: Global,
        trees: &[Tree],
        stated: &Stated,
        numbers: &[u16],
    ) -> Result<(), AllocError>
        requires few { length trees.now ≤ 40 }
        requires nodes { stated.now.goods.nodes ≡ nodes_of trees.now }
    {
        self.rows.keep(&[false; 144]);
        self.numbers.clear();
        for number in numbers {
            let Some(one) = stated.shown.get(usize::from(*number)) else {
                continue;
            };
            let taken = taken_of(alloc, trees, one)?;
            if self.rows.put(&taken, one.limit()).is_some() {
                self.numbers.push(*number)?;
            }
        }
        Ok(())
    }

    /// Puts the last of the derived goods that are stated into the rows, and keeps those that have
    /// a toll at the dual of the side that is looked at.
    pub(crate) fn take_stated(
        &mut self,
        alloc: Global,
        trees: &[Tree],
        stated: &Stated,
    ) -> Result<(), AllocError>
        requires few { length trees.now ≤ 40 }
        requires nodes { stated.now.goods.nodes ≡ nodes_of trees.now }
    {
        let mut numbers = Vec::new(alloc);
        let count = stated.goods.len();
        for number in count.saturating_sub(MOST_OLD)..count {
            numbers.push(number)?;
        }
        self.put_rows(alloc, trees, stated, &numbers)?;
        self.rows.solve(&mut self.master, Aim::DUAL);
        let tolls = self.rows.tolls(&self.master);
        let mut taxed = Vec::new(alloc);
        for place in 0..self.numbers.len() {
            if tolls[place % 144] > 0 {
                taxed.push(self.numbers[place])?;
            }
        }
        self.put_rows(alloc, trees, stated, &taxed)
    }

    /// Finds derived goods at the side that is looked at, and states them, the last one first.
    pub(crate) fn find(
        &mut self,
        alloc: Global,
        trees: &[Tree],
        room: &Room,
        value: i128,
        stated: &mut Stated,
    ) -> Result<(), AllocError>
        requires few { length trees.now ≤ 40 }
        requires sum { sum (nodes_of trees.now) ≤ 2000 }
        requires nodes { stated.old.goods.nodes ≡ nodes_of trees.now }
        requires lawful { AreLawful trees.now room.now stated.old.goods.goods }
        ensures lawful { OnOk result (AreLawful trees.now room.now stated.new.goods.goods) }
        ensures more { OnOk result (IsMore stated.old.goods stated.new.goods) }
        ensures shown { OnOk result (AddsShown trees.now room.now stated.old.shown.items
            stated.new.shown.items) }
    {
        let close = closing(value);
        let mut found = close_root(alloc, trees, room, close, &mut self.master, &mut self.rows)?;
        let count = found.len() as u16;
        let first = stated.goods.len();
        self.numbers.clear();
        for place in 0..count {
            self.numbers.push(first.saturating_add(count - 1 - place))?;
        }
        state_all(&mut found, trees, room, stated)?;
        // Rows of those that found no room would promise what no leaf shows.
        if stated.goods.len().saturating_sub(first) < count {
            return self.take_stated(alloc, trees, stated);
        }
        Ok(())
    }

    /// The multipliers of the last solve; those of goods that aren't exact are no less than 0.
    pub(crate) fn rates(&self, room: &Room) -> Rates
        ensures { length result ≡ length room.now }
    {
        let numbers = self.rows.multipliers(&self.master);
        let mut m = Rates::zero(room.goods());
        for good in 0..room.goods() {
            let number = numbers[usize::from(good % 32)];
            let least = if room.is_exact(good) { -FARTHEST } else { 0 };
            m.put(good, number.clamp(least, FARTHEST));
        }
        m
    }

    /// Puts the tolls of the last solve on the derived goods.
    pub(crate) fn put_tolls(&self, stated: &mut Stated)
        ensures same { AreSame stated.old.goods stated.new.goods }
        ensures shown { stated.new.shown.items ≡ stated.old.shown.items }
    {
        let tolls = self.rows.tolls(&self.master);
        for place in 0..self.numbers.len() {
            let number = self.numbers[place];
            let toll = tolls[place % 144].clamp(0, FARTHEST);
            if number < stated.goods.len() && stated.goods.toll(number) != toll {
                stated.goods.put_toll(number, toll);
            }
        }
    }
}
