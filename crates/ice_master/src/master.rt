//! A market made ready for the duals of its sides.
ghost use Rattle.std.specs.Prelude.{◌≡◌, ◌<◌, ◌≤◌, length};
ghost use Rattle.ice_defs.specs.Conditions.{AreWeightsOf, AreFixingsOf};

use crate::basis::{Basic, Basis};
use crate::form::{Form, Worths};
use crate::market::Market;
use crate::nodes::Nodes;
use crate::outcome::Outcome;
use crate::pool::Pool;
use crate::scale::Scale;
use crate::tableau::Tableau;
use ice_best::{Fixing, Fixings, Mark};
use ice_relaxation::Openness;
use ice_tree::{AllWeights, Tree, Weights};
use std::alloc::{AllocError, Global};

/// A market made ready for the duals of its sides: the trees under the marks of one side, the sets
/// that were found, and a basis, from which a solve goes on. It is for markets of at most twelve
/// goods and weights of at most 38 bits: what it says of others means nothing.
///
/// Only `new` takes memory.
#[derive(Drop)]
pub struct Master {
    /// Its goods and bidders.
    pub market: Market,
    /// How fine the amounts of its weights are.
    pub scale: Scale,
    pub(crate) worths: Vec<Worths>,
    pub(crate) forms: Vec<Form>,
    openness: Openness,
    pub(crate) outcome: Outcome,
    /// The sets that were found.
    pub pool: Pool,
    pub(crate) tableau: Tableau,
    /// The columns that the last pricing found to gain ..
    pub(crate) gaining: [Basic; 64],
    /// .. and how many there are.
    pub(crate) gaining_count: u8,
}

/// The size of the greatest weight of all trees.
fn greatest_weight(trees: &[Tree], weights: &AllWeights) -> u128
    requires few { length trees.now ≤ 40 }
    requires weights { AreWeightsOf trees.now weights.now }
{
    let mut greatest = 0;
    for bidder in 0..trees.len() as u8 {
        let tree = &trees[usize::from(bidder)];
        greatest = greatest_of(tree, weights.of(bidder), greatest);
    }
    greatest
}

/// The size of the greatest weight of a tree, or this where it is greater.
fn greatest_of(tree: &Tree, weights: &Weights, least: u128) -> u128
    requires { length weights.now ≡ length tree.now }
{
    let mut greatest = least;
    for node in 0..tree.nodes() {
        greatest = greatest.max(weights.get(node).unsigned_abs());
    }
    greatest
}

/// Works out the amounts of the weights of a tree.
fn fill_worths(worths: &mut Worths, tree: &Tree, weights: &Weights, scale: Scale)
    requires { length weights.now ≡ length tree.now }
{
    for node in 0..tree.nodes() {
        worths[usize::from(node)] = scale.amount(weights.get(node));
    }
}

/// The nodes of one mark.
fn marked(fixing: &Fixing, mark: Mark) -> Nodes {
    let mut nodes = Nodes::NONE;
    for node in 0..fixing.len() {
        if fixing.get(node) == mark {
            nodes.insert(node as u8);
        }
    }
    nodes
}

impl Master {
    /// Room for a market of these trees with these weights, where each of its goods is exact or
    /// not. The basis is the first one: no bidder has anything.
    pub fn new(
        alloc: Global,
        trees: &[Tree],
        weights: &AllWeights,
        exact: &[bool],
    ) -> Result<Master, AllocError>
        requires few { length trees.now ≤ 40 }
        requires weights { AreWeightsOf trees.now weights.now }
    {
        let bidders = trees.len() as u8;
        let market = Market::of(exact, bidders);
        let pool = Pool::new(alloc, bidders)?;
        let mut master = Master {
            market,
            scale: Scale::of(greatest_weight(trees, weights)),
            worths: vec![in alloc; [0; 200]; trees.len()]?,
            forms: vec![in alloc; Form::new(); trees.len()]?,
            openness: Openness::new(),
            outcome: Outcome::new(),
            tableau: Tableau::new(market, &pool),
            pool,
            gaining: [Basic::Slack(0); 64],
            gaining_count: 0,
        };
        for bidder in 0..trees.len() as u8 {
            master.weigh(trees, weights, bidder);
        }
        Ok(master)
    }

    /// Works out the amounts of one tree's weights.
    fn weigh(&mut self, trees: &[Tree], weights: &AllWeights, bidder: u8)
        requires few { length trees.now ≤ 40 }
        requires weights { AreWeightsOf trees.now weights.now }
        requires bidder { bidder < length trees.now }
    {
        let tree = &trees[usize::from(bidder)];
        if let Some(worths) = self.worths.get_mut(usize::from(bidder)) {
            fill_worths(worths, tree, weights.of(bidder), self.scale);
        }
    }

    /// Looks at the side of these marks. All looks are at the trees of `new`. False where no set of
    /// some tree meets them. Time: a pass over the marks, and some over the nodes of the trees
    /// whose marks aren't those of the last look.
    pub fn look_at(&mut self, trees: &[Tree], marks: &Fixings) -> bool
        requires few { length trees.now ≤ 40 }
        requires marks { AreFixingsOf trees.now marks.now }
    {
        let mut are_open = true;
        for bidder in 0..trees.len() as u8 {
            are_open = self.look_at_tree(trees, marks, bidder) && are_open;
        }
        are_open
    }

    /// Looks at new marks of one tree. False where no set of it meets them.
    pub fn look_at_tree(&mut self, trees: &[Tree], marks: &Fixings, bidder: u8) -> bool
        requires few { length trees.now ≤ 40 }
        requires marks { AreFixingsOf trees.now marks.now }
        requires bidder { bidder < length trees.now }
    {
        let tree = &trees[usize::from(bidder)];
        let fixing = marks.of(bidder);
        let must = marked(fixing, Mark::Must);
        let never = marked(fixing, Mark::Never);
        if self.pool.asks(bidder, &must, &never) {
            return self.is_open(bidder);
        }
        self.pool.demand(bidder, must, never);
        self.openness.fill(tree, fixing, None);
        self.fill_form(tree, bidder);
        self.is_open(bidder)
    }

    /// Makes the form of a tree anew, of which is known what is open.
    fn fill_form(&mut self, tree: &Tree, bidder: u8) {
        let place = usize::from(bidder);
        if let Some(worths) = self.worths.get(place) {
            if let Some(form) = self.forms.get_mut(place) {
                form.fill(tree, worths, &self.openness);
            }
        }
    }

    /// Whether some set of a tree meets the marks of the last look.
    fn is_open(&self, bidder: u8) -> bool {
        match self.forms.get(usize::from(bidder)) {
            Some(form) => form.is_open(),
            None => true,
        }
    }

    /// The basis at which the last solve ended.
    pub fn basis(&self) -> Basis {
        self.tableau.basis
    }

    /// Lets the next solve go on from a basis.
    pub fn start_from(&mut self, basis: &Basis) {
        self.tableau.basis = *basis;
    }
}
