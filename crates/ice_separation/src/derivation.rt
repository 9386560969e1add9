//! A derived good with the one multiplier that shows it.
ghost use Rattle.std.specs.Prelude.{◌≡◌, ◌<◌, ◌≤◌, ◌≢◌, ℕ, [], length, pos, IsTrue, IfSome};
ghost use Rattle.ice_defs.specs.Set.{weight_of};
ghost use Rattle.ice_defs.specs.Group.{free_side};
ghost use Rattle.ice_refute.specs.Waiting.{nodes_of};
ghost use Rattle.ice_derived.specs.Ranges.{AreAllAmounts, IsLimit};
ghost use Rattle.ice_separation.specs.Derivations.{lone_multiplier, HasAmount, IsDerivation};

use ice_best::Fixings;
use ice_bound::{Bound, Room};
use ice_derived::{Amounts, DerivedGoods, Rates, TollRoom, Weighing, bound_with};
use ice_tree::{Tree, Weights};
use std::marker::Model;

/// A derived good that one leaf shows, which has a multiplier of one good and nothing else: what
/// its nodes take, its limit, the good, and the multiplier in 4096ths.
#[derive(Drop)]
pub struct Derivation {
    amounts: Amounts,
    limit: i64,
    good: u8,
    multiplier: u16,
}

impl Model for Derivation {
    ghost use Rattle.ice_separation.specs.Derivations.{DerivationView};

    ghost Value = { DerivationView };

    ghost view = { λ d. record { derived = record { amounts = d.amounts; limit = d.limit }; good = d.good; multiplier = d.multiplier } };
}

/// Multipliers of which that of one good alone isn't 0.
fn lone_rate(goods: u8, good: u8, multiplier: u16) -> Rates
    requires goods { goods ≤ 32 }
    requires good { good < goods }
    ensures value { result ≡ lone_multiplier goods good multiplier }
    ensures goods { length result ≡ goods }
{
    let mut m = Rates::zero(goods);
    m.put(good, i64::from(multiplier));
    m
}

/// Whether a node takes something.
fn row_has_amount(amounts: &Weights, nodes: u16) -> bool
    requires { length amounts.now ≡ nodes }
    ensures { IsTrue result → (n : ℕ) × (n < nodes) × (weight_of amounts.now n ≢ pos 0) }
{
    for node in 0..nodes {
        if amounts.get(node) != 0 {
            return true;
        }
    }
    false
}

/// Whether a node of some tree takes something.
fn has_amount(trees: &[Tree], amounts: &Amounts) -> bool
    requires few { length trees.now ≤ 40 }
    requires nodes { nodes_of amounts.now ≡ nodes_of trees.now }
    ensures some { IsTrue result → HasAmount amounts.now }
    ensures range { AreAllAmounts amounts.now }
{
    let mut has = false;
    for bidder in 0..trees.len() as u8 {
        let nodes = trees[usize::from(bidder)].nodes();
        let here = row_has_amount(amounts.of(bidder), nodes);
        has = has || here;
    }
    has
}

/// The number, where it is in the range of limits.
fn limit_of(number: i128) -> Option<i64>
    ensures { IfSome result (λ limit. IsLimit limit × (limit ≡ number)) }
{
    let most = 1 << 40;
    if -most <= number && number <= most {
        Some(number as i64)
    } else {
        None
    }
}

impl Derivation {
    /// The derived good with these amounts that the multiplier of the good shows. Its limit is the
    /// bound of that leaf. None where no node takes anything, or the limit is out of range.
    ///
    /// There are at most 40 trees; all nodes are free, and there are no other derived goods. Takes
    /// no memory.
    pub(crate) fn of(
        trees: &[Tree],
        amounts: Amounts,
        good: u8,
        multiplier: u16,
        room: &Room,
        free: &Fixings,
        none: &DerivedGoods,
        toll_room: &mut TollRoom,
    ) -> Option<Derivation>
        requires few { length trees.now ≤ 40 }
        requires amounts { nodes_of amounts ≡ nodes_of trees.now }
        requires good { good < length room.now }
        requires free { free.now ≡ free_side trees.now }
        requires nodes { none.now.nodes ≡ nodes_of trees.now }
        requires none { none.now.goods ≡ [] }
        ensures { IfSome result (IsDerivation trees.now room.now) }
    {
        // there is one toll for each derived good, so none
        let _count = none.len();
        if !has_amount(trees, &amounts) {
            return None;
        }
        let m = lone_rate(room.goods(), good, multiplier);
        let weighing = Weighing::Derivation(&amounts);
        let Bound::AtMost(bound) = bound_with(trees, &weighing, none, &m, free, toll_room) else {
            return None;
        };
        let limit = limit_of(bound)?;
        Some(Derivation {
            amounts,
            limit,
            good,
            multiplier,
        })
    }

    /// What each node takes.
    pub fn amounts(&self) -> &Amounts
        ensures { result.now ≡ self.now.derived.amounts }
    {
        &self.amounts
    }

    /// How much may be taken.
    pub fn limit(&self) -> i64
        ensures { result ≡ self.now.derived.limit }
    {
        self.limit
    }

    /// The good that has the multiplier.
    pub fn good(&self) -> u8
        ensures { result ≡ self.now.good }
    {
        self.good
    }

    /// The multiplier, in 4096ths.
    pub fn multiplier(&self) -> u16
        ensures { result ≡ self.now.multiplier }
    {
        self.multiplier
    }
}
