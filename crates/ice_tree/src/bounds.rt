//! A lower and an upper value for each node.
ghost use Rattle.std.specs.Prelude.{◌≡◌, ◌<◌, ◌≤◌, length, pos, neg_ℤ, ◌≤ℤ◌, IfOk, if◌then◌else◌};
ghost use Rattle.std.specs.List.{list_all};
ghost use Rattle.ice_defs.specs.Set.{has, weight_of, value};
ghost use Rattle.ice_defs.specs.Lawful.{AreBounds};
ghost use Rattle.ice_defs.specs.Making.{is_value};
ghost use Rattle.ice_tree.specs.Bounds.{are_crossed, bounds_refusal, BoundsRefusedBy};

use crate::faults::BoundsFault;
use arrayvec::ArrayVec;
use ice_defs::GREATEST_VALUE;
use ice_set::NodeSet;
use std::marker::Model;

/// A lower and an upper value for each node of one tree: each at most 1,000,000,000 in size, and
/// the lower one at most the upper one.
#[derive(Drop)]
pub struct Bounds {
    lo: ArrayVec<i64, 200>,
    hi: ArrayVec<i64, 200>,
}

impl Model for Bounds {
    ghost use Rattle.ice_defs.specs.Bounds.{Bounds as BoundLists};
    ghost use Rattle.ice_tree.specs.Stored.{AreStoredBounds};

    ghost Value = { BoundLists };

    ghost view = { λ b. record { lo = b.lo.items; hi = b.hi.items } };

    ghost invariant = { λ b. AreStoredBounds record { lo = b.lo.items; hi = b.hi.items } };
}

/// Whether a value is at most 1,000,000,000 in size.
pub(crate) fn is_value(value: i64) -> bool
    ensures { result ≡ is_value value }
{
    -GREATEST_VALUE <= value && value <= GREATEST_VALUE
}

fn are_values(values: &[i64]) -> bool
    ensures { result ≡ list_all is_value values.now }
{
    values.iter().all(|value| is_value(*value))
}

fn are_crossed(lo: &[i64], hi: &[i64]) -> bool
    ensures { result ≡ are_crossed lo.now hi.now }
{
    lo.iter().zip(hi).any(|(lo, hi)| hi < lo)
}

/// A list of these values, at most 200.
pub(crate) fn list_of<T: Copy + Default>(values: &[T]) -> ArrayVec<T, 200>
    requires { length values.now ≤ 200 }
    ensures { result.items ≡ values.now }
{
    let mut list = ArrayVec::new();
    for value in values {
        list.push(*value);
    }
    list
}

impl Bounds {
    /// The bounds with these values of so many nodes, at most 200.
    pub(crate) fn new(nodes: usize, lo: &[i64], hi: &[i64]) -> Result<Bounds, BoundsFault>
        requires { nodes ≤ 200 }
        ensures made { IfOk result (λ b. b ≡ record { lo = lo.now; hi = hi.now }) }
        ensures refused { BoundsRefusedBy result (bounds_refusal nodes lo.now hi.now) }
    {
        if !(lo.len() == nodes && hi.len() == nodes) {
            return Err(BoundsFault::WrongCount);
        }
        if !(are_values(lo) && are_values(hi)) {
            return Err(BoundsFault::OutOfRange);
        }
        if are_crossed(lo, hi) {
            return Err(BoundsFault::Crossed);
        }
        Ok(Bounds::of(list_of(lo), list_of(hi)))
    }

    /// The bounds with these values, of at most 200 nodes.
    pub(crate) fn of(lo: ArrayVec<i64, 200>, hi: ArrayVec<i64, 200>) -> Bounds
        requires few { length lo.items ≤ 200 }
        requires bounds { AreBounds (length lo.items) record { lo = lo.items; hi = hi.items } }
        ensures { result ≡ record { lo = lo.items; hi = hi.items } }
    {
        Bounds { lo, hi }
    }

    /// The same bounds once more.
    pub fn copy(&self) -> Bounds
        ensures { result ≡ self.now }
    {
        Bounds {
            lo: list_of(&self.lo),
            hi: list_of(&self.hi),
        }
    }

    /// The number of nodes.
    pub fn len(&self) -> u16
        ensures value { result ≡ length self.now.lo }
        ensures fits { result ≤ 200 }
        ensures bounds { AreBounds (length self.now.lo) self.now }
    {
        self.lo.len() as u16
    }

    /// The node's lower value.
    pub fn lo(&self, node: u16) -> i64
        requires { node < length self.now.lo }
        ensures { result ≡ weight_of self.now.lo node }
    {
        self.lo[node as usize]
    }

    /// The node's upper value.
    pub fn hi(&self, node: u16) -> i64
        requires { node < length self.now.lo }
        ensures { result ≡ weight_of self.now.hi node }
    {
        self.hi[node as usize]
    }

    /// The node's lower value where it is inside the set, and else its upper one.
    pub(crate) fn perturbed(&self, chosen: &NodeSet, node: u16) -> i64
        requires node { node < length self.now.lo }
        requires chosen { length chosen.now ≡ length self.now.lo }
        ensures { result ≡ (if has chosen.now node then weight_of self.now.lo node
            else weight_of self.now.hi node) }
    {
        if chosen.has(node) {
            self.lo(node)
        } else {
            self.hi(node)
        }
    }

    /// The node's lower value where it is inside the set, and else 0.
    fn lower_inside(&self, set: &NodeSet, node: u16) -> i64
        requires node { node < length self.now.lo }
        requires set { length set.now ≡ length self.now.lo }
        requires bounds { AreBounds (length self.now.lo) self.now }
        ensures value { result ≡ (if has set.now node then weight_of self.now.lo node else pos 0) }
        ensures low { neg_ℤ (pos 1000000000) ≤ℤ result }
        ensures high { result ≤ℤ pos 1000000000 }
    {
        if set.has(node) { self.lo(node) } else { 0 }
    }

    /// The sum of the lower values over the set, at most 200,000,000,000 in size.
    pub fn lower_value(&self, set: &NodeSet) -> i64
        requires { length set.now ≡ length self.now.lo }
        ensures value { result ≡ value set.now self.now.lo }
        ensures low { neg_ℤ (pos 200000000000) ≤ℤ result }
        ensures high { result ≤ℤ pos 200000000000 }
    {
        let mut sum = 0;
        for node in 0..self.len() {
            sum += self.lower_inside(set, node);
        }
        sum
    }
}
