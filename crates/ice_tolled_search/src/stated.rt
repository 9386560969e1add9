//! The derived goods that are stated.
ghost use Rattle.std.specs.Prelude.{◌≡◌, ◌<◌, ◌≤◌, ◌++◌, ◌∷◌, [], length, sum, map, vec_len, vec_capacity, IfOk, OnOk};
ghost use Rattle.std.specs.List.{All};
ghost use Rattle.ice_defs.specs.Follows.{AreLawful};
ghost use Rattle.ice_refute.specs.Waiting.{nodes_of};
ghost use Rattle.ice_separation.specs.Derivations.{IsDerivation};
ghost use Rattle.ice_tolled_search.specs.Stated.{IsMore, AddsShown};

use ice_bound::Room;
use ice_derived::DerivedGoods;
use ice_separation::Derivation;
use ice_tree::Tree;
use std::alloc::{AllocError, Global};

/// The derived goods that are stated, in order, each with the multiplier that shows it.
#[derive(Drop)]
pub struct Stated {
    /// Them, with room for as many as may be stated.
    pub goods: DerivedGoods,
    /// How each is shown.
    pub shown: Vec<Derivation>,
    ghost alike: { map (λ d. d.derived) shown.items ≡ goods.goods },
    ghost nodes: { All (λ d. nodes_of d.derived.amounts ≡ goods.nodes) shown.items },
}

/// Puts one behind the others, for which there is room.
fn push(shown: &mut Vec<Derivation>, one: Derivation)
    requires { vec_len shown.old < vec_capacity shown.old }
    ensures { shown.new.items ≡ shown.old.items ++ one ∷ [] }
{
    if shown.push(one).is_err() {
        unreachable!();
    }
}

impl Stated {
    /// None yet, and room for so many, at most 2,000.
    pub fn with_room(alloc: Global, trees: &[Tree], most: u16) -> Result<Stated, AllocError>
        requires few { length trees.now ≤ 40 }
        requires nodes { sum (nodes_of trees.now) ≤ 2000 }
        requires most { most ≤ 2000 }
        ensures none { IfOk result (λ s. s.goods.goods ≡ []) }
        ensures nodes { IfOk result (λ s. s.goods.nodes ≡ nodes_of trees.now) }
        ensures most { IfOk result (λ s. s.goods.most ≡ most) }
        ensures shown { IfOk result (λ s. s.shown.items ≡ []) }
    {
        let goods = DerivedGoods::with_room(alloc, trees, most)?;
        Ok(Stated {
            goods,
            shown: Vec::new(alloc),
        })
    }

    /// Adds one that is shown, where there is room.
    #[tactic(auto, using(crate::proofs::Shown::adds_none, crate::proofs::Shown::adds_one))]
    pub(crate) fn add(
        &mut self,
        one: Derivation,
        trees: &[Tree],
        room: &Room,
    ) -> Result<(), AllocError>
        requires is { IsDerivation trees.now room.now one }
        requires nodes { self.old.goods.nodes ≡ nodes_of trees.now }
        requires lawful { AreLawful trees.now room.now self.old.goods.goods }
        ensures lawful { OnOk result (AreLawful trees.now room.now self.new.goods.goods) }
        ensures more { OnOk result (IsMore self.old.goods self.new.goods) }
        ensures shown { OnOk result (AddsShown trees.now room.now self.old.shown.items
            self.new.shown.items) }
    {
        if self.goods.len() >= self.goods.most() {
            return Ok(());
        }
        self.shown.reserve(1)?;
        self.goods.push(one.amounts(), one.limit());
        push(&mut self.shown, one);
        Ok(())
    }
}
