//! The goods of an exchange.
ghost use Rattle.std.specs.Prelude.{◌≡◌, ◌≤◌, ◌<◌, ◌++◌, [], ◌∷◌, false, IfOk, length, map, slice_index_or};
ghost use Rattle.std.specs.List.{position};
ghost use Rattle.std.specs.Str.{bytes_eq};

use crate::names::number_of;
use arrayvec::ArrayVec;
use ice_defs::MOST_GOODS;
use ice_terms::Name;
use std::alloc::{AllocError, Global};
use std::marker::Model;

/// At most 32 goods, numbered from 0 on, each with its name and whether it is exact.
#[derive(Drop)]
pub(crate) struct Goods {
    names: Vec<Name>,
    exact: ArrayVec<bool, 32>,
}

impl Model for Goods {
    ghost use Rattle.std.specs.Prelude.{List, ◌≡◌, ◌≤◌, length, vec_capacity};
    ghost use Rattle.ice_defs.specs.Exchange.{Good};
    ghost use Rattle.ice_trade.specs.Parts.{goods_from};

    ghost Value = { List Good };

    ghost view = { λ t. goods_from t.names.items t.exact.items };

    ghost invariant = { λ t. (32 ≤ vec_capacity t.names) × (length t.exact.items ≡ length t.names.items) × (length t.names.items ≤ 32) };
}

#[tactic(auto, using(crate::proofs::Aligning::goods))]
impl Goods {
    /// No goods yet, with the memory for 32.
    pub(crate) fn new(alloc: Global) -> Result<Goods, AllocError>
        ensures { IfOk result (λ t. t ≡ []) }
    {
        Ok(Goods {
            names: Vec::with_capacity(alloc, usize::from(MOST_GOODS))?,
            exact: ArrayVec::new(),
        })
    }

    /// How many goods there are.
    pub(crate) fn len(&self) -> u8
        ensures value { result ≡ length self.now }
        ensures fits { result ≤ 32 }
    {
        self.exact.len() as u8
    }

    /// The number of the good with this name.
    pub(crate) fn find(&self, name: &str) -> Option<u8>
        ensures { result ≡ position (bytes_eq name.now) (map (λ good. good.name) self.now) }
    {
        let number = number_of(&self.names, name)?;
        Some(number as u8)
    }

    /// The name of a good.
    pub(crate) fn name(&self, good: u8) -> &Name
        requires { good < length self.now }
        ensures { result.now ≡ slice_index_or (map (λ good. good.name) self.now) good [] }
    {
        &self.names[good as usize]
    }

    /// Whether a good is exact.
    pub(crate) fn is_exact(&self, good: u8) -> bool
        requires { good < length self.now }
        ensures { result ≡ slice_index_or (map (λ good. good.exact) self.now) good false }
    {
        self.exact[good as usize]
    }

    /// For each good whether it is exact.
    pub(crate) fn exact(&self) -> &[bool]
        ensures { result.now ≡ map (λ good. good.exact) self.now }
    {
        self.exact.as_slice()
    }

    /// Adds a good. It takes no memory.
    pub(crate) fn push(&mut self, name: Name, exact: bool)
        requires { length self.old < 32 }
        ensures { self.new ≡ self.old ++ record { name = name; exact = exact } ∷ [] }
    {
        self.names.push(name).unwrap();
        self.exact.push(exact);
    }
}
