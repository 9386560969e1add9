//! The numbers of a leaf with tolls.
ghost use Rattle.std.specs.Prelude.{◌≡◌, ◌++◌, ◌∷◌, [], IfOk, OnOk};
ghost use Rattle.ice_bound.specs.Laws.{in_4096ths};
ghost use Rattle.ice_derived.specs.Ranges.{IsToll, AreInRange};

use ice_bound::Multipliers;
use ice_derived::{DerivedGoods, Rates};
use std::alloc::{AllocError, Global};
use std::marker::Model;

/// The numbers of a leaf, counted in 4096ths: a multiplier for each good and behind these a toll
/// for each derived good, each at most 2^62 in size. Those left out at the end are 0.
#[derive(Drop)]
pub struct LeafNumbers {
    numbers: Vec<i64>,
}

impl Model for LeafNumbers {
    ghost use Rattle.std.specs.Prelude.{List, ℤ};
    ghost use Rattle.ice_derived.specs.Ranges.{AreInRange};

    ghost Value = { List ℤ };

    ghost view = { λ n. n.numbers.items };

    ghost invariant = { λ n. AreInRange n.numbers.items };
}

impl LeafNumbers {
    /// No numbers: each is 0. It takes no memory yet.
    fn none(alloc: Global) -> LeafNumbers
        ensures { result ≡ [] }
    {
        LeafNumbers {
            numbers: Vec::new(alloc),
        }
    }

    /// Appends a number.
    fn push(&mut self, number: i64) -> Result<(), AllocError>
        requires { IsToll number }
        ensures { OnOk result (self.new ≡ self.old ++ number ∷ []) }
    {
        self.numbers.push(number)?;
        Ok(())
    }

    /// The multipliers, and behind them the tolls that are on derived goods.
    pub fn with_tolls(
        alloc: Global,
        m: &Rates,
        derived: &DerivedGoods,
    ) -> Result<LeafNumbers, AllocError>
        ensures { IfOk result (λ n. n ≡ m.now ++ derived.now.tolls) }
    {
        let mut numbers = LeafNumbers::none(alloc);
        for good in 0..m.len() {
            numbers.push(m.get(good))?;
        }
        for number in 0..derived.len() {
            numbers.push(derived.toll(number))?;
        }
        Ok(numbers)
    }

    /// Multipliers in 64ths, and no tolls.
    pub fn of_goods(alloc: Global, m: &Multipliers) -> Result<LeafNumbers, AllocError>
        ensures { IfOk result (λ n. n ≡ in_4096ths m.now) }
    {
        let mut numbers = LeafNumbers::none(alloc);
        for good in 0..m.len() {
            numbers.push(64 * m.get(good))?;
        }
        Ok(numbers)
    }

    /// The same numbers once more.
    pub fn copy(&self, alloc: Global) -> Result<LeafNumbers, AllocError>
        ensures { IfOk result (λ n. n ≡ self.now) }
    {
        Ok(LeafNumbers {
            numbers: self.numbers.to_vec(alloc)?,
        })
    }

    /// The numbers in order.
    pub fn as_slice(&self) -> &[i64]
        ensures value { result.now ≡ self.now }
        ensures range { AreInRange result.now }
    {
        &self.numbers
    }
}
