//! One multiplier for each good.
ghost use Rattle.std.specs.Prelude.{◌≡◌, ◌<◌, ◌≤◌, length, replicate, slice_set, pos, IsTrue};
ghost use Rattle.ice_bound.specs.Multipliers.{multiplier_of, IsInRange, AreInRange};

use arrayvec::ArrayVec;
use std::marker::Model;

/// One multiplier for each good, at most 32 of them, each from -2^56 to 2^56 and counted in 64ths.
/// They take no memory.
#[derive(Drop)]
pub struct Multipliers {
    numbers: ArrayVec<i64, 32>,
}

impl Model for Multipliers {
    ghost use Rattle.std.specs.Prelude.{List, ℤ};
    ghost use Rattle.ice_bound.specs.Multipliers.{AreInRange};

    ghost Value = { List ℤ };

    ghost view = { λ m. m.numbers.items };

    ghost invariant = { λ m. AreInRange m.numbers.items };
}

impl Multipliers {
    /// A multiplier of 0 for each of so many goods, at most 32.
    pub fn zero(goods: u8) -> Multipliers
        requires { goods ≤ 32 }
        ensures { result ≡ replicate goods (pos 0) }
    {
        let mut numbers = ArrayVec::new();
        for _good in 0..goods {
            numbers.push(0);
        }
        Multipliers { numbers }
    }

    /// The number of goods.
    pub fn len(&self) -> u8
        ensures value { result ≡ length self.now }
        ensures fits { result ≤ 32 }
    {
        self.numbers.len() as u8
    }

    /// The multiplier of the good.
    pub fn get(&self, good: u8) -> i64
        requires { good < length self.now }
        ensures value { result ≡ multiplier_of self.now good }
        ensures range { IsInRange result }
    {
        self.numbers[good as usize]
    }

    /// Gives the good another multiplier.
    pub fn put(&mut self, good: u8, m: i64)
        requires good { good < length self.old }
        requires range { IsInRange m }
        ensures { self.new ≡ slice_set self.old good m }
    {
        self.numbers[good as usize] = m;
    }

    /// The multipliers, one for each good.
    pub fn as_slice(&self) -> &[i64]
        ensures value { result.now ≡ self.now }
        ensures range { AreInRange result.now }
    {
        self.numbers.as_slice()
    }

    /// Whether they are the same multipliers.
    pub(crate) fn is_same(&self, other: &Multipliers) -> bool
        ensures { IsTrue result → self.now ≡ other.now }
    {
        self.numbers.as_slice() == other.numbers.as_slice()
    }

    /// The same multipliers once more.
    pub fn copy(&self) -> Multipliers
        ensures { result ≡ self.now }
    {
        let mut copy = Multipliers::zero(self.len());
        for good in 0..self.len() {
            copy.put(good, self.get(good));
        }
        copy
    }
}
