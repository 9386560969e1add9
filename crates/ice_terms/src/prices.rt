//! Prices of goods.
ghost use Rattle.std.specs.Prelude.{◌≡◌, ◌<◌, length, pos, IfSome, IfNone};
ghost use Rattle.ice_terms.specs.Terms.{ArePriceTerms};
ghost use Rattle.ice_defs.specs.Prices as exchange;

use arrayvec::ArrayVec;
use ice_defs::{GREATEST_DENOMINATOR, GREATEST_NUMERATOR, MOST_GOODS};
use std::marker::Model;

/// One price per good: a numerator from 0 to 2^62, over one denominator from 1 to 2^32.
#[derive(Drop)]
pub struct Prices {
    den: u64,
    nums: ArrayVec<i64, 32>,
}

impl Model for Prices {
    ghost use Rattle.ice_defs.specs.Prices as exchange;
    ghost use Rattle.ice_terms.specs.Terms.{ArePriceTerms};

    ghost Value = { exchange.Prices };

    ghost view = { λ a. record { den = a.den; nums = a.nums.items } };

    ghost invariant = { λ a. ArePriceTerms (record { den = a.den; nums = a.nums.items }) };

    ghost inverse = { λ v. record { den = v.den; nums = record { items = v.nums } } };
}

impl Prices {
    /// The prices with this denominator and these numerators, and None exactly where they are
    /// outside their limits.
    pub fn new(den: i64, nums: &[i128]) -> Option<Prices>
        ensures some { IfSome result
            (λ p. ArePriceTerms p × (pos p.den ≡ den) × (p.nums ≡ nums.now)) }
        ensures none { IfNone result
            ((p : exchange.Prices) → ArePriceTerms p → pos p.den ≡ den → p.nums ≡ nums.now → ⊥) }
    {
        if den < 1 || den > GREATEST_DENOMINATOR {
            return None;
        }
        if nums.is_empty() || nums.len() > usize::from(MOST_GOODS) {
            return None;
        }
        let mut terms = ArrayVec::new();
        for num in nums {
            if *num < 0 || *num > GREATEST_NUMERATOR {
                return None;
            }
            terms.push(*num as i64);
        }
        Some(Prices {
            den: den as u64,
            nums: terms,
        })
    }

    /// The prices with this denominator and these numerators.
    pub fn from_terms(den: u64, nums: ArrayVec<i64, 32>) -> Prices
        requires { ArePriceTerms (record { den = den; nums = nums.items }) }
        ensures { result ≡ record { den = den; nums = nums.items } }
    {
        Prices { den, nums }
    }

    /// The same prices once more.
    pub fn copy(&self) -> Prices
        ensures { result ≡ self.now }
    {
        let mut nums = ArrayVec::new();
        nums.try_extend_from_slice(&self.nums).unwrap();
        Prices {
            den: self.den,
            nums,
        }
    }

    /// The denominator.
    pub fn den(&self) -> i64
        ensures den { result ≡ pos self.now.den }
        ensures limits { ArePriceTerms self.now }
    {
        self.den as i64
    }

    /// The price of a good, times the denominator.
    pub fn num(&self, good: u8) -> i128
        requires { good < length self.now.nums }
        ensures num { result ≡ exchange.price_of self.now good }
        ensures limits { ArePriceTerms self.now }
    {
        i128::from(self.nums[good as usize])
    }

    /// All prices, times the denominator.
    pub fn nums(&self) -> &[i64]
        ensures nums { result.now ≡ self.now.nums }
        ensures limits { ArePriceTerms self.now }
    {
        self.nums.as_slice()
    }

    /// How many goods have a price.
    pub fn goods(&self) -> u8
        ensures goods { result ≡ length self.now.nums }
        ensures limits { ArePriceTerms self.now }
    {
        self.nums.len() as u8
    }
}
