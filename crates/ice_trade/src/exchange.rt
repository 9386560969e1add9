//! An exchange.
ghost use Rattle.std.specs.Prelude.{◌≡◌, ◌≤◌, ◌<◌, ◌↔◌, [], ℕ, IsOk, IfOk, IfErr, length, pos, slice_index_or};
ghost use Rattle.std.specs.List.{position};
ghost use Rattle.std.specs.Str.{bytes_eq};
ghost use Rattle.ice_defs.specs.Exchange.{names_of, trees_of, exact_of, opening_bounds, market_of};
ghost use Rattle.ice_defs.specs.Market.{owned_amount};
ghost use Rattle.ice_defs.specs.Set.{IsSatisfied};
ghost use Rattle.ice_defs.specs.Trade.{is_exact, tree_of, set_of, total_units, IsFeasible};
ghost use Rattle.ice_defs.specs.Weighing.{weighted_weights};
ghost use Rattle.ice_tree.specs.Alike.{HasWeightPerNode};
ghost use Rattle.ice_trade.specs.Excess.{IsExcess};
ghost use Rattle.ice_defs.specs.Lawful.{IsExchange, good_names};

use crate::bidders::Bidders;
use crate::faults::TradeFault;
use crate::feasible::first_excess;
use crate::goods::Goods;
use ice_terms::{Name, Settings};
use ice_tree::{AllWeights, Assignment, Bounds, TotalUnits, Tree};
use std::alloc::{AllocError, Global};
use std::marker::Model;

/// An exchange: its settings, 1 to 32 goods, and 1 to 40 bidders with their owned amounts, trees
/// and opening bounds. No bidder's tree may sell more of a good than the bidder owns.
pub struct Exchange {
    pub(crate) settings: Settings,
    pub(crate) goods: Goods,
    pub(crate) bidders: Bidders,
}

// By hand, so that each exit that drops one has one call to prove, and not all its parts.
impl Drop for Exchange {
    fn drop(self) {
        let Exchange {
            settings: _,
            goods: _,
            bidders: _,
        } = self;
    }
}

impl Model for Exchange {
    ghost use Rattle.ice_defs.specs.Exchange as exchange;
    ghost use Rattle.ice_defs.specs.Lawful.{IsExchange};

    ghost Value = { exchange.Exchange };

    ghost view = { λ e. record { settings = e.settings; goods = e.goods; bidders = e.bidders } };

    ghost invariant = { λ e. IsExchange (record { settings = e.settings; goods = e.goods; bidders = e.bidders }) };
}

impl Exchange {
    /// Its settings.
    pub fn settings(&self) -> Settings
        ensures { result ≡ self.now.settings }
    {
        self.settings
    }

    /// How many goods it has, 1 to 32.
    pub fn goods(&self) -> u8
        ensures value { result ≡ length self.now.goods }
        ensures lawful { IsExchange self.now }
    {
        self.goods.len()
    }

    /// How many bidders it has, 1 to 40.
    pub fn bidders(&self) -> u8
        ensures value { result ≡ length self.now.bidders }
        ensures lawful { IsExchange self.now }
    {
        self.bidders.len()
    }

    /// The name of a good.
    pub fn good_name(&self, good: u8) -> &Name
        requires { good < length self.now.goods }
        ensures { result.now ≡ slice_index_or (good_names self.now) good [] }
    {
        self.goods.name(good)
    }

    /// The name of a bidder.
    pub fn bidder_name(&self, bidder: u8) -> &Name
        requires { bidder < length self.now.bidders }
        ensures { result.now ≡ slice_index_or (names_of self.now) bidder [] }
    {
        self.bidders.name(bidder)
    }

    /// How many units of a good a bidder owns.
    #[tactic(auto, using(crate::proofs::Unfinished::owning))]
    pub fn owns(&self, bidder: u8, good: u8) -> u32
        requires bidder { bidder < length self.now.bidders }
        requires good { good < length self.now.goods }
        ensures value { pos result ≡ owned_amount (market_of self.now) bidder good }
        ensures fits { result ≤ 1000000 }
    {
        self.bidders.owns(bidder, good)
    }

    /// Whether what is bought of a good must equal what is sold of it.
    pub fn is_exact(&self, good: u8) -> bool
        requires { good < length self.now.goods }
        ensures { result ≡ is_exact (exact_of self.now) good }
    {
        self.goods.is_exact(good)
    }

    /// For each good whether what is bought of it must equal what is sold.
    pub fn exact(&self) -> &[bool]
        ensures { result.now ≡ exact_of self.now }
    {
        self.goods.exact()
    }

    /// The trees of the bidders.
    pub fn trees(&self) -> &[Tree]
        ensures value { result.now ≡ trees_of self.now }
        ensures lawful { IsExchange self.now }
    {
        self.bidders.trees()
    }

    /// The tree of a bidder.
    pub fn tree(&self, bidder: u8) -> &Tree
        requires { bidder < length self.now.bidders }
        ensures { result.now ≡ tree_of (trees_of self.now) bidder }
    {
        &self.trees()[bidder as usize]
    }

    /// The opening bounds of the bidders.
    pub fn bounds(&self) -> &[Bounds]
        ensures value { result.now ≡ opening_bounds self.now }
        ensures lawful { IsExchange self.now }
    {
        self.bidders.bounds()
    }

    /// The weighted values of all nodes at the opening bounds, in hundredths: the settings' weight
    /// times the lower value, and the rest of 100 times the upper one.
    pub fn weighted_values(&self, alloc: Global) -> Result<AllWeights, AllocError>
        ensures value { IfOk result (λ w. w ≡ weighted_weights self.now.settings.weight
            (opening_bounds self.now)) }
        ensures nodes { IfOk result (HasWeightPerNode (trees_of self.now)) }
        ensures lawful { IsExchange self.now }
    {
        let mut weights = AllWeights::new(alloc, self.trees())?;
        weights.fill_weighted(self.bounds(), self.settings().weight);
        Ok(weights)
    }

    /// The number of the good with this name, and None exactly where there is none.
    pub fn find_good(&self, name: &str) -> Option<u8>
        ensures { result ≡ position (bytes_eq name.now) (good_names self.now) }
    {
        self.goods.find(name)
    }

    /// The number of the bidder with this name, and None exactly where there is none.
    pub fn find_bidder(&self, name: &str) -> Option<u8>
        ensures { result ≡ position (bytes_eq name.now) (names_of self.now) }
    {
        self.bidders.find(name)
    }

    /// Whether the units of these sets balance: at most 0 of each good in sum, and exactly 0 of
    /// each exact one. Else it names the least good at fault, and the sum of its units. It takes no
    /// memory.
    pub fn feasible(&self, sets: &Assignment) -> Result<(), TradeFault>
        requires count { length sets.now ≡ length self.now.bidders }
        requires satisfied { (b : ℕ) → b < length self.now.bidders
            → IsSatisfied (tree_of (trees_of self.now) b) (set_of sets.now b) }
        ensures feasible { IsOk result
            ↔ IsFeasible (trees_of self.now) (exact_of self.now) sets.now }
        ensures excess { IfErr result (λ fault. IsExcess (exact_of self.now)
            (total_units (trees_of self.now) sets.now) fault.good fault.excess) }
    {
        let units = TotalUnits::of(self.trees(), sets);
        match first_excess(&units, self.exact()) {
            None => Ok(()),
            Some(fault) => Err(fault),
        }
    }
}
