//! The maker of an exchange.
ghost use Rattle.std.specs.Prelude.{◌≡◌, ◌≤◌, ◌<◌, [], None, length, IfOk, OnErr, IfErr, pos, false, true};
ghost use Rattle.std.specs.List.{position, list_any};
ghost use Rattle.std.specs.Str.{bytes_eq};
ghost use Rattle.ice_defs.specs.Exchange.{names_of, market_of};
ghost use Rattle.ice_defs.specs.Market.{owned_amount};
ghost use Rattle.ice_defs.specs.Lawful.{IsBidder, IsExchange, good_names};
ghost use Rattle.ice_defs.specs.Making.{good_refusal, bidder_refusal, exchange_refusal};
ghost use Rattle.ice_defs.specs.Bounds.{no_bounds};
ghost use Rattle.ice_trade.specs.Fault.{RefusedBy, TellsSale};
ghost use Rattle.ice_trade.specs.Parts.{IsUnfinished, no_exchange, with_good, with_bidder};

use crate::bidders::Bidders;
use crate::exchange::Exchange;
use crate::faults::MakeFault;
use crate::goods::Goods;
use crate::sale::{OverSold, over_sale};
use ice_defs::{MOST_BIDDERS, MOST_GOODS, MOST_NODES_OF_ALL};
use ice_terms::{Name, Settings};
use ice_tree::{Bounds, Tree};
use indexmap::IndexSet;
use std::alloc::{AllocError, Global};
use std::marker::Model;

/// An exchange that is being made: first its goods, and then its bidders. All memory is taken when
/// it is made.
pub struct ExchangeMaker {
    settings: Settings,
    goods: Goods,
    bidders: Bidders,
    good_numbers: IndexSet<Name>,
    bidder_numbers: IndexSet<Name>,
}

// By hand, so that each exit that drops one has one call to prove, and not all its parts.
impl Drop for ExchangeMaker {
    fn drop(self) {
        let ExchangeMaker {
            settings: _,
            goods: _,
            bidders: _,
            good_numbers: _,
            bidder_numbers: _,
        } = self;
    }
}

impl Model for ExchangeMaker {
    ghost use Rattle.ice_defs.specs.Exchange as exchange;
    ghost use Rattle.ice_trade.specs.Parts.{IsKept};

    ghost Value = { exchange.Exchange };

    ghost view = { λ m. record { settings = m.settings; goods = m.goods; bidders = m.bidders } };

    ghost invariant = { λ m. IsKept (record { settings = m.settings; goods = m.goods; bidders = m.bidders }) m.good_numbers m.bidder_numbers };
}

impl ExchangeMaker {
    /// A maker of an exchange with these settings, with no good and no bidder yet.
    pub fn new(alloc: Global, settings: Settings) -> Result<ExchangeMaker, AllocError>
        ensures { IfOk result (λ m. m ≡ no_exchange settings) }
    {
        let _weight = settings.weight;
        Ok(ExchangeMaker {
            settings,
            goods: Goods::new(alloc)?,
            bidders: Bidders::new(alloc)?,
            good_numbers: IndexSet::with_capacity(alloc, usize::from(MOST_GOODS))?,
            bidder_numbers: IndexSet::with_capacity(alloc, usize::from(MOST_BIDDERS))?,
        })
    }

    /// A maker with the same settings and goods, and no bidder yet.
    pub fn without_bidders(&self, alloc: Global) -> Result<ExchangeMaker, AllocError>
        ensures { IfOk result (λ m. m ≡ record self.now { bidders = [] }) }
    {
        let mut maker = ExchangeMaker::new(alloc, self.settings)?;
        for good in 0..self.goods() {
            maker.push_good(self.goods.name(good).copy(), self.goods.is_exact(good));
        }
        Ok(maker)
    }

    /// Its settings.
    pub fn settings(&self) -> Settings
        ensures { result ≡ self.now.settings }
    {
        self.settings
    }

    /// How many goods there are.
    pub fn goods(&self) -> u8
        ensures value { result ≡ length self.now.goods }
        ensures fits { result ≤ 32 }
        ensures lawful { IsUnfinished self.now }
    {
        self.goods.len()
    }

    /// How many bidders there are.
    pub fn bidders(&self) -> u8
        ensures value { result ≡ length self.now.bidders }
        ensures fits { result ≤ 40 }
    {
        self.bidders.len()
    }

    /// The number of the good with this name, and None exactly where there is none.
    pub fn find_good(&self, name: &str) -> Option<u8>
        ensures { result ≡ position (bytes_eq name.now) (good_names self.now) }
    {
        let number = self.good_numbers.get_index_of(&Name::new(name)?)?;
        Some(number as u8)
    }

    /// The number of the bidder with this name, and None exactly where there is none.
    pub fn find_bidder(&self, name: &str) -> Option<u8>
        ensures { result ≡ position (bytes_eq name.now) (names_of self.now) }
    {
        let number = self.bidder_numbers.get_index_of(&Name::new(name)?)?;
        Some(number as u8)
    }

    /// How many units of a good a bidder owns.
    #[tactic(auto, using(crate::proofs::Unfinished::owning))]
    pub fn owns(&self, bidder: u8, good: u8) -> u32
        requires bidder { bidder < length self.now.bidders }
        requires good { good < length self.now.goods }
        ensures value { pos result ≡ owned_amount (market_of self.now) bidder good }
        ensures fits { result ≤ 1000000 }
    {
        self.bidders.owns(bidder, good)
    }

    fn has_good(&self, name: &Name) -> bool
        ensures { result ≡ list_any (λ other. bytes_eq other.name name.now) self.now.goods }
    {
        self.good_numbers.contains(name)
    }

    fn check_good(&self, name: &str) -> Result<Name, MakeFault>
        ensures made { IfOk result (λ made. made ≡ name.now) }
        ensures refused { RefusedBy result (good_refusal self.now.goods self.now.bidders name.now) }
    {
        if self.bidders() > 0 {
            return Err(MakeFault::Late);
        }
        let Some(name) = Name::new(name) else {
            return Err(MakeFault::BadName);
        };
        if self.has_good(&name) {
            return Err(MakeFault::DuplicateGood);
        }
        if self.goods() >= MOST_GOODS {
            return Err(MakeFault::TooMany);
        }
        Ok(name)
    }

    fn push_good(&mut self, name: Name, exact: bool)
        requires { good_refusal self.old.goods self.old.bidders name ≡ None }
        ensures { self.new ≡ with_good self.old (record { name = name; exact = exact }) }
    {
        self.good_numbers.insert(name.copy()).unwrap();
        self.goods.push(name, exact);
    }

    fn add_good(&mut self, name: &str, exact: bool) -> Result<u8, MakeFault>
        ensures made { IfOk result (λ number. (number ≡ length self.old.goods)
            × (self.new ≡ with_good self.old (record { name = name.now; exact = exact }))) }
        ensures refused { RefusedBy result (good_refusal self.old.goods self.old.bidders name.now) }
        ensures unchanged { OnErr result (self.new ≡ self.old) }
    {
        let name = self.check_good(name)?;
        let number = self.goods();
        self.push_good(name, exact);
        Ok(number)
    }

    /// Adds a good of which some may be left over, and answers its number.
    ///
    /// It refuses, in this order, where a bidder stands (`Late`), where this is no name
    /// (`BadName`), where a good has the name (`DuplicateGood`), and where 32 goods stand
    /// (`TooMany`). A refusal leaves the maker as it was. It takes no memory.
    pub fn good(&mut self, name: &str) -> Result<u8, MakeFault>
        ensures made { IfOk result (λ number. (number ≡ length self.old.goods)
            × (self.new ≡ with_good self.old (record { name = name.now; exact = false }))) }
        ensures refused { RefusedBy result (good_refusal self.old.goods self.old.bidders name.now) }
        ensures unchanged { OnErr result (self.new ≡ self.old) }
    {
        self.add_good(name, false)
    }

    /// Adds a good of which what is bought must equal what is sold, and answers its number. It
    /// refuses as `good` does.
    pub fn exact_good(&mut self, name: &str) -> Result<u8, MakeFault>
        ensures made { IfOk result (λ number. (number ≡ length self.old.goods)
            × (self.new ≡ with_good self.old (record { name = name.now; exact = true }))) }
        ensures refused { RefusedBy result (good_refusal self.old.goods self.old.bidders name.now) }
        ensures unchanged { OnErr result (self.new ≡ self.old) }
    {
        self.add_good(name, true)
    }

    fn has_bidder(&self, name: &Name) -> bool
        ensures { result ≡ list_any (λ other. bytes_eq other.name name.now) self.now.bidders }
    {
        self.bidder_numbers.contains(name)
    }

    fn check_bidder(&self, name: &str, own: &[u32], tree: &Tree) -> Result<Name, MakeFault>
        requires { length own.now ≡ length self.now.goods }
        ensures made { IfOk result (λ made. made ≡ name.now) }
        ensures refused { RefusedBy result (bidder_refusal (length self.now.goods) self.now.bidders
            (record { name = name.now; own = own.now; tree = tree.now; bounds = no_bounds })) }
        ensures sale { IfErr result
            (λ fault. TellsSale fault (length self.now.goods) tree.now own.now) }
    {
        let Some(name) = Name::new(name) else {
            return Err(MakeFault::BadName);
        };
        if self.has_bidder(&name) {
            return Err(MakeFault::DuplicateBidder);
        }
        if self.bidders() >= MOST_BIDDERS
            || self.bidders.nodes() + tree.nodes() > MOST_NODES_OF_ALL
        {
            return Err(MakeFault::TooMany);
        }
        if let Some(OverSold { good, amount }) = over_sale(tree, own) {
            return Err(MakeFault::OverSale { good, amount });
        }
        Ok(name)
    }

    /// Adds a bidder with its owned amounts, one per good and each at most 1,000,000, its tree over
    /// these goods, and its opening bounds, and answers its number.
    ///
    /// It refuses, in this order, where this is no name (`BadName`), where a bidder has the name
    /// (`DuplicateBidder`), where 40 bidders stand or the trees would have more than 2,000 nodes
    /// together (`TooMany`), and where the tree may sell more of a good than is owned (`OverSale`,
    /// which names the least such good and its greatest sale). A refusal leaves the maker as it
    /// was, and drops the tree and the bounds. It takes no memory.
    pub fn bidder(
        &mut self,
        name: &str,
        own: &[u32],
        tree: Tree,
        bounds: Bounds,
    ) -> Result<u8, MakeFault>
        requires { IsBidder (length self.old.goods)
            (record { name = name.now; own = own.now; tree = tree; bounds = bounds }) }
        ensures made { IfOk result (λ number. (number ≡ length self.old.bidders)
            × (self.new ≡ with_bidder self.old
            (record { name = name.now; own = own.now; tree = tree; bounds = bounds }))) }
        ensures refused { RefusedBy result (bidder_refusal (length self.old.goods) self.old.bidders
            (record { name = name.now; own = own.now; tree = tree; bounds = bounds })) }
        ensures sale { IfErr result
            (λ fault. TellsSale fault (length self.old.goods) tree own.now) }
        ensures unchanged { OnErr result (self.new ≡ self.old) }
    {
        let name = self.check_bidder(name, own, &tree)?;
        let number = self.bidders();
        self.bidder_numbers.insert(name.copy()).unwrap();
        self.bidders.push(name, own, tree, bounds);
        Ok(number)
    }

    /// The exchange. It refuses where there is no good or no bidder (`Empty`).
    pub fn finish(self) -> Result<Exchange, MakeFault>
        ensures made { IfOk result (λ exchange. exchange ≡ self) }
        ensures lawful { IfOk result IsExchange }
        ensures refused { RefusedBy result (exchange_refusal self.goods self.bidders) }
    {
        if self.goods.len() == 0 || self.bidders.len() == 0 {
            return Err(MakeFault::Empty);
        }
        let ExchangeMaker {
            settings,
            goods,
            bidders,
            good_numbers: _,
            bidder_numbers: _,
        } = self;
        Ok(Exchange {
            settings,
            goods,
            bidders,
        })
    }
}
