//! The section of a journal or file that describes its exchange.
ghost use Rattle.std.specs.Prelude.{◌≡◌, ◌<◌, ◌≤◌, [], length, IsTrue, OnOk, OnErr, IfOk, IfErr, Ok as Found, None};
ghost use Rattle.ice_defs.specs.Exchange.{AreSettings};
ghost use Rattle.ice_defs.specs.Lawful.{IsExchange};
ghost use Rattle.ice_defs.specs.Making.{good_refusal, bidder_refusal};
ghost use Rattle.ice_trade.specs.Parts.{with_good, with_bidder};
ghost use Rattle.ice_journal.specs.Lines.{record_of};
ghost use Rattle.ice_journal.specs.Nodes.{node_record};
ghost use Rattle.ice_journal.specs.Records as line;
ghost use Rattle.ice_journal.specs.Ranges.{IsName, IsRecord};
ghost use Rattle.std.specs.List.{AllByRecursion};
ghost use Rattle.ice_section.specs.Section.{no_section, may_end, exchange_in, names_no_good, take_settings, take_good, take_bidder, take_node, take_record};
ghost use Rattle.ice_section.specs.Refusal.{IsRefusal, IsMakerRefusal, HasNumber, HasNumberUnlessSettings};

use crate::draft::Draft;
use crate::faults::SectionFault;
use arrayvec::ArrayVec;
use ice_defs::NodeKind;
use ice_journal::Line;
use ice_terms::{Name, Settings};
use ice_trade::{Exchange, ExchangeMaker};
use std::alloc::{AllocError, Global};
use std::marker::Model;

/// The section of a journal or file that describes its exchange, as far as its records were taken.
/// After a refusal it takes no more: what it then answers is not said.
pub struct Section {
    alloc: Global,
    maker: Option<ExchangeMaker>,
    draft: Option<Draft>,
}

// By hand, so that each exit that drops one has one call to prove, and not all its parts.
impl Drop for Section {
    fn drop(self) {
        let Section {
            alloc: _,
            maker: _,
            draft: _,
        } = self;
    }
}

impl Model for Section {
    ghost use Rattle.ice_section.specs.Section as told;

    ghost Value = { told.Section };

    ghost use Rattle.ice_section.specs.Kept.{section_from, IsHeld};

    ghost view = { λ s. section_from s.maker s.draft };

    ghost invariant = { λ s. IsHeld s.maker s.draft };
}

fn add_good(maker: &mut ExchangeMaker, name: &Name, exact: bool) -> Result<(), SectionFault>
    ensures made { OnOk result ((good_refusal maker.old.goods maker.old.bidders name.now ≡ None)
        × (maker.new ≡ with_good maker.old (record { name = name.now; exact = exact }))) }
    ensures refused { IfErr result
        (IsMakerRefusal (good_refusal maker.old.goods maker.old.bidders name.now)) }
    ensures unchanged { OnErr result (maker.new ≡ maker.old) }
    ensures name { IsName name.now }
{
    let made = if exact {
        maker.exact_good(name.text())
    } else {
        maker.good(name.text())
    };
    match made {
        Ok(_) => Ok(()),
        Err(fault) => Err(SectionFault::Make(fault)),
    }
}

fn add_bidder(maker: &mut ExchangeMaker, draft: Draft) -> Result<(), SectionFault>
    requires goods { draft.goods ≡ length maker.old.goods }
    requires closed { draft.draft.opened ≡ [] }
    requires some { 0 < length draft.draft.bidder.tree }
    requires count { length draft.draft.bidder.own ≡ length maker.old.goods }
    requires own { AllByRecursion (λ amount. amount ≤ 1000000) draft.draft.bidder.own }
    // On success
    ensures made { OnOk result
        ((bidder_refusal (length maker.old.goods) maker.old.bidders draft.draft.bidder ≡ None)
        × (maker.new ≡ with_bidder maker.old draft.draft.bidder)) }
    // On refusal
    ensures refused { IfErr result
        (IsMakerRefusal (bidder_refusal (length maker.old.goods) maker.old.bidders
        draft.draft.bidder)) }
    ensures unchanged { OnErr result (maker.new ≡ maker.old) }
{
    let (name, own, tree, bounds) = draft.finish();
    match maker.bidder(name.text(), own.as_slice(), tree, bounds) {
        Ok(_) => Ok(()),
        Err(fault) => Err(SectionFault::Make(fault)),
    }
}

fn copy_of(own: &ArrayVec<u32, 32>) -> ArrayVec<u32, 32>
    ensures { result.items ≡ own.now.items }
{
    let mut copy = ArrayVec::new();
    copy.try_extend_from_slice(own.as_slice()).unwrap();
    copy
}

/// Whether a leaf is of a good that isn't there.
fn names_no_good(kind: NodeKind, goods: u8) -> bool
    ensures { result ≡ names_no_good kind goods }
{
    match kind {
        NodeKind::Choose { .. } => false,
        NodeKind::Buy { good, .. } | NodeKind::Sell { good, .. } => good >= goods,
    }
}

impl Section {
    /// No record yet. It takes its memory with the record of the settings.
    pub fn new(alloc: Global) -> Section
        ensures { result ≡ no_section }
    {
        Section {
            alloc,
            maker: None,
            draft: None,
        }
    }

    /// Whether the section may end after the records so far: a bidder is there, and no tree is
    /// incomplete.
    pub fn may_end(&self) -> bool
        ensures { result ≡ may_end self.now }
    {
        match &self.maker {
            Some(maker) => maker.bidders() > 0 && self.draft.is_none(),
            None => false,
        }
    }

    fn goods(&self) -> u8
        ensures value { result ≡ length self.now.goods }
        ensures fits { result ≤ 32 }
    {
        match &self.maker {
            Some(maker) => maker.goods(),
            None => 0,
        }
    }

    fn take_settings(&mut self, settings: &Settings) -> Result<(), SectionFault>
        requires { AreSettings settings.now }
        ensures taken { OnOk result (take_settings self.old settings.now ≡ Found self.new) }
        ensures refused { IfErr result (IsRefusal (take_settings self.old settings.now)) }
    {
        if self.maker.is_some() {
            return Err(SectionFault::Order);
        }
        let Ok(maker) = ExchangeMaker::new(self.alloc, *settings) else {
            return Err(SectionFault::NoMemory);
        };
        self.maker = Some(maker);
        Ok(())
    }

    fn take_good(&mut self, name: &Name, exact: bool) -> Result<(), SectionFault>
        ensures taken { OnOk result (take_good self.old (record { name = name.now; exact = exact })
            ≡ Found self.new) }
        ensures refused { IfErr result
            (IsRefusal (take_good self.old (record { name = name.now; exact = exact }))) }
        ensures numbered { IfErr result HasNumber }
    {
        let Some(maker) = &mut self.maker else {
            return Err(SectionFault::Order);
        };
        if maker.bidders() > 0 || self.draft.is_some() {
            return Err(SectionFault::Order);
        }
        add_good(maker, name, exact)
    }

    fn take_bidder(&mut self, name: &Name, own: &ArrayVec<u32, 32>) -> Result<(), SectionFault>
        requires { IsRecord (line.bidder name.now own.now.items) }
        ensures taken { OnOk result (take_bidder self.old name.now own.now.items ≡ Found self.new) }
        ensures refused { IfErr result (IsRefusal (take_bidder self.old name.now own.now.items)) }
        ensures numbered { IfErr result HasNumber }
    {
        let goods = self.goods();
        if goods == 0 || self.draft.is_some() {
            return Err(SectionFault::Order);
        }
        if own.len() != goods as usize {
            return Err(SectionFault::Count);
        }
        self.draft = Some(Draft::new(goods, name.copy(), copy_of(own)));
        Ok(())
    }

    fn take_node(
        &mut self,
        kind: NodeKind,
        children: u16,
        lo: i64,
        hi: i64,
    ) -> Result<(), SectionFault>
        requires { IsRecord (node_record kind children lo hi) }
        ensures taken { OnOk result (take_node self.old kind children lo hi ≡ Found self.new) }
        ensures refused { IfErr result (IsRefusal (take_node self.old kind children lo hi)) }
        ensures numbered { IfErr result HasNumber }
    {
        let goods = self.goods();
        let Some(draft) = &mut self.draft else {
            return Err(SectionFault::Order);
        };
        if names_no_good(kind, goods) {
            return Err(SectionFault::NoGood);
        }
        if let Err(fault) = draft.node(kind, children, lo, hi) {
            self.draft = None;
            return Err(SectionFault::Tree(fault));
        }
        if !draft.is_closed() {
            return Ok(());
        }
        match (&mut self.maker, self.draft.take()) {
            (Some(maker), Some(draft)) => add_bidder(maker, draft),
            _ => unreachable!(),
        }
    }

    /// Takes the next record, whose numbers are in the ranges of their fields.
    ///
    /// It refuses, in this order, where the record may not stand here (`Order`), where the owned
    /// amounts of a bidder are not as many as the goods (`Count`), where a node is of a good that
    /// is not there (`NoGood`), where the tree's maker refuses a node, or the close of a node with
    /// its last child (`Tree`), and where the exchange's maker refuses a good, or a bidder with its
    /// whole tree (`Make`). Want of memory comes with the settings alone.
    pub fn take(&mut self, line: &Line) -> Result<(), SectionFault>
        requires { IsRecord (record_of line.now) }
        ensures taken { OnOk result (take_record self.old (record_of line.now) ≡ Found self.new) }
        ensures refused { IfErr result (IsRefusal (take_record self.old (record_of line.now))) }
        ensures memory { IfErr result (HasNumberUnlessSettings (record_of line.now)) }
    {
        match line {
            Line::Settings(settings) => self.take_settings(settings),
            Line::Good(name) => self.take_good(name, false),
            Line::Exact(name) => self.take_good(name, true),
            Line::Bidder { name, own } => self.take_bidder(name, own),
            Line::Node {
                kind,
                children,
                lo,
                hi,
            } => self.take_node(*kind, *children, *lo, *hi),
            _ => Err(SectionFault::Order),
        }
    }

    /// The exchange that the records describe.
    pub fn finish(self) -> Result<Exchange, AllocError>
        requires { IsTrue (may_end self) }
        ensures exchange { IfOk result (λ exchange. exchange ≡ exchange_in self) }
        ensures lawful { IfOk result IsExchange }
    {
        let Section {
            alloc: _,
            maker,
            draft: _,
        } = self;
        let Some(maker) = maker else { unreachable!() };
        match maker.finish() {
            Ok(exchange) => Ok(exchange),
            Err(_) => Err(AllocError),
        }
    }
}
