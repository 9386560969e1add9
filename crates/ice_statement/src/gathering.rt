//! What is known of one bidder while the records of a journal are read.
ghost use Rattle.std.specs.Prelude.{◌≡◌, ◌+◌, ◌-◌, ◌<◌, ◌≤◌, ◌^◌};
ghost use Rattle.std.specs.Str.{bytes_eq};
ghost use Rattle.ice_journal.specs.Lines.{record_of};
ghost use Rattle.ice_statement_laws.specs.Gathering.{new_gathering, gathering_after, with_bidder, with_set};
ghost use Rattle.ice_statement_laws.specs.Gathering as spec;
ghost use Rattle.ice_statement.specs.Shape.{slot_of};

use ice_journal::Line;
use ice_set::NodeSet;
use ice_terms::Name;
use std::marker::Model;

/// Where the sets of a group go.
#[derive(Clone, Copy)]
pub(crate) enum Slot {
    Kept,
    Offered,
    Nowhere,
}

/// What is known of the bidder with this name: how many bidders came, and its number among them, if
/// it came; whether the last bidder or submission is its own; where the sets go, and how many came;
/// its final and its provisional set.
#[derive(Drop)]
pub(crate) struct Gathering<'a> {
    name: &'a [u8],
    bidders: u64,
    number: u64,
    found: bool,
    is_own: bool,
    slot: Slot,
    sets: u64,
    kept: NodeSet,
    offered: NodeSet,
}

impl<'a> Model for Gathering<'a> {
    ghost use Rattle.ice_statement_laws.specs.Gathering as spec;
    ghost use Rattle.ice_statement.specs.Shape.{slot_of};

    ghost Value = { spec.Gathering };

    ghost view = { λ g. record {
      name = g.name.now;
      bidders = g.bidders;
      number = g.number;
      found = g.found;
      is_own = g.is_own;
      slot = slot_of g.slot;
      sets = g.sets;
      kept = g.kept;
      offered = g.offered;
    } };
}

impl<'a> Gathering<'a> {
    /// Before the first record.
    pub(crate) fn new(name: &'a [u8]) -> Self
        ensures { result ≡ new_gathering name.now }
    {
        Gathering {
            name,
            bidders: 0,
            number: 0,
            found: false,
            is_own: false,
            slot: Slot::Nowhere,
            sets: 0,
            kept: NodeSet::empty(0),
            offered: NodeSet::empty(0),
        }
    }

    /// Whether the name is the bidder's.
    pub(crate) fn has_name(&self, name: &Name) -> bool
        ensures { result ≡ bytes_eq self.now.name name.now }
    {
        self.name == name.bytes()
    }

    /// Whether the last bidder or submission is the bidder's.
    pub(crate) fn is_own(&self) -> bool
        ensures { result ≡ self.now.is_own }
    {
        self.is_own
    }

    /// Whether a bidder has the name.
    pub(crate) fn found(&self) -> bool
        ensures { result ≡ self.now.found }
    {
        self.found
    }

    /// The bidder's final set.
    pub(crate) fn kept(&self) -> &NodeSet
        ensures { result.now ≡ self.now.kept }
    {
        &self.kept
    }

    /// The bidder's provisional set.
    pub(crate) fn offered(&self) -> &NodeSet
        ensures { result.now ≡ self.now.offered }
    {
        &self.offered
    }

    /// A bidder.
    fn take_bidder(&mut self, name: &Name)
        requires { self.old.bidders < 2 ^ 64 - 1 }
        ensures { self.new ≡ with_bidder self.old name.now }
    {
        self.is_own = self.has_name(name);
        if self.is_own {
            self.number = self.bidders;
            self.found = true;
        }
        self.bidders += 1;
    }

    /// A group begins, whose sets go here.
    fn begin(&mut self, slot: Slot)
        ensures { self.new ≡ record self.old { slot = slot_of slot; sets = 0 } }
    {
        self.slot = slot;
        self.sets = 0;
    }

    /// A set.
    fn take_set(&mut self, set: &NodeSet)
        requires { self.old.sets < 2 ^ 64 - 1 }
        ensures { self.new ≡ with_set self.old set.now }
    {
        if self.sets == self.number {
            match self.slot {
                Slot::Kept => self.kept = *set,
                Slot::Offered => self.offered = *set,
                Slot::Nowhere => {}
            }
        }
        self.sets += 1;
    }

    /// A record.
    pub(crate) fn take(&mut self, line: &Line)
        requires bidders { self.old.bidders < 2 ^ 64 - 1 }
        requires sets { self.old.sets < 2 ^ 64 - 1 }
        ensures after { self.new ≡ gathering_after self.old (record_of line.now) }
        ensures bidders { self.new.bidders ≤ self.old.bidders + 1 }
        ensures sets { self.new.sets ≤ self.old.sets + 1 }
    {
        match line {
            Line::Bidder { name, own: _ } => self.take_bidder(name),
            Line::Final { value: _ } => self.begin(Slot::Kept),
            Line::Rival { value: _ } => self.begin(Slot::Nowhere),
            Line::Provisional { value: _ } => self.begin(Slot::Offered),
            Line::Without {
                bidder: _,
                value: _,
            } => self.begin(Slot::Nowhere),
            Line::Set(set) => self.take_set(set),
            Line::Submit { name, lo: _, hi: _ } => self.is_own = self.has_name(name),
            _ => {}
        }
    }
}
