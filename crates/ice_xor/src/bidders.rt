//! The bidders of flat bids.
ghost use Rattle.std.specs.Prelude.{◌≡◌, ◌≤◌, ◌+◌, length, MatchResult, OnOk, IfOk, IfErr};
ghost use Rattle.serde_json.specs.View.{view};
ghost use Rattle.ice_defs.specs.FileFault.{Path};
ghost use Rattle.ice_defs.specs.Lawful.{good_names};
ghost use Rattle.ice_read.specs.Owned.{AreNames};
ghost use Rattle.ice_xor.specs.Forms.{form_word, form_any, IsForm};
ghost use Rattle.ice_xor.specs.FlatFile.{flat_bidders_with, flat_bidders_at};
ghost use Rattle.ice_xor.specs.Lawful.{AreFlatBidders};
ghost use Rattle.ice_xor.specs.Reading.{IsFaultOrMemory};

use crate::names::check_name;
use crate::packages::{Package, packages_member};
use arrayvec::ArrayVec;
use ice_read::parts::{array_of, has_exactly, own_member, text_member};
use ice_read::{ReadCause, ReadFault};
use ice_terms::Name;
use ice_trade::ExchangeMaker;
use serde_json::Value;
use std::alloc::Global;
use std::marker::Model;

/// A bidder: its name, what it owns of each good, and its packages, of which it takes at most one,
/// or any.
#[derive(Drop)]
pub struct FlatBidder {
    pub(crate) name: Name,
    pub(crate) own: ArrayVec<u32, 32>,
    pub(crate) form: Form,
    pub(crate) packages: Vec<Package>,
}

impl Model for FlatBidder {
    ghost use Rattle.ice_xor.specs.FlatBids as flat;
    ghost use Rattle.ice_xor.specs.Forms.{form_any};

    ghost Value = { flat.FlatBidder };

    ghost view = { λ b. record { name = b.name; own = b.own.items; any = form_any b.form; packages = b.packages.items } };
}

impl FlatBidder {
    /// Its name.
    pub fn name(&self) -> &Name
        ensures { result.now ≡ self.now.name }
    {
        &self.name
    }

    /// What it owns of each good.
    pub fn own(&self) -> &[u32]
        ensures { result.now ≡ self.now.own }
    {
        &self.own
    }

    /// Whether it may take any number of its packages, and not at most one.
    pub fn takes_any(&self) -> bool
        ensures { result ≡ self.now.any }
    {
        self.form.takes_any()
    }

    /// Its packages.
    pub fn packages(&self) -> &[Package]
        ensures { result.now ≡ self.now.packages }
    {
        &self.packages
    }
}

/// How many packages a bidder may take: at most one, or any number.
#[derive(Clone, Copy)]
pub(crate) enum Form {
    /// At most one of them.
    Xor,
    /// Any number of them.
    Or,
}

impl Form {
    /// The member that has the packages.
    fn word(self) -> &'static str
        ensures word { result.now ≡ form_word self }
        ensures short { length result.now ≤ 3 }
    {
        match self {
            Form::Xor => "xor",
            Form::Or => "or",
        }
    }

    /// Whether it may take any number.
    fn takes_any(self) -> bool
        ensures { result ≡ form_any self }
    {
        matches!(self, Form::Or)
    }
}

/// The form of a bidder, by its members.
fn form_of(value: &Value) -> Option<Form>
    ensures { IsForm result (view value.now) }
{
    if has_exactly(value, &["name", "own", "xor"]) {
        return Some(Form::Xor);
    }
    if has_exactly(value, &["name", "own", "or"]) {
        return Some(Form::Or);
    }
    None
}

/// Takes a bidder.
fn take_bidder(
    alloc: Global,
    exchange: &ExchangeMaker,
    bidders: &mut Vec<FlatBidder>,
    value: &Value,
) -> Result<(), ReadFault>
    requires names { AreNames (good_names exchange.now) }
    requires lawful { AreFlatBidders (length exchange.now.goods) bidders.old.items }
    ensures taken { OnOk result ((path : Path)
        → flat_bidders_with (good_names exchange.now) path bidders.old.items (view value.now)
        ≡ Ok bidders.new.items) }
    ensures refused { IfErr result (λ fault. IsFaultOrMemory fault
        (λ path. flat_bidders_with (good_names exchange.now) path bidders.old.items (view value.now))) }
    ensures one { OnOk result (length bidders.new.items ≡ length bidders.old.items + 1) }
    ensures lawful { OnOk result (AreFlatBidders (length exchange.now.goods) bidders.new.items) }
    ensures short { IfErr result (λ fault. length fault.place ≤ 64) }
{
    let Some(form) = form_of(value) else {
        return Err(ReadFault::of(ReadCause::Shape));
    };
    let name = text_member(value, "name")?;
    let own = own_member(exchange, value, "own")?;
    let packages = packages_member(alloc, exchange, value, form.word())?;
    let name = match check_name(bidders, name) {
        Ok(name) => name,
        Err(fault) => return Err(ReadFault::of(ReadCause::Make(fault))),
    };
    let bidder = FlatBidder {
        name,
        own,
        form,
        packages,
    };
    let Ok(()) = bidders.push(bidder) else {
        return Err(ReadFault::of(ReadCause::NoMemory));
    };
    Ok(())
}

/// The bidders of a file, over the goods of an exchange that is being made.
pub(crate) fn bidders_of(
    alloc: Global,
    exchange: &ExchangeMaker,
    value: &Value,
) -> Result<Vec<FlatBidder>, ReadFault>
    requires { AreNames (good_names exchange.now) }
    ensures reading { MatchResult result (λ bidders. (path : Path)
        → flat_bidders_at exchange.now.goods path (view value.now) ≡ Ok bidders.items)
        (λ fault. IsFaultOrMemory fault
        (λ path. flat_bidders_at exchange.now.goods path (view value.now))) }
    ensures lawful { IfOk result
        (λ bidders. AreFlatBidders (length exchange.now.goods) bidders.items) }
    ensures short { IfErr result (λ fault. length fault.place ≤ 70) }
{
    let items = array_of(value)?;
    let mut bidders = Vec::new(alloc);
    for (index, item) in items.iter().enumerate() {
        if let Err(fault) = take_bidder(alloc, exchange, &mut bidders, item) {
            return Err(fault.at(index as u16));
        }
    }
    Ok(bidders)
}
