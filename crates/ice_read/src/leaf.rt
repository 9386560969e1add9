//! The leaves of a tree.
ghost use Rattle.std.specs.Prelude.{◌≡◌, ◌≤◌, ◌+◌, max, false, OnOk, IfErr, length};
ghost use Rattle.serde_json.specs.View.{view};
ghost use Rattle.ice_defs.specs.FileFault.{Path};
ghost use Rattle.ice_defs.specs.Lawful.{good_names};
ghost use Rattle.ice_defs.specs.Making.{is_complete};
ghost use Rattle.ice_tree.specs.Making.{IsLeaf};
ghost use Rattle.ice_read.specs.Values.{of_member};
ghost use Rattle.ice_read.specs.TreeFile.{value_at};
ghost use Rattle.ice_read.specs.Reading.{side_word, side_kind, made_so_far, leaf_below};
ghost use Rattle.ice_read.specs.Fault.{IsFault, IsReading};

use crate::cause::ReadCause;
use crate::fault::ReadFault;
use crate::goods::good_member;
use crate::limits::MOST_UNITS;
use crate::values::{natural_member, whole_member};
use ice_defs::GREATEST_VALUE;
use ice_trade::ExchangeMaker;
use ice_tree::{NodeKind, TreeMaker};
use serde_json::Value;

/// What a leaf does with its good.
#[derive(Clone, Copy)]
pub(crate) enum Side {
    Buy,
    Sell,
}

impl Side {
    /// The member that names the good.
    fn word(self) -> &'static str
        ensures { result.now ≡ side_word self }
    {
        match self {
            Side::Buy => "buy",
            Side::Sell => "sell",
        }
    }

    fn kind(self, good: u8, units: u16) -> NodeKind
        ensures kind { result ≡ side_kind self good units }
        ensures leaf { IsLeaf result }
    {
        match self {
            Side::Buy => NodeKind::Buy { good, units },
            Side::Sell => NodeKind::Sell { good, units },
        }
    }
}

/// A value of a node, in a member.
pub fn value_member(value: &Value, name: &str) -> Result<i64, ReadFault>
    requires { length name.now ≤ 32 }
    ensures reading { IsReading result (λ path. of_member path (view value.now) name.now value_at) }
    ensures short { IfErr result (λ fault. length fault.place ≤ length name.now + 1) }
{
    whole_member(value, name, -GREATEST_VALUE, GREATEST_VALUE)
}

/// Takes a leaf into a tree that is being made.
pub(crate) fn take_leaf(
    exchange: &ExchangeMaker,
    maker: &mut TreeMaker,
    value: &Value,
    side: Side,
) -> Result<(), ReadFault>
    requires goods { maker.old.goods ≡ max 1 (length exchange.now.goods) }
    requires going { is_complete maker.old.draft ≡ false }
    requires deep { length maker.old.draft.opened ≤ 16 }
    ensures taken { OnOk result ((path : Path)
        → leaf_below (good_names exchange.now) maker.old.draft side path (view value.now)
        ≡ Ok (made_so_far maker.new.draft)) }
    ensures refused { IfErr result (λ fault. IsFault fault
        (λ path. leaf_below (good_names exchange.now) maker.old.draft side path (view value.now))) }
    ensures same { OnOk result (maker.new
        ≡ record maker.old { draft = record maker.new.draft { opened = maker.old.draft.opened } }) }
    ensures short { IfErr result (λ fault. length fault.place ≤ 9) }
{
    let good = good_member(exchange, value, side.word())?;
    let units = natural_member(value, "units", 1, MOST_UNITS)?;
    let lo = value_member(value, "lo")?;
    let hi = value_member(value, "hi")?;
    match maker.leaf(side.kind(good, units as u16), lo, hi) {
        Ok(()) => Ok(()),
        Err(fault) => Err(ReadFault::of(ReadCause::Tree(fault))),
    }
}
