//! The choose nodes of a tree.
ghost use Rattle.std.specs.Prelude.{◌≡◌, ◌≤◌, ◌+◌, ◌∷◌, List, ℕ, pos, false, OnOk, IfOk, IfErr, MatchResult, length};
ghost use Rattle.serde_json.specs.View.{view, items_view};
ghost use Rattle.ice_defs.specs.FileFault.{Path};
ghost use Rattle.ice_defs.specs.Making.{is_complete};
ghost use Rattle.ice_read.specs.Values.{of_member, whole_of, at_index};
ghost use Rattle.ice_read.specs.TreeFile as file;
ghost use Rattle.ice_read.specs.TreeFile.{interval_at};
ghost use Rattle.ice_read.specs.Reading.{made_so_far, opened_below};
ghost use Rattle.ice_read.specs.Fault.{IsFault};

use crate::cause::ReadCause;
use crate::fault::ReadFault;
use crate::leaf::value_member;
use crate::values::{array_member, array_of, member, natural_of};
use ice_tree::TreeMaker;
use serde_json::Value;

/// How many children may be chosen.
#[derive(Clone, Copy)]
struct Interval {
    least: u16,
    most: u16,
}

/// A number of an interval, at this index.
fn bound_of(value: &Value, index: u16) -> Result<u16, ReadFault>
    ensures reading { MatchResult result (λ number. (path : Path)
        → whole_of (at_index path index) (pos 0) (pos 199) (view value.now) ≡ Ok (pos number))
        (λ fault. IsFault fault (λ path.
        whole_of (at_index path index) (pos 0) (pos 199) (view value.now))) }
    ensures short { IfErr result (λ fault. length fault.place ≤ 6) }
{
    match natural_of(value, 0, 199) {
        Ok(number) => Ok(number as u16),
        Err(fault) => Err(fault.at(index)),
    }
}

fn interval_of(value: &Value) -> Result<Interval, ReadFault>
    ensures reading { MatchResult result (λ interval. (path : Path)
        → interval_at path (view value.now)
        ≡ Ok (record { least = interval.least; most = interval.most }))
        (λ fault. IsFault fault (λ path. interval_at path (view value.now))) }
    ensures short { IfErr result (λ fault. length fault.place ≤ 6) }
{
    match array_of(value)?.as_slice() {
        [least, most] => {
            let least = bound_of(least, 0)?;
            let most = bound_of(most, 1)?;
            Ok(Interval { least, most })
        }
        _ => Err(ReadFault::of(ReadCause::Shape)),
    }
}

fn interval_member(value: &Value, name: &str) -> Result<Interval, ReadFault>
    requires { length name.now ≤ 32 }
    ensures reading { MatchResult result (λ interval. (path : Path)
        → of_member path (view value.now) name.now interval_at
        ≡ Ok (record { least = interval.least; most = interval.most }))
        (λ fault. IsFault fault (λ path. of_member path (view value.now) name.now interval_at)) }
    ensures short { IfErr result (λ fault. length fault.place ≤ length name.now + 7) }
{
    match interval_of(member(value, name)?) {
        Ok(interval) => Ok(interval),
        Err(fault) => Err(fault.under(name)),
    }
}

/// Opens a choose node in a tree that is being made, and gives the values of its children.
pub(crate) fn open_choose<'a>(
    maker: &mut TreeMaker,
    value: &'a Value,
) -> Result<&'a Vec<Value>, ReadFault>
    requires going { is_complete maker.old.draft ≡ false }
    requires deep { length maker.old.draft.opened ≤ 16 }
    ensures opened { IfOk result (λ items. (interval : file.Interval)
        × ((goods : List (List ℕ)) (path : Path)
        → opened_below goods maker.old.draft path (view value.now)
        ≡ Ok
        (record { interval = interval; items = items_view items.now.items; made = made_so_far maker.new.draft }))) }
    ensures refused { IfErr result (λ fault. (goods : List (List ℕ))
        → IsFault fault (λ path. opened_below goods maker.old.draft path (view value.now))) }
    ensures same { OnOk result (maker.new
        ≡ record maker.old {
          draft = record maker.new.draft {
            opened = length maker.old.draft.tree
                ∷ maker.old.draft.opened;
          };
        }) }
    ensures shallow { OnOk result (length maker.new.draft.opened ≤ 16) }
    ensures short { IfErr result (λ fault. length fault.place ≤ 13) }
{
    let interval = interval_member(value, "choose")?;
    let lo = value_member(value, "lo")?;
    let hi = value_member(value, "hi")?;
    let items = array_member(value, "of")?;
    match maker.open_choose(interval.least, interval.most, lo, hi) {
        Ok(()) => Ok(items),
        Err(fault) => Err(ReadFault::of(ReadCause::Tree(fault))),
    }
}
