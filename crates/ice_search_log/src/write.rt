//! Writing the log of the parts.
ghost use Rattle.std.specs.Prelude.{◌≡◌, ◌<◌, ◌≤◌, ◌++◌, length, OnOk};
ghost use Rattle.std.specs.List.{AllByRecursion};
ghost use Rattle.std.specs.Option.{option_map};
ghost use Rattle.ice_bound.specs.Multipliers.{AreInRange};
ghost use Rattle.ice_search_log.specs.Parts.{AreLater, split_unless, log_of};
ghost use Rattle.ice_search_log.specs.Code.{split_of, part_of, parts_of, stops_at, IsRangedStep};

use crate::part::{Part, Split};
use ice_bound::Multipliers;
use ice_refute::{Log, Step};
use std::alloc::{AllocError, Global};

/// The same multipliers once more, each inside its range.
fn copy_ranged(m: &Multipliers) -> Multipliers
    ensures value { result ≡ m.now }
    ensures range { AreInRange result }
{
    let mut copy = Multipliers::zero(m.len());
    for good in 0..m.len() {
        copy.put(good, m.get(good));
    }
    copy
}

/// Where the part is split, unless its bound is at most the value.
fn split_above(part: &Part, value: Option<i128>) -> Option<Split>
    ensures { option_map split_of result ≡ split_unless (stops_at value (part_of part.now))
        (part_of part.now).split }
{
    match value {
        Some(value) if part.key <= value => None,
        _ => part.split,
    }
}

/// Appends the log of all parts. Where a value is given, a split part whose bound is at most the
/// value is written as a leaf, without the parts below it.
pub fn write_log(
    alloc: Global,
    parts: &[Part],
    value: Option<i128>,
    log: &mut Log,
) -> Result<(), AllocError>
    requires root { 0 < length parts.now }
    requires few { length parts.now ≤ 1000000 }
    requires later { AreLater (parts_of parts.now) }
    ensures log { OnOk result (log.new ≡ log.old ++ log_of (stops_at value) (parts_of parts.now)) }
    ensures range { OnOk result (AllByRecursion IsRangedStep log.old
        → AllByRecursion IsRangedStep log.new) }
{
    let mut stack: Vec<u32> = Vec::new(alloc);
    stack.push(0)?;
    while let Some(k) = stack.pop() {
        let part = &parts[k as usize];
        match split_above(part, value) {
            Some(split) => {
                stack.push(split.must + 1)?;
                stack.push(split.must)?;
                log.push(Step::Branch {
                    bidder: split.bidder,
                    node: split.node,
                })?;
            }
            None => log.push(Step::Leaf {
                m: copy_ranged(&part.m),
            })?,
        }
    }
    Ok(())
}
