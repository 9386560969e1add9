//! Writing the log of the parts.
ghost use Rattle.std.specs.Prelude.{◌≡◌, ◌<◌, ◌≤◌, ◌++◌, length, OnOk};
ghost use Rattle.std.specs.Option.{option_map};
ghost use Rattle.ice_search_log.specs.Parts.{AreLater, split_unless, log_of};
ghost use Rattle.ice_search_log.specs.Code.{split_of, stops_at};
ghost use Rattle.ice_tolled_log.specs.Code.{part_of, parts_of};

use crate::part::TolledPart;
use crate::step::{TolledLog, TolledStep};
use ice_search_log::Split;
use std::alloc::{AllocError, Global};

/// Where the part is split, unless its bound is at most the value.
fn split_above(part: &TolledPart, value: Option<i128>) -> Option<Split>
    ensures { option_map split_of result ≡ split_unless (stops_at value (part_of part.now))
        (part_of part.now).split }
{
    match value {
        Some(value) if part.key <= value => None,
        _ => part.split,
    }
}

/// Appends the log of all parts. Where a value is given, a split part whose bound is at most the
/// value is written as a leaf, without the parts below it.
pub fn write_tolled_log(
    alloc: Global,
    parts: &[TolledPart],
    value: Option<i128>,
    log: &mut TolledLog,
) -> Result<(), AllocError>
    requires root { 0 < length parts.now }
    requires few { length parts.now ≤ 1000000 }
    requires later { AreLater (parts_of parts.now) }
    ensures { OnOk result (log.new ≡ log.old ++ log_of (stops_at value) (parts_of parts.now)) }
{
    let mut stack: Vec<u32> = Vec::new(alloc);
    stack.push(0)?;
    while let Some(k) = stack.pop() {
        let part = &parts[k as usize];
        match split_above(part, value) {
            Some(split) => {
                stack.push(split.must + 1)?;
                stack.push(split.must)?;
                log.push(TolledStep::Branch {
                    bidder: split.bidder,
                    node: split.node,
                })?;
            }
            None => log.push(TolledStep::Leaf {
                m: part.m.copy(alloc)?,
            })?,
        }
    }
    Ok(())
}
