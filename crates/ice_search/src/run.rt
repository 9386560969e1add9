//! The turns of a search.
ghost use Rattle.std.specs.Prelude.{◌≡◌, ◌+◌, ◌*◌, ◌≤◌, length, IfOk, OnOk};
ghost use Rattle.ice_search.specs.Ended.{HasEnded};

use crate::progress::Progress;
use ice_relaxation::Candidate;
use std::alloc::{AllocError, Global};

/// How the turns of a search end.
#[derive(Clone, Copy)]
pub(crate) enum Ended {
    /// No part that isn't split has a bound above the value.
    Whole,
    /// The next part would be split at this node, and no branch is left.
    Spent { number: u32, node: Candidate },
}

/// Takes turns until nothing better is left, or no branch: a part of the greatest bound is swept,
/// and then split. Where no branch is left, dives look once for something better.
pub(crate) fn run(
    alloc: Global,
    progress: &mut Progress,
    left: &mut u32,
) -> Result<Ended, AllocError>
    requires few { length progress.old.parts + 2 * left.old ≤ 200000 }
    ensures instance { progress.new.instance ≡ progress.old.instance }
    ensures left { left.new ≤ left.old }
    ensures count { OnOk result (length progress.new.parts + 2 * left.new
        ≡ length progress.old.parts + 2 * left.old) }
    ensures ended { IfOk result (HasEnded progress.new left.new) }
{
    let mut has_dived = false;
    loop {
        let Some(place) = progress.next() else {
            return Ok(Ended::Whole);
        };
        let number = progress.look_at(place);
        if !progress.is_swept(number) {
            progress.sweep(number);
            continue;
        }
        let Some(node) = progress.find_node(number) else {
            progress.close(place, number);
            continue;
        };
        if *left == 0 {
            if has_dived {
                return Ok(Ended::Spent { number, node });
            }
            progress.dive(alloc, number)?;
            has_dived = true;
            continue;
        }
        progress.split(place, number, node)?;
        *left -= 1;
    }
}
