//! Changes of the parts of a search.
ghost use Rattle.std.specs.Prelude.{◌≡◌, ◌+◌, ◌<◌, ◌≤◌, [], ◌∷◌, ◌++◌, slice_set, vec_len, vec_capacity, true, ◌≤ℤ◌, ◌<ℤ◌};
ghost use Rattle.ice_defs.specs.declared.Mark.TheVariants.{Must, Never};
ghost use Rattle.ice_search_log.specs.Parts.{part_at, split_at};
ghost use Rattle.ice_search_log.specs.Code.{part_of, parts_of};
ghost use Rattle.ice_search.specs.declared.frontier.Fate.TheVariants.{Open, Closed};
ghost use Rattle.ice_search.specs.State.{child_part, with_bound};

use crate::frontier::Fate;
use crate::sweep::Bounded;
use ice_best::Mark;
use ice_relaxation::Candidate;
use ice_search_log::{Part, Split};
use ice_subgradient::Incumbent;

/// A part is swept: its bound falls to the swept one, where that is less.
pub(crate) fn lower(parts: &mut Vec<Part>, number: u32, swept: Bounded)
    requires { number < vec_len parts.old }
    ensures falls { swept.key <ℤ (part_at (parts_of parts.old.items) number).key
        → parts_of parts.new.items ≡ slice_set (parts_of parts.old.items) number
        (with_bound (part_at (parts_of parts.old.items) number) swept.m swept.key) }
    ensures stays { (part_at (parts_of parts.old.items) number).key ≤ℤ swept.key
        → parts_of parts.new.items ≡ slice_set (parts_of parts.old.items) number
        (record (part_at (parts_of parts.old.items) number) { swept = true }) }
{
    let part = &mut parts[number as usize];
    part.swept = true;
    if swept.key < part.key {
        part.m = swept.m;
        part.key = swept.key;
    }
}

/// A part that isn't swept, below another.
fn child(above: u32, candidate: Candidate, mark: Mark, bounded: Bounded) -> Part
    ensures { part_of result ≡ child_part above candidate.bidder candidate.node mark bounded.m
        bounded.key }
{
    Part {
        above,
        bidder: candidate.bidder,
        node: candidate.node,
        mark,
        m: bounded.m,
        key: bounded.key,
        swept: false,
        split: None,
    }
}

/// Splits a part at a node, by two children for which there is room.
pub(crate) fn push_children(
    parts: &mut Vec<Part>,
    number: u32,
    candidate: Candidate,
    must: Bounded,
    never: Bounded,
)
    requires there { number < vec_len parts.old }
    requires room { vec_len parts.old + 2 ≤ vec_capacity parts.old }
    requires few { vec_len parts.old ≤ 1000000 }
    ensures { parts_of parts.new.items ≡ (slice_set (parts_of parts.old.items) number
        (split_at (part_at (parts_of parts.old.items) number) candidate.bidder candidate.node
        (vec_len parts.old))
        ++ child_part number candidate.bidder candidate.node Must must.m must.key ∷ [])
        ++ child_part number candidate.bidder candidate.node Never never.m never.key ∷ [] }
{
    let split = Split {
        bidder: candidate.bidder,
        node: candidate.node,
        must: parts.len() as u32,
    };
    parts[number as usize].split = Some(split);
    parts
        .push(child(number, candidate, Mark::Must, must))
        .unwrap();
    parts
        .push(child(number, candidate, Mark::Never, never))
        .unwrap();
}

/// What becomes of a part of this bound: it is open where something above the incumbent's value may
/// be found in it.
pub(crate) fn fate_of(bounded: &Bounded, incumbent: &Incumbent) -> Fate
    ensures opened { result ≡ Open → incumbent.now.value <ℤ bounded.now.key }
    ensures closed { result ≡ Closed → bounded.now.key ≤ℤ incumbent.now.value }
{
    if incumbent.value < bounded.key {
        Fate::Open
    } else {
        Fate::Closed
    }
}
