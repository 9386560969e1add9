//! The frontier of a search: its open parts.
ghost use Rattle.std.specs.Prelude.{◌≡◌, ◌+◌, ◌<◌, ◌≤◌, [], ◌∷◌, ◌++◌, length, vec_len, vec_capacity, slice_index, false, None, IsTrue, IfNone, IfSome, ◌≤ℤ◌, ◌<ℤ◌};
ghost use Rattle.std.specs.List.Sorted.{IsPermutation};
ghost use Rattle.ice_search_log.specs.Searching.{IsAboveOpen};
ghost use Rattle.ice_search_log.specs.Code.{parts_of};
ghost use Rattle.ice_search.specs.declared.frontier.Fate.TheVariants.{Open, Closed};
ghost use Rattle.ice_search.specs.Open.{AreParts, IsGreatestOpen, IsHigher, bound_at, AreOpened};

use ice_search_log::Part;

/// The bound of a part.
pub(crate) fn key_of(part: &Part) -> i128
    ensures { result ≡ part.now.key }
{
    part.key
}

/// The bound of the open part at a place, and the value where there is none.
fn bound_at(parts: &[Part], open_parts: &[u32], place: Option<usize>, value: i128) -> i128
    requires numbers { AreParts (parts_of parts.now) open_parts.now }
    requires place { IsHigher (parts_of parts.now) open_parts.now value (length open_parts.now)
        place }
    ensures { result ≡ bound_at (parts_of parts.now) open_parts.now value place }
{
    match place {
        None => value,
        Some(place) => key_of(&parts[open_parts[place] as usize]),
    }
}

/// Whether the part isn't split and has a bound above this.
fn is_above(part: &Part, bound: i128) -> bool
    ensures whole { IsTrue result → part.now.split ≡ None }
    ensures above { IsTrue result → bound <ℤ part.now.key }
    ensures no { result ≡ false → part.now.split ≡ None → part.now.key ≤ℤ bound }
{
    part.split.is_none() && part.key > bound
}

/// The place of an open part of the greatest bound, where that is above the value.
pub(crate) fn greatest(parts: &[Part], open_parts: &[u32], value: i128) -> Option<usize>
    requires { AreParts (parts_of parts.now) open_parts.now }
    ensures none { IfNone result (IsAboveOpen (parts_of parts.now) open_parts.now value) }
    ensures some { IfSome result (IsGreatestOpen (parts_of parts.now) open_parts.now value) }
{
    let mut found = None;
    for place in 0..open_parts.len() {
        let part = &parts[open_parts[place] as usize];
        if is_above(part, bound_at(parts, open_parts, found, value)) {
            found = Some(place);
        }
    }
    found
}

/// Takes an open part out.
pub(crate) fn take_out(open_parts: &mut Vec<u32>, place: usize)
    requires { place < vec_len open_parts.old }
    ensures others { IsPermutation open_parts.old.items
        (slice_index open_parts.old.items place ∷ open_parts.new.items) }
    ensures len { vec_len open_parts.new + 1 ≡ vec_len open_parts.old }
    ensures capacity { vec_capacity open_parts.new ≡ vec_capacity open_parts.old }
{
    open_parts.swap_remove(place);
}

/// What becomes of a child of a part that is split.
#[derive(Clone, Copy, Debug, PartialEq, Eq)]
pub(crate) enum Fate {
    /// It is open: something above the value may be found in it.
    Open,
    /// It is closed, and never looked at.
    Closed,
}

/// Puts a part among the open ones, where there is room for it, unless it is closed.
fn push_open(open_parts: &mut Vec<u32>, number: u32, fate: Fate)
    requires { vec_len open_parts.old < vec_capacity open_parts.old }
    ensures opened { fate ≡ Open → open_parts.new.items ≡ open_parts.old.items ++ number ∷ [] }
    ensures closed { fate ≡ Closed → open_parts.new.items ≡ open_parts.old.items }
    ensures capacity { vec_capacity open_parts.old ≤ vec_capacity open_parts.new }
    ensures len { vec_len open_parts.new ≤ vec_len open_parts.old + 1 }
{
    match fate {
        Fate::Open => open_parts.push(number).unwrap(),
        Fate::Closed => {}
    }
}

/// Splits an open part: it is taken out, and each child that is open is put there. The Must child
/// has the number `first`, and the Never child the next one.
pub(crate) fn open_children(
    open_parts: &mut Vec<u32>,
    place: usize,
    first: u32,
    must: Fate,
    never: Fate,
)
    requires place { place < vec_len open_parts.old }
    requires room { vec_len open_parts.old + 2 ≤ vec_capacity open_parts.old }
    requires few { first < 1000000 }
    ensures opened { AreOpened open_parts.old.items open_parts.new.items place first must never }
    ensures len { vec_len open_parts.new ≤ vec_len open_parts.old + 1 }
{
    take_out(open_parts, place);
    push_open(open_parts, first, must);
    push_open(open_parts, first + 1, never);
}
