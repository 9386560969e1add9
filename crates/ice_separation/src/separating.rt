//! The derived goods that shares violate most.
ghost use Rattle.std.specs.Prelude.{◌≡◌, ◌+◌, ◌<◌, ◌≤◌, ◌∷◌, ◌++◌, [], length, sum, vec_len, IfOk, OnOk, IfSome};
ghost use Rattle.std.specs.List.{All};
ghost use Rattle.ice_defs.specs.Group.{free_side};
ghost use Rattle.ice_refute.specs.Waiting.{nodes_of};
ghost use Rattle.ice_separation.specs.Derivations.{IsDerivation};

use crate::derivation::Derivation;
use crate::rounding::Rounding;
use ice_best::Fixings;
use ice_bound::Room;
use ice_derived::{DerivedGoods, TollRoom};
use ice_tree::Tree;
use std::alloc::{AllocError, Global};
use std::cmp::Reverse;

/// No more derived goods are handed out.
const MOST: usize = 20;

/// A derived good that is violated: the multiplier of the good that shows it, and how much it is
/// violated.
#[derive(Clone, Copy)]
struct Ranked {
    rank: i128,
    good: u8,
    multiplier: u16,
}

/// Adds those of one good that are violated.
fn rank_good(
    ranked: &mut Vec<Ranked>,
    rounding: &mut Rounding,
    trees: &[Tree],
    good: u8,
) -> Result<(), AllocError> {
    rounding.take_good(trees, good);
    let mut marks = [false; 4097];
    rounding.mark_multipliers(&mut marks);
    for multiplier in 1..=4096 {
        if marks[usize::from(multiplier)] {
            if let Some(violation) = rounding.round(trees, multiplier) {
                ranked.push(Ranked {
                    rank: violation.rank(),
                    good,
                    multiplier,
                })?;
            }
        }
    }
    Ok(())
}

/// Those of all goods that are violated, the most violated ones first.
fn rank(
    alloc: Global,
    rounding: &mut Rounding,
    trees: &[Tree],
    goods: u8,
) -> Result<Vec<Ranked>, AllocError> {
    let mut ranked = Vec::new(alloc);
    for good in 0..goods {
        rank_good(&mut ranked, rounding, trees, good)?;
    }
    ranked.sort_unstable_by_key(|it| (Reverse(it.rank), it.good, Reverse(it.multiplier)));
    Ok(ranked)
}

/// Whether the cosine of the angle between two lists of amounts is above 0.95.
fn are_alike(first: &[i64], second: &[i64]) -> bool {
    let mut product: i128 = 0;
    let mut first_square: i128 = 0;
    let mut second_square: i128 = 0;
    for (one, other) in first.iter().zip(second.iter()) {
        let (one, other) = (i128::from(*one), i128::from(*other));
        product = product.wrapping_add(one.wrapping_mul(other));
        first_square = first_square.wrapping_add(one.wrapping_mul(one));
        second_square = second_square.wrapping_add(other.wrapping_mul(other));
    }
    let square = product.wrapping_mul(product).wrapping_mul(400);
    let squares = first_square.wrapping_mul(second_square).wrapping_mul(361);
    product > 0 && square > squares
}

/// Whether a list of amounts is alike to one of others.
fn is_alike(numbers: &[i64], others: &[Vec<i64>]) -> bool {
    for other in others {
        if are_alike(numbers, other) {
            return true;
        }
    }
    false
}

/// What derived goods are worked out in: each node free, and no other derived goods.
#[derive(Drop)]
struct Desk {
    free: Fixings,
    none: DerivedGoods,
    toll_room: TollRoom,
}

impl Desk {
    /// That of these trees.
    fn new(alloc: Global, trees: &[Tree]) -> Result<Desk, AllocError>
        requires few { length trees.now ≤ 40 }
        requires nodes { sum (nodes_of trees.now) ≤ 2000 }
        ensures free { IfOk result (λ desk. desk.free ≡ free_side trees.now) }
        ensures nodes { IfOk result (λ desk. desk.none.nodes ≡ nodes_of trees.now) }
        ensures none { IfOk result (λ desk. desk.none.goods ≡ []) }
    {
        let free = Fixings::free(alloc, trees)?;
        let none = DerivedGoods::with_room(alloc, trees, 0)?;
        Ok(Desk {
            free,
            none,
            toll_room: TollRoom::new(),
        })
    }
}

/// The derived good that the multiplier of a good shows with the amounts that were rounded last.
fn derive(
    alloc: Global,
    rounding: &Rounding,
    trees: &[Tree],
    one: Ranked,
    room: &Room,
    desk: &mut Desk,
) -> Result<Option<Derivation>, AllocError>
    requires few { length trees.now ≤ 40 }
    requires free { desk.old.free ≡ free_side trees.now }
    requires nodes { desk.old.none.nodes ≡ nodes_of trees.now }
    requires none { desk.old.none.goods ≡ [] }
    ensures is { IfOk result (λ found. IfSome found (IsDerivation trees.now room.now)) }
    ensures free { desk.new.free ≡ desk.old.free }
    ensures others { desk.new.none ≡ desk.old.none }
{
    if one.good >= room.goods() {
        return Ok(None);
    }
    let amounts = rounding.amounts(alloc, trees)?;
    Ok(Derivation::of(
        trees,
        amounts,
        one.good,
        one.multiplier,
        room,
        &desk.free,
        &desk.none,
        &mut desk.toll_room,
    ))
}

/// Puts a derived good behind the others.
fn push(found: &mut Vec<Derivation>, one: Derivation) -> Result<(), AllocError>
    ensures items { OnOk result (found.new.items ≡ found.old.items ++ one ∷ []) }
    ensures len { OnOk result (vec_len found.new ≡ vec_len found.old + 1) }
{
    found.push(one)?;
    Ok(())
}

/// Puts a derived good that a leaf shows behind others of which each is shown so. The only error is
/// want of memory.
pub fn push_shown(
    found: &mut Vec<Derivation>,
    one: Derivation,
    trees: &[Tree],
    room: &Room,
) -> Result<(), AllocError>
    requires each { All (IsDerivation trees.now room.now) found.old.items }
    requires is { IsDerivation trees.now room.now one }
    ensures items { OnOk result (found.new.items ≡ found.old.items ++ one ∷ []) }
    ensures each { OnOk result (All (IsDerivation trees.now room.now) found.new.items) }
    ensures len { OnOk result (vec_len found.new ≡ vec_len found.old + 1) }
{
    push(found, one)?;
    Ok(())
}

/// The same, where there is one.
fn keep(
    found: &mut Vec<Derivation>,
    one: Option<Derivation>,
    trees: &[Tree],
    room: &Room,
) -> Result<(), AllocError>
    requires few { vec_len found.old < 20 }
    requires each { All (IsDerivation trees.now room.now) found.old.items }
    requires is { IfSome one (IsDerivation trees.now room.now) }
    ensures each { OnOk result (All (IsDerivation trees.now room.now) found.new.items) }
    ensures few { OnOk result (vec_len found.new ≤ 20) }
{
    match one {
        Some(one) => push_shown(found, one, trees, room),
        None => Ok(()),
    }
}

/// Derived goods that these shares of nodes violate, each shown by one leaf with a multiplier of
/// one good: at most twenty, those first that are violated most for their size, and no two of them
/// nearly alike. There is a list of shares for each tree, one for each node, in parts of 2^-40; the
/// room says which goods are exact.
///
/// There are at most 40 trees with at most 2,000 nodes together. Which derived goods are found is a
/// heuristic. The only error is want of memory.
pub fn separate(
    alloc: Global,
    trees: &[Tree],
    shares: &[[i64; 256]],
    room: &Room,
) -> Result<Vec<Derivation>, AllocError>
    requires few { length trees.now ≤ 40 }
    requires nodes { sum (nodes_of trees.now) ≤ 2000 }
    ensures each { IfOk result (λ found. All (IsDerivation trees.now room.now) found.items) }
    ensures few { IfOk result (λ found. vec_len found ≤ 20) }
{
    let mut rounding = Rounding::new(alloc, trees, shares)?;
    let ranked = rank(alloc, &mut rounding, trees, room.goods())?;
    let mut desk = Desk::new(alloc, trees)?;
    let mut taken = Vec::new(alloc);
    let mut found = Vec::new(alloc);
    for one in &ranked {
        if found.len() == MOST {
            break;
        }
        rounding.take_good(trees, one.good);
        rounding.round(trees, one.multiplier);
        let numbers = rounding.numbers(alloc)?;
        if is_alike(&numbers, &taken) {
            continue;
        }
        let derivation = derive(alloc, &rounding, trees, *one, room, &mut desk)?;
        keep(&mut found, derivation, trees, room)?;
        taken.push(numbers)?;
    }
    Ok(found)
}
