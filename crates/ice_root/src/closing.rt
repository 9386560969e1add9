//! The rounds at the root.
ghost use Rattle.std.specs.Prelude.{◌≤◌, length, sum, vec_len, IfOk};
ghost use Rattle.std.specs.List.{All};
ghost use Rattle.ice_refute.specs.Waiting.{nodes_of};
ghost use Rattle.ice_separation.specs.Derivations.{IsDerivation};

use crate::stock::Stock;
use ice_bound::Room;
use ice_master::{Aim, Master, Shares};
use ice_rows::Rows;
use ice_separation::{Derivation, separate};
use ice_tree::Tree;
use std::alloc::{AllocError, Global};

/// There are at most so many rounds.
const MOST_ROUNDS: u8 = 60;

/// Whether the last eight rounds brought less than 0.06 % a round of all that is closed. Bounds are
/// in 4096ths.
fn is_tired(bounds: &[i64]) -> bool {
    let Some(place) = bounds.len().checked_sub(9) else {
        return false;
    };
    let first = i128::from(bounds[0]);
    let before = i128::from(bounds[place]);
    let last = i128::from(bounds[bounds.len() - 1]);
    let closed = (first - last).max(4096);
    (before - last).saturating_mul(10_000) < closed.saturating_mul(6 * 8)
}

/// The shares of the nodes of each tree in the mix of the last solve.
fn all_shares(
    alloc: Global,
    trees: &[Tree],
    master: &Master,
    rows: &Rows,
) -> Result<Vec<Shares>, AllocError>
    requires few { length trees.now ≤ 40 }
{
    let mut shares = Vec::new(alloc);
    for bidder in 0..trees.len() as u8 {
        shares.push(rows.shares_of(master, bidder))?;
    }
    Ok(shares)
}

/// Derived goods that lower the dual of the side of the master's last look: at most 64. The rows
/// then hold these alone, numbered from 0 in this order, and were solved with them. What derived
/// goods they held before is dropped.
///
/// There are at most 60 rounds. Each solves the dual, drops those that have no toll there, and adds
/// some that the shares of nodes violate. The last one is where a bound is below `close`, in 64ths,
/// where none is violated, or where eight rounds brought next to nothing. Which ones are found is a
/// heuristic.
///
/// The master and the rows are of these trees, of which there are at most 40, with at most 2,000
/// nodes together; the room says which goods are exact. The only error is want of memory.
pub fn close_root(
    alloc: Global,
    trees: &[Tree],
    room: &Room,
    close: i64,
    master: &mut Master,
    rows: &mut Rows,
) -> Result<Vec<Derivation>, AllocError>
    requires few { length trees.now ≤ 40 }
    requires nodes { sum (nodes_of trees.now) ≤ 2000 }
    ensures each { IfOk result (λ found. All (IsDerivation trees.now room.now) found.items) }
    ensures few { IfOk result (λ found. vec_len found ≤ 64) }
{
    let aim = Aim {
        close,
        keep: i64::MAX,
    };
    rows.keep(&[false; 144]);
    let mut stock = Stock::new(alloc);
    let mut bounds = Vec::new(alloc);
    for _round in 0..MOST_ROUNDS {
        let bound = rows.solve(master, aim);
        bounds.push(bound)?;
        if bound < close.saturating_mul(64) || is_tired(&bounds) {
            break;
        }
        let shares = all_shares(alloc, trees, master, rows)?;
        let mut found = separate(alloc, trees, &shares, room)?;
        if found.is_empty() {
            break;
        }
        stock.keep(alloc, trees, room, master, rows)?;
        stock.add(alloc, trees, room, &mut found, rows)?;
    }
    rows.solve(master, aim);
    stock.keep(alloc, trees, room, master, rows)?;
    stock.number_anew(alloc, trees, room, rows)?;
    rows.solve(master, aim);
    Ok(stock.found)
}
