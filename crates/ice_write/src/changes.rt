//! What a leaf changes.
ghost use Rattle.std.specs.Prelude.{◌≡◌, length, map};
ghost use Rattle.ice_journal.specs.Plain.{changes_from};
ghost use Rattle.ice_journal.specs.Lines.{change_of};

use arrayvec::ArrayVec;
use ice_bound::Multipliers;
use ice_journal::Change;

/// The multipliers that differ from earlier ones of the same goods.
pub(crate) fn changes_from(earlier: &Multipliers, later: &Multipliers) -> ArrayVec<Change, 32>
    requires { length earlier.now ≡ length later.now }
    ensures { map change_of result.items ≡ changes_from 0 earlier.now later.now }
{
    let mut changes = ArrayVec::new();
    for good in 0..later.len() {
        let multiplier = later.get(good);
        if multiplier != earlier.get(good) {
            changes.push(Change { good, multiplier });
        }
    }
    changes
}
