//! The cut and the surplus, tested against the values without each bidder.
ghost use Rattle.std.specs.Prelude.{◌≡◌, ◌≤◌, IsTrue, false, ◌<◌, length};
ghost use Rattle.ice_journal.specs.Lines.{record_of};
ghost use Rattle.ice_journal.specs.Ranges.{IsRecord};
ghost use Rattle.ice_journal_laws.specs.Tests.{IsThresholdLine};
ghost use Rattle.ice_check_charge.specs.Tests.{vickreys_of, IsSpent};
ghost use Rattle.ice_check_charge.specs.Stated.{closing_of, cut_record};
ghost use Rattle.ice_check_charge.specs.Charging.{TakesCut};

use crate::amounts::{equals, is_reached, scaled, sum_cut_off};
use crate::charge::Charge;
use crate::lines::{StatedCut, threshold_in};
use ice_journal::Line;
use ice_journal_laws::Rule;

/// Whether a cut of this numerator, which leaves so much, is in range and leaves the whole total
/// unless it is 0.
fn is_spent(num: i64, left: i128, total: i128) -> bool
    ensures yes { IsTrue result → IsSpent num left total }
    ensures no { result ≡ false → ¬ IsSpent num left total }
{
    if num > 0 {
        left == total
    } else {
        num == 0 && left <= total
    }
}

/// Whether this is the least cut that the total pays for, with the surplus that it leaves.
fn passes(withouts: &[i64], total: i64, stated: &StatedCut) -> bool
    requires few { length withouts.now ≤ 40 }
    requires proper { 0 < stated.now.cut.den }
    ensures yes { IsTrue result
        → IsThresholdLine (vickreys_of total withouts.now) total (closing_of stated.now) }
    ensures no { result ≡ false
        → ¬ IsThresholdLine (vickreys_of total withouts.now) total (closing_of stated.now) }
{
    let cut = &stated.cut;
    let left = sum_cut_off(withouts, total, cut);
    let available = scaled(i128::from(total), cut.den);
    if !is_spent(cut.num, left, available) {
        return false;
    }
    if !is_reached(withouts, total, cut) {
        return false;
    }
    equals(&stated.surplus, available - left, cut.den)
}

/// A stated cut and surplus.
fn take_stated(withouts: &[i64], total: i64, stated: &StatedCut) -> Result<Charge, Rule>
    requires few { length withouts.now ≤ 40 }
    requires lawful { IsRecord (cut_record stated.now) }
    ensures { TakesCut withouts.now total (cut_record stated.now) result }
{
    if passes(withouts, total, stated) {
        Ok(Charge::new(stated.cut, stated.surplus))
    } else {
        Err(Rule::Threshold)
    }
}

/// Takes the record of the cut and the surplus, by the greatest values without each bidder and the
/// total, which is the value of the final sets. It fails `Order` where it is another record, and
/// `Threshold` where the cut is not the least one that the total pays for, or the surplus is not
/// what is left.
pub fn take_threshold(withouts: &[i64], total: i64, line: &Line) -> Result<Charge, Rule>
    requires few { length withouts.now ≤ 40 }
    requires lawful { IsRecord (record_of line.now) }
    ensures { TakesCut withouts.now total (record_of line.now) result }
{
    match threshold_in(line) {
        Some(stated) => take_stated(withouts, total, &stated),
        None => Err(Rule::Order),
    }
}
