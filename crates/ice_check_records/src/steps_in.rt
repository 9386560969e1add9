//! The step of a log that a record states.
ghost use Rattle.std.specs.Prelude.{◌≡◌, ◌≤◌, ◌↔◌, length, map, slice_set, IsTrue, Any};
ghost use Rattle.ice_defs.specs.Steps.{leaf};
ghost use Rattle.ice_bound.specs.Multipliers.{IsInRange, AreInRange};
ghost use Rattle.ice_journal.specs.Lines.{record_of, change_of, version_of};
ghost use Rattle.ice_journal.specs.Ranges.{IsRecord};
ghost use Rattle.ice_journal.specs.Records as records;
ghost use Rattle.ice_journal.specs.Records.{version_1};
ghost use Rattle.ice_journal.specs.Plain.{after_changes};
ghost use Rattle.ice_journal_laws.specs.Tests.{IsNoChange};
ghost use Rattle.ice_check_records.specs.Logs.{IsStepOf, AreChangesInRange};
ghost use Rattle.ice_journal_laws.specs.Stepping.{IsMisstating};

use ice_bound::Multipliers;
use ice_journal::{Change, Line, Version};
use ice_refute::Step;

/// These multipliers.
fn multipliers_of(numbers: &[i64]) -> Multipliers
    requires few { length numbers.now ≤ 32 }
    requires range { AreInRange numbers.now }
    ensures { result ≡ numbers.now }
{
    let mut m = Multipliers::zero(numbers.len() as u8);
    for good in 0..m.len() {
        m.put(good, numbers[usize::from(good)]);
    }
    m
}

/// Makes a change; one of a good that isn't there changes nothing.
fn make_change(m: &mut Multipliers, change: Change)
    requires { IsInRange change.multiplier }
    ensures { m.new ≡ slice_set m.old change.good change.multiplier }
{
    if change.good < m.len() {
        m.put(change.good, change.multiplier);
    }
}

/// The multipliers after these changes.
fn changed(before: &Multipliers, changes: &[Change]) -> Multipliers
    requires { AreChangesInRange changes.now }
    ensures { result ≡ after_changes before.now (map change_of changes.now) }
{
    let mut m = before.copy();
    for change in changes {
        make_change(&mut m, *change);
    }
    m
}

/// Whether a change names a good that isn't there, or the number that the good has.
fn is_no_change(before: &Multipliers, change: Change) -> bool
    ensures { IsTrue result ↔ IsNoChange (length before.now) before.now (change_of change) }
{
    change.good >= before.len() || before.get(change.good) == change.multiplier
}

/// Whether one of the changes is none.
fn has_no_change(before: &Multipliers, changes: &[Change]) -> bool
    ensures { IsTrue result
        ↔ Any (λ change. IsNoChange (length before.now) before.now (change_of change)) changes.now }
{
    changes.iter().any(|change| is_no_change(before, *change))
}

/// A leaf with its multipliers, one for each good.
fn leaf_of(before: &Multipliers, numbers: &[i64]) -> Option<Step>
    requires { IsRecord (records.step (leaf numbers.now)) }
    ensures { IsStepOf result version_1 before.now (records.step (leaf numbers.now)) }
{
    if numbers.len() == usize::from(before.len()) {
        Some(Step::Leaf {
            m: multipliers_of(numbers),
        })
    } else {
        None
    }
}

/// A leaf with its multipliers, which stands in version 1 alone.
fn leaf_in(version: Version, before: &Multipliers, numbers: &[i64]) -> Option<Step>
    requires { IsRecord (records.step (leaf numbers.now)) }
    ensures { IsStepOf result (version_of version) before.now (records.step (leaf numbers.now)) }
{
    match version {
        Version::One => leaf_of(before, numbers),
        Version::Two => None,
    }
}

/// A leaf as what it changes, which stands in version 2 alone.
fn near_in(version: Version, before: &Multipliers, changes: &[Change]) -> Option<Step>
    requires { IsRecord (records.near (map change_of changes.now)) }
    ensures { IsStepOf result (version_of version) before.now
        (records.near (map change_of changes.now)) }
{
    match version {
        Version::One => None,
        Version::Two => Some(Step::Leaf {
            m: changed(before, changes),
        }),
    }
}

/// The step that the record states, where the leaf before it had these multipliers.
pub(crate) fn step_in(version: Version, before: &Multipliers, line: &Line) -> Option<Step>
    requires { IsRecord (record_of line.now) }
    ensures { IsStepOf result (version_of version) before.now (record_of line.now) }
{
    match line {
        Line::Branch { bidder, node } => Some(Step::Branch {
            bidder: *bidder,
            node: *node,
        }),
        Line::Dead { bidder } => Some(Step::Dead { bidder: *bidder }),
        Line::Leaf(numbers) => leaf_in(version, before, numbers),
        Line::Near(changes) => near_in(version, before, changes),
        _ => None,
    }
}

/// Whether a leaf as what it changes states a change that is none.
fn near_misstates(version: Version, before: &Multipliers, changes: &[Change]) -> bool
    ensures { IsTrue result ↔ IsMisstating (version_of version) before.now
        (records.near (map change_of changes.now)) }
{
    match version {
        Version::One => false,
        Version::Two => has_no_change(before, changes),
    }
}

/// Whether the record states a change that is none.
pub(crate) fn misstates(version: Version, before: &Multipliers, line: &Line) -> bool
    ensures { IsTrue result ↔ IsMisstating (version_of version) before.now (record_of line.now) }
{
    match line {
        Line::Near(changes) => near_misstates(version, before, changes),
        _ => false,
    }
}
