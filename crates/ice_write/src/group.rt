//! A group of a journal: its head, its sets and its log.
ghost use Rattle.std.specs.Prelude.{◌≡◌, ◌≤◌, ◌∷◌, ◌++◌, length, map};
ghost use Rattle.std.specs.List.{AllByRecursion};
ghost use Rattle.ice_edge.specs.Puts.{IsPut};
ghost use Rattle.ice_refute.specs.Code.{CountsGoods, step_of};
ghost use Rattle.ice_journal.specs.Records as line;
ghost use Rattle.ice_journal.specs.Records.{version_2};
ghost use Rattle.ice_journal.specs.Ranges.{IsRecord, IsBits, IsStepRecord};
ghost use Rattle.ice_journal.specs.Plain.{all_zero};
ghost use Rattle.ice_journal.specs.Journal.{bytes_of};
ghost use Rattle.ice_journal.specs.Lines.{record_of};
ghost use Rattle.ice_write.specs.Writable.{AreWritable};
ghost use Rattle.ice_journal_laws.specs.Fields.{multipliers_after};
ghost use Rattle.ice_journal_laws.specs.Showing.{step_record, step_records};

use crate::changes::changes_from;
use crate::record::put_record;
use ice_bound::Multipliers;
use ice_edge::{Sink, SinkFault};
use ice_journal::Line;
use ice_refute::{Log, Step};
use ice_tree::Assignment;

/// Puts the sets of an assignment of at most 40 bidders.
fn put_sets<K: Sink>(sets: &Assignment, out: &mut K) -> Result<(), SinkFault>
    requires few { length sets.now ≤ 40 }
    requires sets { AllByRecursion IsBits sets.now }
    ensures { IsPut (bytes_of (map line.set sets.now)) result (K.taken out.old) (K.taken out.new) }
{
    for bidder in 0..sets.len() as u8 {
        put_record(&Line::Set(*sets.of(bidder)), out)?;
    }
    Ok(())
}

/// The line of a step behind a leaf with these multipliers, or behind none, where they are 0.
fn step_line(step: &Step, multipliers: &Multipliers) -> Line<'static>
    requires { CountsGoods (length multipliers.now) (step_of step.now) }
    ensures { record_of result ≡ step_record version_2 multipliers.now (step_of step.now) }
{
    match step {
        Step::Branch { bidder, node } => Line::Branch {
            bidder: *bidder,
            node: *node,
        },
        Step::Leaf { m } => Line::Near(changes_from(multipliers, m)),
        Step::Dead { bidder } => Line::Dead { bidder: *bidder },
    }
}

/// The multipliers of the last leaf.
fn after(step: &Step, multipliers: Multipliers) -> Multipliers
    ensures { result ≡ multipliers_after multipliers (step_of step.now) }
{
    match step {
        Step::Leaf { m } => m.copy(),
        Step::Branch { .. } | Step::Dead { .. } => multipliers,
    }
}

/// Puts the steps of a log over so many goods, at most 32. Of a leaf it puts what it changes of the
/// leaf before it.
fn put_steps<K: Sink>(log: &Log, goods: u8, out: &mut K) -> Result<(), SinkFault>
    requires goods { goods ≤ 32 }
    requires counts { AllByRecursion (CountsGoods goods) log.now }
    requires steps { AllByRecursion IsStepRecord log.now }
    ensures { IsPut (bytes_of (step_records version_2 (all_zero goods) log.now)) result
        (K.taken out.old) (K.taken out.new) }
{
    let mut multipliers = Multipliers::zero(goods);
    for step in log.steps() {
        put_record(&step_line(step, &multipliers), out)?;
        multipliers = after(step, multipliers);
    }
    Ok(())
}

/// Puts a group: its head, the set of each bidder, and the steps of its log over so many goods.
///
/// There are at most 40 bidders and 32 goods. The numbers of the head, the sets and the steps are
/// in the ranges of their records, and each leaf has one multiplier per good. Of a leaf it puts
/// what it changes of the leaf before it. It takes no memory.
pub fn put_group<K: Sink>(
    head: &Line,
    sets: &Assignment,
    log: &Log,
    goods: u8,
    out: &mut K,
) -> Result<(), SinkFault>
    requires head { IsRecord (record_of head.now) }
    requires written { AreWritable goods sets.now log.now }
    ensures { IsPut (bytes_of (record_of head.now ∷ map line.set sets.now
        ++ step_records version_2 (all_zero goods) log.now)) result
        (K.taken out.old) (K.taken out.new) }
{
    put_record(head, out)?;
    put_sets(sets, out)?;
    put_steps(log, goods, out)
}
