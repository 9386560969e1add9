//! The order of the records behind a stop.
ghost use Rattle.std.specs.Prelude.{◌≡◌, ◌+◌, ◌<◌, ◌≤◌, ◌^◌, List, IsTrue, length, option_map};
ghost use Rattle.ice_journal.specs.Records.{Record};
ghost use Rattle.ice_journal.specs.Journal.{IsJournal};
ghost use Rattle.ice_journal_laws.specs.State.{State};
ghost use Rattle.ice_migrate.specs.Order.{order_from, order_failure};
ghost use Rattle.ice_migrate.specs.Migrating.{is_old, StopsAt};
ghost use Rattle.ice_migrate.specs.Stopped.{count_at, StandsAt, failure_of};

use crate::counts::Counts;
use crate::place::Place;
use ice_journal::Room;
use ice_reading::{Records, Rule};

/// The test that a journal fails: its line, from 1, and its rule.
#[derive(Clone, Copy)]
pub(crate) struct FailedTest {
    pub(crate) line: u64,
    pub(crate) rule: Rule,
}

/// The first record that may not stand in its place, where this line is next and stands here, or
/// the want of one at the end.
fn first_out_of_order(
    place: Place,
    counts: Counts,
    line: u64,
    records: &mut Records<'_>,
    room: &mut Room,
) -> Option<FailedTest>
    requires few { line + length records.old < 2 ^ 63 + 2 }
    requires low { count_at place ≤ line }
    ensures { (s : State) (left : List Record) → IsJournal records.old left
        → StandsAt s counts place line → order_from s left ≡ option_map failure_of result }
{
    let mut here = place;
    let mut number = line;
    while let Some(record) = records.next(room) {
        match here.after(&record, counts) {
            Some(next) => here = next,
            None => {
                return Some(FailedTest {
                    line: number,
                    rule: Rule::Order,
                });
            }
        }
        number += 1;
    }
    match here {
        Place::Done => None,
        _ => Some(FailedTest {
            line: number,
            rule: Rule::Short,
        }),
    }
}

/// Of a version 1 journal that stops at this line: the first record behind it that may not stand in
/// its place, or the want of one at the end.
pub(crate) fn order_fault(bytes: &[u8], stop: u64) -> Option<FailedTest>
    ensures { (journal : List Record) → IsJournal bytes.now journal → IsTrue (is_old journal)
        → StopsAt stop journal → order_failure journal ≡ option_map failure_of result }
{
    let mut records = Records::new(bytes);
    let before = stop.saturating_sub(1);
    let counts = Counts::of_first(&mut records, before)?;
    let mut room = Room::new();
    let first = records.next(&mut room)?;
    let place = Place::behind(&first);
    first_out_of_order(place, counts, before + 2, &mut records, &mut room)
}
