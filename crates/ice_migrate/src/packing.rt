//! The records of a version 1 journal, written in version 2.
ghost use Rattle.std.specs.Prelude.{◌≡◌, ◌≤◌, ◌<◌, List, ◌++◌, length, map, slice_index_or, pos, IfSome, MatchOption};
ghost use Rattle.ice_edge.specs.Puts.{IsPut};
ghost use Rattle.ice_defs.specs.Steps.{leaf};
ghost use Rattle.ice_journal.specs.Records.{Record, step, near};
ghost use Rattle.ice_journal.specs.Ranges.{IsRecord};
ghost use Rattle.ice_journal.specs.Spelling.{line_of};
ghost use Rattle.ice_journal.specs.Journal.{IsJournal, bytes_of};
ghost use Rattle.ice_journal.specs.Lines.{change_of};
ghost use Rattle.ice_journal.specs.Plain.{all_zero, changes_from, packed_records};
ghost use Rattle.ice_journal_laws.specs.Answers.{OfJournal};
ghost use Rattle.ice_migrate.specs.Migrating.{IsMigrated};
ghost use Rattle.ice_migrate.specs.Sorts as shown;
ghost use Rattle.ice_migrate.specs.Packing.{before_of, packed_record, packed_after, PutsPacked};
ghost use Rattle.ice_migrate.specs.Gathering.{IsGathered};

use crate::counts::Counts;
use crate::gathered::Gathered;
use crate::sort::{Sort, sort_of};
use arrayvec::ArrayVec;
use ice_edge::{Sink, SinkFault};
use ice_journal::{Change, Line, Room, Version, read_record, write_record};
use ice_line::LineWriter;
use ice_reading::Records;
use ice_write::put_record;

/// The multipliers of the leaf before in the same log; all 0, one for each of so many goods, where
/// there is none.
#[derive(Drop)]
struct Packing {
    goods: u64,
    leaf: Option<ArrayVec<i64, 32>>,
    room: Room,
}

impl Packing {
    /// Before the first leaf of a log.
    fn new(goods: u64) -> Packing
        ensures goods { result.goods ≡ goods }
        ensures before { before_of result ≡ all_zero goods }
    {
        Packing {
            goods,
            leaf: None,
            room: Room::new(),
        }
    }

    /// The multiplier of a good that is there.
    fn multiplier(&self, good: usize) -> i64
        requires { good < length (before_of self.now) }
        ensures { result ≡ slice_index_or (before_of self.now) good (pos 0) }
    {
        match &self.leaf {
            Some(multipliers) => multipliers[good],
            None => 0,
        }
    }

    /// How many multipliers there are.
    fn len(&self) -> u64
        ensures { result ≡ length (before_of self.now) }
    {
        match &self.leaf {
            Some(multipliers) => multipliers.len() as u64,
            None => self.goods,
        }
    }

    /// What a leaf changes.
    fn changes(&self, later: &[i64]) -> ArrayVec<Change, 32>
        requires { length later.now ≤ 32 }
        ensures { map change_of result.items ≡ changes_from 0 (before_of self.now) later.now }
    {
        let mut changes = ArrayVec::new();
        for good in 0..later.len() {
            let multiplier = later[good];
            if (good as u64) < self.len() && multiplier != self.multiplier(good) {
                changes.push(Change {
                    good: good as u8,
                    multiplier,
                });
            }
        }
        changes
    }

    /// Gathers a leaf as what it changes.
    fn put_leaf<K: Sink>(
        &mut self,
        multipliers: ArrayVec<i64, 32>,
        writer: &mut LineWriter,
        gathered: &mut Gathered,
        out: &mut K,
    ) -> Result<(), SinkFault>
        requires { IsRecord (step (leaf multipliers.items)) }
        ensures put { IsGathered gathered.new
            (gathered.old ++ line_of (near (changes_from 0 (before_of self.old) multipliers.items)))
            result (K.taken out.old) (K.taken out.new) }
        ensures after { before_of self.new ≡ multipliers.items }
        ensures goods { self.new.goods ≡ self.old.goods }
    {
        let changes = self.changes(&multipliers);
        self.leaf = Some(multipliers);
        put_changes(changes, writer, gathered, out)
    }

    /// Gathers the next record behind the head, which has this line, in version 2: but for a leaf
    /// the line is the same.
    fn put_line<K: Sink>(
        &mut self,
        line: &[u8],
        writer: &mut LineWriter,
        gathered: &mut Gathered,
        out: &mut K,
    ) -> Result<(), SinkFault>
        requires { 0 < length line.now }
        ensures put { (r : Record) → IsRecord r → line.now ≡ line_of r
            → IsGathered gathered.new
            (gathered.old ++ line_of (packed_record (before_of self.old) r)) result
            (K.taken out.old) (K.taken out.new) }
        ensures after { (r : Record) → IsRecord r → line.now ≡ line_of r
            → before_of self.new ≡ packed_after self.old.goods (before_of self.old) r }
        ensures goods { self.new.goods ≡ self.old.goods }
    {
        match sort_of(line) {
            Sort::Leaf => {
                let Some(multipliers) = leaf_of(line, &mut self.room) else {
                    return Ok(());
                };
                self.put_leaf(multipliers, writer, gathered, out)
            }
            Sort::Step => gathered.put(line, out),
            _ => {
                self.leaf = None;
                gathered.put(line, out)
            }
        }
    }
}

/// The multipliers of the leaf that has this line.
fn leaf_of(line: &[u8], room: &mut Room) -> Option<ArrayVec<i64, 32>>
    requires { 0 < length line.now }
    ensures is { (r : Record) → IsRecord r → line.now ≡ line_of r → shown.sort_of r ≡ Sort.Leaf
        → MatchOption result ⊥ (λ multipliers. r ≡ step (leaf multipliers.items)) }
    ensures lawful { IfSome result (λ multipliers. IsRecord (step (leaf multipliers.items))) }
{
    match read_record(&line[..line.len() - 1], room)? {
        Line::Leaf(multipliers) => Some(multipliers),
        _ => None,
    }
}

/// Gathers the line of these changes, which may stand in a record.
fn put_changes<K: Sink>(
    changes: ArrayVec<Change, 32>,
    writer: &mut LineWriter,
    gathered: &mut Gathered,
    out: &mut K,
) -> Result<(), SinkFault>
    requires { IsRecord (near (map change_of changes.items)) }
    ensures { IsGathered gathered.new (gathered.old ++ line_of (near (map change_of changes.items)))
        result (K.taken out.old) (K.taken out.new) }
{
    writer.clear();
    write_record(&Line::Near(changes), writer);
    gathered.put(writer.end(), out)
}

/// Puts the records behind a journal's head.
fn put_behind_head<K: Sink>(
    goods: u64,
    records: &mut Records<'_>,
    out: &mut K,
) -> Result<(), SinkFault>
    ensures { (left : List Record) → IsJournal records.old left
        → IsPut (bytes_of (packed_records goods (all_zero goods) left)) result
        (K.taken out.old) (K.taken out.new) }
{
    let mut packing = Packing::new(goods);
    let mut writer = LineWriter::new();
    let mut gathered = Gathered::new();
    while let Some(line) = records.next_line() {
        packing.put_line(line, &mut writer, &mut gathered, out)?;
    }
    gathered.flush(out)
}

/// Puts a version 1 journal that was judged, in version 2, line for line: each leaf as what it
/// changes of the leaf before it in its log. From what is put the journal comes back. It takes no
/// memory.
pub fn put_packed<K: Sink>(bytes: &[u8], out: &mut K) -> Result<(), SinkFault>
    requires { OfJournal bytes.now IsMigrated }
    ensures { OfJournal bytes.now (λ journal. PutsPacked journal result
        (K.taken out.old) (K.taken out.new)) }
{
    let goods = Counts::of_all(bytes).goods;
    let mut records = Records::new(bytes);
    let Some(Line::Head { kind, .. }) = records.next(&mut Room::new()) else {
        return Ok(());
    };
    put_record(
        &Line::Head {
            version: Version::Two,
            kind,
        },
        out,
    )?;
    put_behind_head(goods, &mut records, out)
}
