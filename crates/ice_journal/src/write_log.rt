//! The records of assignments, groups and logs, written into a line.
ghost use Rattle.std.specs.Prelude.{◌≡◌, ◌≤◌, [], length, map};
ghost use Rattle.std.specs.List.{flat_map};
ghost use Rattle.ice_defs.specs.Steps.{branch, leaf};
ghost use Rattle.ice_line.specs.Writing.{with_fields};
ghost use Rattle.ice_journal.specs.Records as line;
ghost use Rattle.ice_journal.specs.Spelling.{text_of, change_fields};
ghost use Rattle.ice_journal.specs.Lines.{change_of};

use crate::line::Change;
use crate::write_fields::{put_integers, put_set};
use ice_line::LineWriter;
use ice_set::NodeSet;

pub(crate) fn put_without(bidder: u8, value: i64, to: &mut LineWriter)
    requires { to.old ≡ [] }
    ensures text { to.new ≡ text_of (line.without bidder value) }
    ensures short { length to.new ≤ 8192 }
{
    to.word(b"without");
    to.natural(u64::from(bidder));
    to.integer(value);
}

pub(crate) fn put_set_record(set: &NodeSet, to: &mut LineWriter)
    requires { to.old ≡ [] }
    ensures text { to.new ≡ text_of (line.set set.now) }
    ensures short { length to.new ≤ 8192 }
{
    to.word(b"set");
    put_set(set, to);
}

pub(crate) fn put_branch(bidder: u8, node: u16, to: &mut LineWriter)
    requires { to.old ≡ [] }
    ensures text { to.new ≡ text_of (line.step (branch bidder node)) }
    ensures short { length to.new ≤ 8192 }
{
    to.word(b"branch");
    to.natural(u64::from(bidder));
    to.natural(u64::from(node));
}

pub(crate) fn put_leaf(multipliers: &[i64], to: &mut LineWriter)
    requires empty { to.old ≡ [] }
    requires count { length multipliers.now ≤ 32 }
    ensures text { to.new ≡ text_of (line.step (leaf multipliers.now)) }
    ensures short { length to.new ≤ 8192 }
{
    to.word(b"leaf");
    put_integers(multipliers, to);
}

fn put_changes(changes: &[Change], to: &mut LineWriter)
    requires room { length to.old ≤ 1000 }
    requires count { length changes.now ≤ 32 }
    ensures text { to.new ≡ with_fields to.old (flat_map change_fields (map change_of changes.now)) }
    ensures short { length to.new ≤ 3624 }
{
    for change in changes {
        to.natural(u64::from(change.good));
        to.integer(change.multiplier);
    }
}

pub(crate) fn put_near(changes: &[Change], to: &mut LineWriter)
    requires empty { to.old ≡ [] }
    requires count { length changes.now ≤ 32 }
    ensures text { to.new ≡ text_of (line.near (map change_of changes.now)) }
    ensures short { length to.new ≤ 8192 }
{
    to.word(b"near");
    to.natural(changes.len() as u64);
    put_changes(changes, to);
}
