//! The lines that say a settlement, each written into an empty writer.
ghost use Rattle.std.specs.Prelude.{◌≡◌, ◌+◌, ◌<◌, ◌≤◌, [], ◌∷◌, length};
ghost use Rattle.std.specs.Fmt.{signed_decimal};
ghost use Rattle.ice_defs.specs.Lawful.{AreBounds};
ghost use Rattle.ice_defs.specs.Set.{weight_of};
ghost use Rattle.ice_line.specs.Writing.{with_field, with_fields};
ghost use Rattle.ice_journal.specs.Ranges.{IsValue};
ghost use Rattle.ice_journal.specs.Records as line;
ghost use Rattle.ice_journal.specs.Spelling.{line_of};
ghost use Rattle.ice_replay.specs.Lines.{pairs, bidder_line};

use crate::settlement::{BidderBounds, Replay};
use ice_line::LineWriter;
use ice_tree::Bounds;

/// Writes the line of a settlement's number.
pub(crate) fn write_settle<'a>(number: u8, to: &'a mut LineWriter) -> &'a [u8]
    requires { to.old ≡ [] }
    ensures { result.now ≡ line_of (line.settle number) }
{
    to.word(b"settle");
    to.natural(u64::from(number));
    to.end()
}

/// Writes the line of the final value.
pub(crate) fn write_final<'a>(replay: &Replay, to: &'a mut LineWriter) -> &'a [u8]
    requires { to.old ≡ [] }
    ensures { result.now ≡ line_of (line.final replay.now.final_value) }
{
    to.word(b"final");
    to.integer(replay.final_value);
    to.end()
}

/// Writes the line of the regret.
pub(crate) fn write_regret<'a>(replay: &Replay, to: &'a mut LineWriter) -> &'a [u8]
    requires { to.old ≡ [] }
    ensures { result.now ≡ line_of (line.regret replay.now.regret) }
{
    to.word(b"regret");
    to.integer(replay.regret);
    to.end()
}

/// Writes a value of a node.
fn write_value(value: i64, to: &mut LineWriter)
    requires room { length to.old ≤ 8000 }
    requires value { IsValue value }
    ensures field { to.new ≡ with_field to.old (signed_decimal value) }
    ensures len { length to.new ≤ length to.old + 12 }
{
    to.integer(value);
}

/// Writes the lower and the upper value of a node.
fn write_node(bounds: &Bounds, node: u16, to: &mut LineWriter)
    requires room { length to.old ≤ 7000 }
    requires node { node < length bounds.now.lo }
    requires bounds { AreBounds (length bounds.now.lo) bounds.now }
    ensures fields { to.new ≡ with_fields to.old (signed_decimal (weight_of bounds.now.lo node)
        ∷ signed_decimal (weight_of bounds.now.hi node) ∷ []) }
    ensures len { length to.new ≤ length to.old + 24 }
{
    write_value(bounds.lo(node), to);
    write_value(bounds.hi(node), to);
}

/// Writes the lower and the upper value of each node.
fn write_nodes(bounds: &Bounds, to: &mut LineWriter)
    requires { length to.old ≤ 100 }
    ensures fields { to.new ≡ with_fields to.old (pairs bounds.now.lo bounds.now.hi) }
    ensures len { length to.new ≤ 5000 }
{
    for node in 0..bounds.len() {
        write_node(bounds, node, to);
    }
}

/// Writes the line of a bidder's bounds.
pub(crate) fn write_bidder<'a>(bidder: &BidderBounds, to: &'a mut LineWriter) -> &'a [u8]
    requires { to.old ≡ [] }
    ensures { result.now ≡ bidder_line bidder.now }
{
    to.word(b"bounds");
    to.word(bidder.name.bytes());
    write_nodes(&bidder.bounds, to);
    to.end()
}
