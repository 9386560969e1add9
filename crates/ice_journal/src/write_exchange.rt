//! The records of heads and exchanges, written into a line.
ghost use Rattle.std.specs.Prelude.{◌≡◌, ◌≤◌, [], ◌∷◌, codes, length, map, decimal};
ghost use Rattle.std.specs.Fmt.{signed_decimal};
ghost use Rattle.std.specs.List.{join_with_byte};
ghost use Rattle.ice_line.specs.Writing.{with_fields};
ghost use Rattle.ice_journal.specs.Nodes.{node_record};
ghost use Rattle.ice_journal.specs.Records as line;
ghost use Rattle.ice_journal.specs.Spelling.{text_of, version_word, kind_word, derived_fields};
ghost use Rattle.ice_journal.specs.Lines.{version_of, kind_of};

use crate::line::{Kind, Version};
use ice_defs::NodeKind;
use ice_line::LineWriter;
use ice_terms::{Name, Settings};

fn version_text(version: Version) -> &'static [u8]
    ensures text { result.now ≡ version_word (version_of version) }
    ensures short { length result.now ≤ 8 }
{
    match version {
        Version::One => b"1",
        Version::Two => b"2",
    }
}

fn kind_text(kind: Kind) -> &'static [u8]
    ensures text { result.now ≡ kind_word (kind_of kind) }
    ensures short { length result.now ≤ 8 }
{
    match kind {
        Kind::Assign => b"assign",
        Kind::Regret => b"regret",
        Kind::Session => b"session",
        Kind::Exchange => b"exchange",
        Kind::Prices => b"prices",
    }
}

pub(crate) fn put_head(version: Version, kind: Kind, to: &mut LineWriter)
    requires { to.old ≡ [] }
    ensures text { to.new ≡ text_of (line.head (version_of version) (kind_of kind)) }
    ensures short { length to.new ≤ 8192 }
{
    to.word(b"ice");
    to.word(version_text(version));
    to.word(kind_text(kind));
}

/// How many derived goods there may be, where there may be some.
fn put_derived(derived: u16, to: &mut LineWriter)
    requires { length to.old ≤ 1000 }
    ensures text { to.new ≡ with_fields to.old (derived_fields derived) }
    ensures short { length to.new ≤ 8192 }
{
    if derived > 0 {
        to.natural(u64::from(derived));
    }
}

pub(crate) fn put_settings(settings: &Settings, to: &mut LineWriter)
    requires { to.old ≡ [] }
    ensures text { to.new ≡ text_of (line.settings settings.now) }
    ensures short { length to.new ≤ 8192 }
{
    to.word(b"settings");
    to.natural(u64::from(settings.weight));
    to.integer(settings.close_regret);
    to.integer(settings.cap);
    to.integer(settings.improve);
    to.natural(u64::from(settings.rounds));
    to.natural(u64::from(settings.branches));
    put_derived(settings.derived, to);
}

fn put_amounts(own: &[u32], to: &mut LineWriter)
    requires room { length to.old ≤ 1000 }
    requires count { length own.now ≤ 32 }
    ensures text { to.new ≡ with_fields to.old (map decimal own.now) }
    ensures short { length to.new ≤ 2312 }
{
    for amount in own {
        to.natural(u64::from(*amount));
    }
}

pub(crate) fn put_bidder(name: &Name, own: &[u32], to: &mut LineWriter)
    requires empty { to.old ≡ [] }
    requires count { length own.now ≤ 32 }
    ensures text { to.new ≡ text_of (line.bidder name.now own.now) }
    ensures short { length to.new ≤ 8192 }
{
    to.word(b"bidder");
    to.word(name.bytes());
    put_amounts(own, to);
}

fn put_choose(least: u16, most: u16, children: u16, lo: i64, hi: i64, to: &mut LineWriter)
    requires { to.old ≡ [] }
    ensures text { to.new ≡ text_of (line.choose least most children lo hi) }
    ensures short { length to.new ≤ 8192 }
{
    to.word(b"node");
    to.word(b"choose");
    to.natural(u64::from(least));
    to.natural(u64::from(most));
    to.natural(u64::from(children));
    to.integer(lo);
    to.integer(hi);
}

/// The record of a leaf with this word.
fn put_leaf(word: &[u8], good: u8, units: u16, lo: i64, hi: i64, to: &mut LineWriter)
    requires empty { to.old ≡ [] }
    requires short { length word.now ≤ 20 }
    ensures text { to.new ≡ join_with_byte 32 (codes "node" ∷ word.now ∷ decimal good ∷ decimal units ∷ signed_decimal lo ∷ signed_decimal hi ∷ []) }
    ensures short { length to.new ≤ 8192 }
{
    to.word(b"node");
    to.word(word);
    to.natural(u64::from(good));
    to.natural(u64::from(units));
    to.integer(lo);
    to.integer(hi);
}

pub(crate) fn put_node(kind: NodeKind, children: u16, lo: i64, hi: i64, to: &mut LineWriter)
    requires { to.old ≡ [] }
    ensures text { to.new ≡ text_of (node_record kind children lo hi) }
    ensures short { length to.new ≤ 8192 }
{
    match kind {
        NodeKind::Choose { least, most } => put_choose(least, most, children, lo, hi, to),
        NodeKind::Buy { good, units } => put_leaf(b"buy", good, units, lo, hi, to),
        NodeKind::Sell { good, units } => put_leaf(b"sell", good, units, lo, hi, to),
    }
}
