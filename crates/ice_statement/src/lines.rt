//! The lines of a statement that are no records.
ghost use Rattle.std.specs.Prelude.{◌≡◌, ◌≤◌, [], length};
ghost use Rattle.ice_journal.specs.Spelling.{bits};
ghost use Rattle.ice_statement_laws.specs.Statement.{kept, offered};
ghost use Rattle.ice_statement_laws.specs.Texts.{line_text};

use arrayvec::ArrayVec;
use ice_line::LineWriter;
use ice_set::NodeSet;

/// One character per node.
fn bits_text(set: &NodeSet) -> ArrayVec<u8, 200>
    ensures text { result.items ≡ bits set.now }
    ensures short { length result.items ≤ 200 }
{
    let mut text = ArrayVec::new();
    for node in 0..set.len() {
        text.push(if set.has(node) { b'1' } else { b'0' });
    }
    text
}

/// Writes the line of the bidder's final set.
pub(crate) fn write_kept<'a>(set: &NodeSet, to: &'a mut LineWriter) -> &'a [u8]
    requires { to.old ≡ [] }
    ensures { result.now ≡ line_text (kept set.now) }
{
    to.word(b"kept");
    to.word(&bits_text(set));
    to.end()
}

/// Writes the line of the bidder's provisional set.
pub(crate) fn write_offered<'a>(set: &NodeSet, to: &'a mut LineWriter) -> &'a [u8]
    requires { to.old ≡ [] }
    ensures { result.now ≡ line_text (offered set.now) }
{
    to.word(b"offered");
    to.word(&bits_text(set));
    to.end()
}
