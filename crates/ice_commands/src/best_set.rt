//! The best set of a bidder.
ghost use Rattle.std.specs.Prelude.{◌≡◌, [], ◌∷◌, codes};
ghost use Rattle.std.specs.Fmt.{signed_decimal};
ghost use Rattle.ice_edge.specs.Puts.{IsPut};
ghost use Rattle.ice_journal.specs.Ranges.{IsBits};
ghost use Rattle.ice_journal.specs.Records as line;
ghost use Rattle.ice_journal.specs.Spelling.{line_of};
ghost use Rattle.ice_command_parts.specs.Lines.{line_text};

use ice_edge::{Sink, SinkFault};
use ice_journal::{Line, write_record};
use ice_line::LineWriter;
use ice_terms::Name;
use ice_tree::NodeSet;

/// A bidder's best set at prices: its net, at weighted values and times the prices' denominator.
#[derive(Drop)]
pub struct BestSet {
    /// The bidder's name.
    pub name: Name,
    /// The net of the set.
    pub net: i128,
    /// The set, one bit a node.
    pub set: NodeSet,
    ghost has_bits: { IsBits set },
}

impl BestSet {
    ghost use Rattle.ice_commands.specs.Bests.{lines_of};

    /// Writes the line of the net.
    fn write_net<'a>(&self, to: &'a mut LineWriter) -> &'a [u8]
        requires { to.old ≡ [] }
        ensures { result.now
            ≡ line_text (codes "best" ∷ self.now.name ∷ signed_decimal self.now.net ∷ []) }
    {
        to.word(b"best");
        to.word(self.name.bytes());
        to.number(self.net);
        to.end()
    }

    /// Writes the line of the set.
    fn write_set<'a>(&self, to: &'a mut LineWriter) -> &'a [u8]
        requires { to.old ≡ [] }
        ensures { result.now ≡ line_of (line.set self.now.set) }
    {
        write_record(&Line::Set(self.set), to);
        to.end()
    }

    /// Puts its two lines.
    pub fn put<K: Sink>(&self, out: &mut K) -> Result<(), SinkFault>
        ensures { IsPut (lines_of self.now) result (K.taken out.old) (K.taken out.new) }
    {
        let mut writer = LineWriter::new();
        out.put(self.write_net(&mut writer))?;
        let mut writer = LineWriter::new();
        out.put(self.write_set(&mut writer))
    }
}
