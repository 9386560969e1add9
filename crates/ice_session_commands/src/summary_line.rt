//! A line of the summary of a generated session.
ghost use Rattle.std.specs.Prelude.{◌≡◌, []};
ghost use Rattle.ice_edge.specs.Puts.{IsPut};

use ice_edge::{Sink, SinkFault};
use ice_frac::Frac;
use ice_line::LineWriter;

/// A line of the summary of a generated session.
#[derive(Clone, Copy)]
pub enum SummaryLine {
    /// The number that the exchange is generated from.
    Generated(u32),
    /// How many goods it has.
    Goods,
    /// How many bidders.
    Bidders,
    /// How many nodes all trees have.
    Nodes,
    /// The best value at the opening bounds, and the regret there.
    Opened(i128, i128),
    /// The settlement that closed the session.
    Settled(u8),
    /// The best value there.
    Total(i128),
    /// The regret there.
    Regret(i128),
    /// What the discounts leave of the total.
    Surplus(Frac),
    /// The last line.
    End,
}

impl SummaryLine {
    ghost use Rattle.ice_session_commands.specs.GenLines.{summary_line};

    /// Writes it with its newline.
    fn write<'a>(&self, to: &'a mut LineWriter) -> &'a [u8]
        requires { to.old ≡ [] }
        ensures { result.now ≡ summary_line self.now }
    {
        match self {
            SummaryLine::Generated(number) => {
                to.word(b"gen");
                to.natural(u64::from(*number));
            }
            SummaryLine::Goods => {
                to.word(b"goods");
                to.word(b"12");
            }
            SummaryLine::Bidders => {
                to.word(b"bidders");
                to.word(b"8");
            }
            SummaryLine::Nodes => {
                to.word(b"nodes");
                to.word(b"68");
            }
            SummaryLine::Opened(value, regret) => {
                to.word(b"opened");
                to.number(*value);
                to.number(*regret);
            }
            SummaryLine::Settled(number) => {
                to.word(b"settled");
                to.natural(u64::from(*number));
            }
            SummaryLine::Total(value) => {
                to.word(b"total");
                to.number(*value);
            }
            SummaryLine::Regret(amount) => {
                to.word(b"regret");
                to.number(*amount);
            }
            SummaryLine::Surplus(surplus) => {
                to.word(b"surplus");
                to.fraction(surplus.num(), surplus.den() as i128);
            }
            SummaryLine::End => {
                to.word(b"end");
                to.word(b"gen");
            }
        }
        to.end()
    }

    /// Puts it.
    pub fn put<K: Sink>(&self, out: &mut K) -> Result<(), SinkFault>
        ensures { IsPut (summary_line self.now) result (K.taken out.old) (K.taken out.new) }
    {
        let mut writer = LineWriter::new();
        out.put(self.write(&mut writer))
    }
}
