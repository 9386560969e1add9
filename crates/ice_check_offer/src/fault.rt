//! Which test a record fails, and where.
use ice_journal_laws::Rule;

/// The first failed test.
#[derive(Clone, Copy, PartialEq, Eq, Debug)]
pub enum Fault {
    /// The record fails this test.
    Here(Rule),
    /// The list of rows that ended before the record fails this test, which names the list's last
    /// line.
    List(Rule),
}

impl From<Rule> for Fault {
    ghost use Rattle.std.specs.Prelude.{◌≡◌};
    ghost use Rattle.ice_check_offer.specs.declared.fault.Fault.TheVariants.{Here};

    ghost from_gives = { λ rule fault. fault ≡ Here rule };

    /// What fails outside a list of rows, fails at the record itself.
    fn from(rule: Rule) -> Fault {
        Fault::Here(rule)
    }
}
