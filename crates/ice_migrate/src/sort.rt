//! What the migration of a line goes by.
ghost use Rattle.std.specs.Prelude.{◌≡◌};
ghost use Rattle.ice_journal.specs.Records.{Record};
ghost use Rattle.ice_journal.specs.Spelling.{line_of};
ghost use Rattle.ice_migrate.specs.Sorts as shown;

/// What the migration of a record goes by.
#[derive(Clone, Copy)]
pub(crate) enum Sort {
    /// It names a good.
    Good,
    /// It names a bidder.
    Bidder,
    /// It is a leaf of a log.
    Leaf,
    /// It is another step of a log.
    Step,
    /// It is none of these.
    Other,
}

/// The sort of a record whose line has these bytes first and third.
fn sort_by(first: u8, third: u8) -> Sort
    ensures { result ≡ shown.sort_by first third }
{
    if first == b'g' && third == b'o' {
        Sort::Good
    } else if first == b'e' && third == b'a' {
        Sort::Good
    } else if first == b'b' && third == b'd' {
        Sort::Bidder
    } else if first == b'l' && third == b'a' {
        Sort::Leaf
    } else if first == b'b' && third == b'a' {
        Sort::Step
    } else if first == b'd' && third == b'a' {
        Sort::Step
    } else {
        Sort::Other
    }
}

/// The sort of the record that has this line.
pub(crate) fn sort_of(line: &[u8]) -> Sort
    ensures { (r : Record) → line.now ≡ line_of r → shown.sort_of r ≡ result }
{
    match line {
        [first, _, third, ..] => sort_by(*first, *third),
        _ => Sort::Other,
    }
}
