//! The first words of records.
ghost use Rattle.std.specs.Prelude.{◌≡◌, ◌<◌, length};
ghost use Rattle.ice_line.specs.Reading.{Reads};
ghost use Rattle.ice_journal.specs.Words.{word_text};

/// The first word of a record.
#[derive(Clone, Copy)]
pub enum Word {
    /// The head: version and kind.
    Ice,
    /// The settings of a session.
    Settings,
    /// A good that may be left over.
    Good,
    /// A good of which all that is sold must be bought.
    Exact,
    /// A bidder, with what it owns.
    Bidder,
    /// A node of a tree, with its bounds.
    Node,
    /// The sets of an assignment follow.
    Assign,
    /// A settlement begins, with its number.
    Settle,
    /// The value of the final sets.
    Final,
    /// The value of the rival sets.
    Rival,
    /// The value of the provisional sets, in hundredths.
    Provisional,
    /// The value of the best sets without a bidder.
    Without,
    /// The set of one bidder.
    Set,
    /// A side of a log is split at a node of a bidder.
    Branch,
    /// A side of a log ends at these multipliers.
    Leaf,
    /// A side of a log ends at a bidder without a set in it.
    Dead,
    /// A side of a log ends at the multipliers before, with these changes.
    Near,
    /// A side of a log ends at the multipliers and tolls before, with these changes.
    Tolled,
    /// A derivation begins, with the limit of its derived good.
    Derive,
    /// What the nodes of a bidder take of a derived good.
    Amounts,
    /// The regret.
    Regret,
    /// Prices over one denominator.
    Prices,
    /// The first test of prices: its violation, over a denominator.
    Accuracy,
    /// The second test of prices: its denominator.
    Balance,
    /// A weighted set of a certificate.
    Row,
    /// A bid, by its name and its values.
    Submit,
    /// What the round says of a bid.
    Verdict,
    /// The cut and the surplus of the payments.
    Threshold,
    /// What a bidder pays, and why.
    Payment,
    /// The branches are spent: what was found till then.
    Spent,
    /// The stage and the limit of pricing that was reached.
    Limit,
    /// A set of the pool of pricing.
    Pool,
    /// The last record: how the journal ends.
    End,
    /// A file that was read and refused, with the place of the fault.
    Refused,
    /// A file that could not be read.
    Unread,
}

/// The word of three letters.
fn word_of_three(field: &[u8]) -> Option<Word>
    ensures { Reads result (λ word. length (word_text word) ≡ 3) word_text field.now }
{
    if field == b"ice".as_slice() {
        Some(Word::Ice)
    } else if field == b"set".as_slice() {
        Some(Word::Set)
    } else if field == b"row".as_slice() {
        Some(Word::Row)
    } else if field == b"end".as_slice() {
        Some(Word::End)
    } else {
        None
    }
}

/// The word of four letters.
fn word_of_four(field: &[u8]) -> Option<Word>
    ensures { Reads result (λ word. length (word_text word) ≡ 4) word_text field.now }
{
    if field == b"good".as_slice() {
        Some(Word::Good)
    } else if field == b"node".as_slice() {
        Some(Word::Node)
    } else if field == b"leaf".as_slice() {
        Some(Word::Leaf)
    } else if field == b"dead".as_slice() {
        Some(Word::Dead)
    } else if field == b"near".as_slice() {
        Some(Word::Near)
    } else if field == b"pool".as_slice() {
        Some(Word::Pool)
    } else {
        None
    }
}

/// The word of five letters.
fn word_of_five(field: &[u8]) -> Option<Word>
    ensures { Reads result (λ word. length (word_text word) ≡ 5) word_text field.now }
{
    if field == b"exact".as_slice() {
        Some(Word::Exact)
    } else if field == b"final".as_slice() {
        Some(Word::Final)
    } else if field == b"rival".as_slice() {
        Some(Word::Rival)
    } else if field == b"spent".as_slice() {
        Some(Word::Spent)
    } else if field == b"limit".as_slice() {
        Some(Word::Limit)
    } else {
        None
    }
}

/// The word of six letters.
fn word_of_six(field: &[u8]) -> Option<Word>
    ensures { Reads result (λ word. length (word_text word) ≡ 6) word_text field.now }
{
    if field == b"bidder".as_slice() {
        Some(Word::Bidder)
    } else if field == b"assign".as_slice() {
        Some(Word::Assign)
    } else if field == b"settle".as_slice() {
        Some(Word::Settle)
    } else if field == b"branch".as_slice() {
        Some(Word::Branch)
    } else if field == b"tolled".as_slice() {
        Some(Word::Tolled)
    } else if field == b"derive".as_slice() {
        Some(Word::Derive)
    } else if field == b"regret".as_slice() {
        Some(Word::Regret)
    } else if field == b"prices".as_slice() {
        Some(Word::Prices)
    } else if field == b"submit".as_slice() {
        Some(Word::Submit)
    } else if field == b"unread".as_slice() {
        Some(Word::Unread)
    } else {
        None
    }
}

/// The word of seven letters.
fn word_of_seven(field: &[u8]) -> Option<Word>
    ensures { Reads result (λ word. length (word_text word) ≡ 7) word_text field.now }
{
    if field == b"without".as_slice() {
        Some(Word::Without)
    } else if field == b"amounts".as_slice() {
        Some(Word::Amounts)
    } else if field == b"balance".as_slice() {
        Some(Word::Balance)
    } else if field == b"verdict".as_slice() {
        Some(Word::Verdict)
    } else if field == b"payment".as_slice() {
        Some(Word::Payment)
    } else if field == b"refused".as_slice() {
        Some(Word::Refused)
    } else {
        None
    }
}

/// The word of eight letters.
fn word_of_eight(field: &[u8]) -> Option<Word>
    ensures { Reads result (λ word. length (word_text word) ≡ 8) word_text field.now }
{
    if field == b"settings".as_slice() {
        Some(Word::Settings)
    } else if field == b"accuracy".as_slice() {
        Some(Word::Accuracy)
    } else {
        None
    }
}

/// The longer ones.
fn long_word(field: &[u8]) -> Option<Word>
    ensures { Reads result (λ word. 8 < length (word_text word)) word_text field.now }
{
    if field == b"threshold".as_slice() {
        Some(Word::Threshold)
    } else if field == b"provisional".as_slice() {
        Some(Word::Provisional)
    } else {
        None
    }
}

/// The first word of a record that this field is.
pub fn read_word(field: &[u8]) -> Option<Word>
    ensures { Reads result (λ _. Unit {0}) word_text field.now }
{
    match field.len() {
        3 => word_of_three(field),
        4 => word_of_four(field),
        5 => word_of_five(field),
        6 => word_of_six(field),
        7 => word_of_seven(field),
        8 => word_of_eight(field),
        _ => long_word(field),
    }
}
