//! What records are read as.
use ice_defs::{LimitKind, NodeKind, PricingStage, Verdict};
use ice_journal::{
    Change, EndWord, Kind, Line, LowestFraction, Numbered, Room, Version, read_record,
};
use ice_set::NodeSet;
use ice_terms::Settings;

/// What a record is read as.
#[derive(Clone, Copy)]
enum Meaning {
    Head(Version, Kind),
    End(EndWord),
    Limit(PricingStage, LimitKind),
    Verdict(Verdict),
    /// The one record of its form in `RECORDS`.
    OfItsForm,
}

/// Each word that a field may be.
const WORDS: [(&str, Meaning); 31] = [
    ("ice 1 assign", Meaning::Head(Version::One, Kind::Assign)),
    ("ice 1 regret", Meaning::Head(Version::One, Kind::Regret)),
    ("ice 1 session", Meaning::Head(Version::One, Kind::Session)),
    (
        "ice 1 exchange",
        Meaning::Head(Version::One, Kind::Exchange),
    ),
    ("ice 1 prices", Meaning::Head(Version::One, Kind::Prices)),
    ("ice 2 regret", Meaning::Head(Version::Two, Kind::Regret)),
    ("ice 2 session", Meaning::Head(Version::Two, Kind::Session)),
    ("end assign", Meaning::End(EndWord::Assign)),
    ("end exchange", Meaning::End(EndWord::Exchange)),
    ("end prices", Meaning::End(EndWord::Prices)),
    ("end regret", Meaning::End(EndWord::Regret)),
    ("end closed", Meaning::End(EndWord::Closed)),
    ("end open", Meaning::End(EndWord::Open)),
    ("end spent", Meaning::End(EndWord::Spent)),
    ("end limit", Meaning::End(EndWord::Limit)),
    (
        "limit accuracy wide 0 1",
        Meaning::Limit(PricingStage::Accuracy, LimitKind::Wide),
    ),
    (
        "limit accuracy pivots 0 1",
        Meaning::Limit(PricingStage::Accuracy, LimitKind::Pivots),
    ),
    (
        "limit accuracy rows 0 1",
        Meaning::Limit(PricingStage::Accuracy, LimitKind::Rows),
    ),
    (
        "limit accuracy den 0 1",
        Meaning::Limit(PricingStage::Accuracy, LimitKind::Den),
    ),
    (
        "limit balance wide 0 1",
        Meaning::Limit(PricingStage::Balance, LimitKind::Wide),
    ),
    (
        "limit balance pivots 0 1",
        Meaning::Limit(PricingStage::Balance, LimitKind::Pivots),
    ),
    (
        "limit balance rows 0 1",
        Meaning::Limit(PricingStage::Balance, LimitKind::Rows),
    ),
    (
        "limit balance den 0 1",
        Meaning::Limit(PricingStage::Balance, LimitKind::Den),
    ),
    ("verdict accepted", Meaning::Verdict(Verdict::Accepted)),
    (
        "verdict 40 7",
        Meaning::Verdict(Verdict::Loosened { node: 7 }),
    ),
    (
        "verdict 41 7",
        Meaning::Verdict(Verdict::Crossed { node: 7 }),
    ),
    ("verdict 42", Meaning::Verdict(Verdict::Mrpar)),
    ("verdict 43", Meaning::Verdict(Verdict::Improve)),
    ("verdict 44", Meaning::Verdict(Verdict::Repeated)),
    ("verdict 45", Meaning::Verdict(Verdict::UnknownBidder)),
    ("verdict 46", Meaning::Verdict(Verdict::WrongCount)),
];

/// The set of the first and the third of three nodes.
fn is_101(set: &NodeSet) -> bool {
    set.len() == 3 && set.has(0) && !set.has(1) && set.has(2)
}

fn is_fraction(fraction: &LowestFraction, num: i64, den: u16) -> bool {
    fraction.num == num && fraction.den == den
}

fn are_settings(settings: &Settings) -> bool {
    ((settings.weight == 1 && settings.derived == 0)
        || (settings.weight == 70 && settings.derived == 71))
        && settings.close_regret == 2
        && settings.cap == 3
        && settings.improve == 4
        && settings.rounds == 5
        && settings.branches == 6
}

/// One record of each form, no two with the same numbers; of settings both spellings.
const RECORDS: [&str; 35] = [
    "settings 1 2 3 4 5 6",
    "settings 70 2 3 4 5 6 71",
    "good g",
    "exact e",
    "bidder b 11 12",
    "node choose 13 14 15 16 17",
    "node buy 18 19 20 21",
    "node sell 22 23 24 25",
    "assign",
    "settle 7",
    "final 31",
    "rival 32",
    "provisional 33",
    "without 34 35",
    "set 101",
    "branch 36 37",
    "leaf 38 39",
    "dead 30",
    "near 2 8 9 10 11",
    "tolled 2 63 2048 64 -40960",
    "derive -65",
    "amounts 27 2 66 67 68 -69",
    "regret 40",
    "prices 41 42 43",
    "accuracy 44 45",
    "balance 46",
    "row 29 47 101",
    "submit s 2 48 49 1 50",
    "threshold 51/2 53/5",
    "payment p 54 55/7 57/8",
    "spent 58 59",
    "limit accuracy wide 60 61",
    "pool 28 101",
    "refused 12 62 place",
    "unread 13",
];

/// Is the record the one of its form, among those of an exchange.
fn is_meant_of_exchange(line: &Line) -> bool {
    match line {
        Line::Settings(settings) => are_settings(settings),
        Line::Good(name) => name.text() == "g",
        Line::Exact(name) => name.text() == "e",
        Line::Bidder { name, own } => name.text() == "b" && own.as_slice() == [11, 12].as_slice(),
        Line::Node {
            kind,
            children,
            lo,
            hi,
        } => is_meant_node(*kind, *children, *lo, *hi),
        _ => false,
    }
}

fn is_meant_node(kind: NodeKind, children: u16, lo: i64, hi: i64) -> bool {
    match kind {
        NodeKind::Choose {
            least: 13,
            most: 14,
        } => children == 15 && lo == 16 && hi == 17,
        NodeKind::Buy {
            good: 18,
            units: 19,
        } => lo == 20 && hi == 21,
        NodeKind::Sell {
            good: 22,
            units: 23,
        } => lo == 24 && hi == 25,
        _ => false,
    }
}

/// Is the record the one of its form, among those of groups and logs.
fn is_meant_of_log(line: &Line) -> bool {
    match line {
        Line::Assign => true,
        Line::Settle { number: 7 } => true,
        Line::Final { value: 31 } => true,
        Line::Rival { value: 32 } => true,
        Line::Provisional { value: 33 } => true,
        Line::Without {
            bidder: 34,
            value: 35,
        } => true,
        Line::Set(set) => is_101(set),
        Line::Branch {
            bidder: 36,
            node: 37,
        } => true,
        Line::Leaf(multipliers) => multipliers.as_slice() == [38, 39].as_slice(),
        Line::Dead { bidder: 30 } => true,
        Line::Near(changes) => are_meant_changes(changes),
        Line::Tolled(tolls) => are_numbers(tolls, [(63, 2048), (64, -40960)]),
        Line::Derive { limit: -65 } => true,
        Line::Amounts {
            bidder: 27,
            numbers,
        } => are_numbers(numbers, [(66, 67), (68, -69)]),
        Line::Regret { amount: 40 } => true,
        _ => false,
    }
}

fn are_meant_changes(changes: &[Change]) -> bool {
    match changes {
        [first, second] => {
            first.good == 8 && first.multiplier == 9 && second.good == 10 && second.multiplier == 11
        }
        _ => false,
    }
}

/// Are these the two numbers, with these amounts.
fn are_numbers(numbers: &[Numbered], due: [(u16, i64); 2]) -> bool {
    match numbers {
        [first, second] => {
            first.number == due[0].0
                && first.amount == due[0].1
                && second.number == due[1].0
                && second.amount == due[1].1
        }
        _ => false,
    }
}

/// Is the record the one of its form, among those of prices, rounds and settlements, ends and
/// refusals.
fn is_meant_of_session(line: &Line) -> bool {
    match line {
        Line::Prices(prices) => prices.den() == 41 && prices.nums() == [42, 43].as_slice(),
        Line::Accuracy {
            violation: 44,
            den: 45,
        } => true,
        Line::Balance { den: 46 } => true,
        Line::Row {
            bidder: 29,
            weight: 47,
            set,
        } => is_101(set),
        Line::Submit { name, lo, hi } => {
            name.text() == "s"
                && lo.as_slice() == [48, 49].as_slice()
                && hi.as_slice() == [50].as_slice()
        }
        Line::Threshold { cut, surplus } => {
            is_fraction(cut, 51, 2) && is_fraction(surplus, 53, 5)
        }
        Line::Payment {
            name,
            vickrey: 54,
            discount,
            payment,
        } => { name.text() == "p" && is_fraction(discount, 55, 7) && is_fraction(payment, 57, 8) }
        Line::Spent {
            value: 58,
            bound: 59,
        } => true,
        Line::Limit {
            violation: 60,
            den: 61,
            ..
        } => true,
        Line::Pool { bidder: 28, set } => is_101(set),
        Line::Refused {
            file: 12,
            number: 62,
            place,
        } => place.as_slice() == b"place".as_slice(),
        Line::Unread { file: 13 } => true,
        _ => false,
    }
}

/// Is the record the one of its form.
fn is_of_its_form(line: &Line) -> bool {
    is_meant_of_exchange(line) || is_meant_of_log(line) || is_meant_of_session(line)
}

fn is_meant(line: &Line, meaning: &Meaning) -> bool {
    match meaning {
        Meaning::Head(due_version, due_kind) => match line {
            Line::Head { version, kind } => version == due_version && kind == due_kind,
            _ => false,
        },
        Meaning::End(due) => match line {
            Line::End(word) => word == due,
            _ => false,
        },
        Meaning::Limit(due_stage, due_kind) => match line {
            Line::Limit { stage, kind, .. } => stage == due_stage && kind == due_kind,
            _ => false,
        },
        Meaning::Verdict(due) => match line {
            Line::Verdict(verdict) => verdict == due,
            _ => false,
        },
        Meaning::OfItsForm => is_of_its_form(line),
    }
}

/// Whether the text is read so. No other function here holds a record: to let one go is long.
fn is_read_as(text: &str, meaning: &Meaning, room: &mut Room) -> bool {
    match read_record(text.as_bytes(), room) {
        Some(line) => is_meant(&line, meaning),
        None => false,
    }
}

#[test]
fn words_have_meanings(rt: HostRuntime) {
    let mut room = Room::new();
    for (text, meaning) in &WORDS {
        assert!(rt; is_read_as(text, meaning, &mut room), "{text}");
    }
}

/// Each number, name and set stands in its own field, and one room serves all records.
#[test]
fn fields_have_meanings(rt: HostRuntime) {
    let mut room = Room::new();
    for text in &RECORDS {
        assert!(rt; is_read_as(text, &Meaning::OfItsForm, &mut room), "{text}");
    }
}
