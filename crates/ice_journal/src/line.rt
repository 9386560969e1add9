//! What records say.
use arrayvec::ArrayVec;
use ice_defs::{LimitKind, NodeKind, PricingStage, Verdict};
use ice_set::NodeSet;
use ice_terms::{Name, Prices, Settings};

/// The version of a journal.
#[derive(Clone, Copy, Debug, PartialEq, Eq)]
pub enum Version {
    /// Version 1, in which each leaf has all its multipliers.
    One,
    /// Version 2, in which a leaf has those that differ from the leaf before it.
    Two,
}

/// What a journal or a file in line form is of.
#[derive(Clone, Copy, Debug, PartialEq, Eq)]
pub enum Kind {
    /// An assignment.
    Assign,
    /// The regret of an assignment.
    Regret,
    /// A session.
    Session,
    /// An exchange, as a file.
    Exchange,
    /// Prices, as a file.
    Prices,
}

/// The last word of a journal or a file.
#[derive(Clone, Copy, Debug, PartialEq, Eq)]
pub enum EndWord {
    /// The end of an assignment.
    Assign,
    /// The end of an exchange file.
    Exchange,
    /// The end of a prices file.
    Prices,
    /// The end of a regret.
    Regret,
    /// The session closed.
    Closed,
    /// The session waits for a round of bids.
    Open,
    /// The branches were used up.
    Spent,
    /// The pricing came to a limit.
    Limit,
}

/// A multiplier that differs from the one of the leaf before it: its good, from 0 to 31, and its
/// number in 64ths, from -2^56 to 2^56.
#[derive(Clone, Copy, Default)]
pub struct Change {
    /// The good's number.
    pub good: u8,
    /// Its multiplier, in 64ths.
    pub multiplier: i64,
}

/// A number and what stands at it. In `tolled`: a good from 0 on and its multiplier in 4096ths, or,
/// from the number of goods on, a derived good and its toll; a number of 0 to 2,031, from -2^62 to
/// 2^62. In `amounts`: a node from 0 to 199 and its amount, which isn't 0 and at most 2^20 in size.
#[derive(Clone, Copy, Default)]
pub struct Numbered {
    /// The number of the good, the derived good or the node.
    pub number: u16,
    /// What stands at it.
    pub amount: i64,
}

/// Room for the numbers of one record, of which there are at most 300: 4,808 bytes. One room serves
/// all records of a file, since each is let go before the next is read.
#[derive(Drop)]
pub struct Room {
    pub(crate) numbers: ArrayVec<Numbered, 300>,
}

impl Room {
    /// Room that holds nothing yet.
    pub fn new() -> Room {
        Room {
            numbers: ArrayVec::new(),
        }
    }
}

/// A fraction in lowest terms: a numerator of at most 10^18 in size, over a denominator from 1 to
/// 1,000.
#[derive(Clone, Copy)]
pub struct LowestFraction {
    /// The numerator.
    pub num: i64,
    /// The denominator.
    pub den: u16,
}

/// One record of a journal or of a file in line form. Bidders, goods and nodes are numbered from 0.
/// It takes no memory. The numbers of `Tolled` and `Amounts` stand in the room of who reads them or
/// with who writes them. No version of a journal takes these two and `Derive` yet.
#[derive(Drop)]
pub enum Line<'room> {
    /// `ice VERSION KIND`. Version 2 is of a regret or a session.
    Head {
        version: Version,
        kind: Kind,
    },
    /// `settings W C P I R B`, and `settings W C P I R B D` where there may be derived goods.
    Settings(Settings),
    /// `good NAME`, with free disposal.
    Good(Name),
    /// `exact NAME`, a good without disposal.
    Exact(Name),
    /// `bidder NAME O ..`: 1 to 32 owned amounts of at most 1,000,000, one per good.
    Bidder {
        name: Name,
        own: ArrayVec<u32, 32>,
    },
    /// `node choose L M N LO HI`, `node buy G U LO HI` or `node sell G U LO HI`: least, most and
    /// number of children, each at most 199; a good of at most 31, 1 to 1,000 units; values of at
    /// most 10^9 in size. A leaf has no use for `children`.
    Node {
        kind: NodeKind,
        children: u16,
        lo: i64,
        hi: i64,
    },
    /// `assign`.
    Assign,
    /// `settle R`: a settlement of at most 20.
    Settle {
        number: u8,
    },
    /// `final V`: a value of at most 4 * 10^14 in size.
    Final {
        value: i64,
    },
    /// `rival V`, with the limits of `Final`.
    Rival {
        value: i64,
    },
    /// `provisional V`, in hundredths, with the limits of `Final`.
    Provisional {
        value: i64,
    },
    /// `without B V`: a bidder of at most 39, a value with the limits of `Final`.
    Without {
        bidder: u8,
        value: i64,
    },
    /// `set BITS`: 1 to 200 bits.
    Set(NodeSet),
    /// `branch B N`: a bidder of at most 39, a node of at most 199.
    Branch {
        bidder: u8,
        node: u16,
    },
    /// `leaf M ..`: 1 to 32 multipliers from -2^56 to 2^56.
    Leaf(ArrayVec<i64, 32>),
    /// `dead B`: a bidder of at most 39.
    Dead {
        bidder: u8,
    },
    /// `near K G M ..`: at most 32 changes, their goods strictly ascending.
    Near(ArrayVec<Change, 32>),
    /// `tolled K G M ..`: at most 300 changes of a good or a derived good, of at most 2,031, their
    /// numbers strictly ascending, each from -2^62 to 2^62.
    Tolled(&'room [Numbered]),
    /// `derive L`: the limit of a derived good, at most 2^40 in size.
    Derive {
        limit: i64,
    },
    /// `amounts B K N C ..`: a bidder of at most 39, and 1 to 200 of its nodes, of at most 199 and
    /// strictly ascending, with their amounts, which are not 0 and at most 2^20 in size.
    Amounts {
        bidder: u8,
        numbers: &'room [Numbered],
    },
    /// `regret A`: from 0 to 4 * 10^14.
    Regret {
        amount: i64,
    },
    /// `prices D N ..`.
    Prices(Prices),
    /// `accuracy X D`: a violation from 0 to 2^100 over the denominator of the prices, and the
    /// certificate's denominator from 1 to 2^32.
    Accuracy {
        violation: i128,
        den: u64,
    },
    /// `balance D`: the certificate's denominator from 1 to 2^32.
    Balance {
        den: u64,
    },
    /// `row B W BITS`: a bidder of at most 39, a weight from 1 to 2^32, 1 to 200 bits.
    Row {
        bidder: u8,
        weight: u64,
        set: NodeSet,
    },
    /// `submit NAME K LO .. L HI ..`: two lists of at most 200 values of at most 10^9 in size.
    Submit {
        name: Name,
        lo: ArrayVec<i32, 200>,
        hi: ArrayVec<i32, 200>,
    },
    /// `verdict accepted`, `verdict 40 N` and the others: a node of at most 199.
    Verdict(Verdict),
    /// `threshold C S`: cut and surplus.
    Threshold {
        cut: LowestFraction,
        surplus: LowestFraction,
    },
    /// `payment NAME V D P`: the Vickrey discount, from 0 to 10^15, the discount and the payment.
    Payment {
        name: Name,
        vickrey: i64,
        discount: LowestFraction,
        payment: LowestFraction,
    },
    /// `spent V X`: a value with the limits of `Final`, and any bound.
    Spent {
        value: i64,
        bound: i128,
    },
    /// `limit STAGE KIND X D`: a violation from 0 to 2^100 over a denominator from 1 to 2^32.
    Limit {
        stage: PricingStage,
        kind: LimitKind,
        violation: i128,
        den: u64,
    },
    /// `pool B BITS`: a bidder of at most 39, 1 to 200 bits.
    Pool {
        bidder: u8,
        set: NodeSet,
    },
    /// `end WORD`.
    End(EndWord),
    /// `refused F N PLACE`: a file from 1 to 21, a number from 1 to 99, a place of 1 to 256
    /// letters, digits, `_`, `-` and dots, where `-` alone means no place.
    Refused {
        file: u8,
        number: u8,
        place: ArrayVec<u8, 256>,
    },
    /// `unread F`: a file from 1 to 21.
    Unread {
        file: u8,
    },
}
