//! Why a record, or a file in line form, is refused.
ghost use Rattle.std.specs.Prelude.{◌≡◌};
ghost use Rattle.ice_section.specs.FaultNumbers.{section_fault_number, line_cause_number, cause_of};

use ice_journal::BadLine;
use ice_trade::MakeFault;
use ice_tree::TreeFault;
use thiserror::Error;

/// Why a section does not take a record.
#[derive(Clone, Copy, Debug, Error, PartialEq, Eq)]
pub enum SectionFault {
    /// The record may not stand here.
    #[error("this record may not stand here")]
    Order,
    /// The owned amounts of a bidder are not as many as the goods.
    #[error("the owned amounts are not as many as the goods")]
    Count,
    /// A node names a good that is not there.
    #[error("the node names no good")]
    NoGood,
    /// The tree's maker refuses a node, or the close of one.
    #[error("{0}")]
    Tree(TreeFault),
    /// The exchange's maker refuses a good or a bidder.
    #[error("{0}")]
    Make(MakeFault),
    /// There is no memory left.
    #[error("no memory is left")]
    NoMemory,
}

impl SectionFault {
    /// The number of this refusal in reports, and None for want of memory.
    pub fn number(&self) -> Option<u8>
        ensures { result ≡ section_fault_number self.now }
    {
        match self {
            SectionFault::Order | SectionFault::Count => Some(50),
            SectionFault::NoGood => Some(5),
            SectionFault::Tree(fault) => Some(fault.number()),
            SectionFault::Make(fault) => fault.number(),
            SectionFault::NoMemory => None,
        }
    }
}

/// Why a line of a file in line form is refused.
#[derive(Clone, Copy, Debug, Error, PartialEq, Eq)]
pub enum LineCause {
    /// It is no record.
    #[error("this line is no record")]
    NoRecord,
    /// It has no newline at its end.
    #[error("this line has no newline")]
    NotEnded,
    /// Another record belongs here, or the file ends before it.
    #[error("another record belongs here")]
    Misplaced,
    /// The section of the exchange does not take the record.
    #[error("{0}")]
    Section(SectionFault),
}

impl LineCause {
    /// The number of this refusal in reports, and None for want of memory.
    pub fn number(&self) -> Option<u8>
        ensures { result ≡ line_cause_number self.now }
    {
        match self {
            LineCause::NoRecord | LineCause::Misplaced => Some(50),
            LineCause::NotEnded => Some(51),
            LineCause::Section(fault) => fault.number(),
        }
    }
}

/// Why a file in line form is refused.
#[derive(Clone, Copy, Debug, Error, PartialEq, Eq)]
pub enum LineFileFault {
    /// This line, counted from 1, is at fault. Its cause has a number.
    #[error("line {line}: {cause}")]
    Fault { cause: LineCause, line: u64 },
    /// There is no memory left.
    #[error("no memory is left")]
    NoMemory,
}

/// The fault of a line at which another record belongs.
pub(crate) fn misplaced(line: u64) -> LineFileFault
    ensures { result ≡ LineFileFault.Fault LineCause.Misplaced line }
{
    LineFileFault::Fault {
        cause: LineCause::Misplaced,
        line,
    }
}

/// The fault of a line from which no record is read.
pub(crate) fn bad_line(bad: BadLine, line: u64) -> LineFileFault
    ensures { result ≡ LineFileFault.Fault (cause_of bad) line }
{
    let cause = match bad {
        BadLine::NoRecord => LineCause::NoRecord,
        BadLine::NotEnded => LineCause::NotEnded,
    };
    LineFileFault::Fault { cause, line }
}
