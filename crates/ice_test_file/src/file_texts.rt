//! One table for each type of fault of files.
use ice_read::{ReadCause, ReadFault, read_round};
use ice_section::{LineCause, LineFileFault, SectionFault};
use ice_trade::MakeFault;
use ice_tree::TreeFault;
use std::alloc::Global;
use std::test::Fail;

const CAUSES: [(ReadCause, &str); 10] = [
    (ReadCause::NotJson, "this is not JSON"),
    (
        ReadCause::Shape,
        "this value is not of the form that belongs here",
    ),
    (ReadCause::NotWhole, "this number is not whole"),
    (ReadCause::Range, "this is out of range"),
    (ReadCause::UnknownGood, "there is no good of this name"),
    (ReadCause::NoUnits, "a package has no good"),
    (ReadCause::NoPackages, "a bidder has no package"),
    (
        ReadCause::Tree(TreeFault::Crossed),
        "the lower value is above the upper one",
    ),
    (
        ReadCause::Make(MakeFault::OverSale {
            good: 3,
            amount: 12,
        }),
        "the bidder may sell 12 units of good 3, which it does not own",
    ),
    (ReadCause::NoMemory, "no memory is left"),
];

#[test]
fn causes(rt: HostRuntime) -> Result<(), Fail> {
    for (cause, text) in CAUSES {
        assert_eq!(rt; cause.to_string(rt.alloc())?.as_str(), text);
    }
    Ok(())
}

// A round file, and what the place of its first fault prints.
const PLACES: [(&str, &str); 4] = [
    ("[]", "-"),
    (r#"{"bids":{}}"#, "bids"),
    (r#"{"bids":[7]}"#, "bids.0"),
    (
        r#"{"bids":[{"bidder":"a","lo":[],"hi":[]},{"bidder":"b","lo":[0,"x"],"hi":[]}]}"#,
        "bids.1.lo.1",
    ),
];

// A round file, and what its first fault prints.
const READ_FAULTS: [(&str, &str); 5] = [
    ("{", "-: this is not JSON"),
    (
        r#"{"bids":7}"#,
        "bids: this value is not of the form that belongs here",
    ),
    (
        r#"{"bids":[{"bidder":"a b","lo":[],"hi":[]}]}"#,
        "bids.0.bidder: this is not a name",
    ),
    (
        r#"{"bids":[{"bidder":"a","lo":[0,0.5],"hi":[]}]}"#,
        "bids.0.lo.1: this number is not whole",
    ),
    (
        r#"{"bids":[{"bidder":"a","lo":[],"hi":[1000000001]}]}"#,
        "bids.0.hi.0: this is out of range",
    ),
];

/// The first fault of a round file.
fn fault_of(alloc: Global, file: &str) -> Result<ReadFault, Fail> {
    Ok(read_round(alloc, file.as_bytes()).err().ok_or("no fault")?)
}

#[test]
fn faults_with_places(rt: HostRuntime) -> Result<(), Fail> {
    for (file, text) in PLACES {
        let fault = fault_of(rt.alloc(), file)?;
        assert_eq!(rt; fault.place.to_string(rt.alloc())?.as_str(), text);
    }
    for (file, text) in READ_FAULTS {
        let fault = fault_of(rt.alloc(), file)?;
        assert_eq!(rt; fault.to_string(rt.alloc())?.as_str(), text);
    }
    Ok(())
}

const SECTION_FAULTS: [(SectionFault, &str); 6] = [
    (SectionFault::Order, "this record may not stand here"),
    (
        SectionFault::Count,
        "the owned amounts are not as many as the goods",
    ),
    (SectionFault::NoGood, "the node names no good"),
    (
        SectionFault::Tree(TreeFault::TooDeep),
        "the tree is too deep",
    ),
    (
        SectionFault::Make(MakeFault::DuplicateGood),
        "a good of this name is there already",
    ),
    (SectionFault::NoMemory, "no memory is left"),
];

const LINE_CAUSES: [(LineCause, &str); 4] = [
    (LineCause::NoRecord, "this line is no record"),
    (LineCause::NotEnded, "this line has no newline"),
    (LineCause::Misplaced, "another record belongs here"),
    (
        LineCause::Section(SectionFault::NoGood),
        "the node names no good",
    ),
];

const LINE_FILE_FAULTS: [(LineFileFault, &str); 2] = [
    (
        LineFileFault::Fault {
            cause: LineCause::Misplaced,
            line: 7,
        },
        "line 7: another record belongs here",
    ),
    (LineFileFault::NoMemory, "no memory is left"),
];

#[test]
fn lines(rt: HostRuntime) -> Result<(), Fail> {
    for (fault, text) in SECTION_FAULTS {
        assert_eq!(rt; fault.to_string(rt.alloc())?.as_str(), text);
    }
    for (cause, text) in LINE_CAUSES {
        assert_eq!(rt; cause.to_string(rt.alloc())?.as_str(), text);
    }
    for (fault, text) in LINE_FILE_FAULTS {
        assert_eq!(rt; fault.to_string(rt.alloc())?.as_str(), text);
    }
    Ok(())
}
