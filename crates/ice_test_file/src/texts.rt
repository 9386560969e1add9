//! One table for each type of fault.
use ice_refute::{LogFault, StepFault};
use ice_trade::MakeFault;
use ice_tree::{BoundsFault, TreeFault};
use std::test::Fail;

#[test]
fn trees(rt: HostRuntime) -> Result<(), Fail> {
    let cases = [
        (
            TreeFault::BadInterval,
            "a choose node's interval does not fit its children",
        ),
        (TreeFault::Crossed, "the lower value is above the upper one"),
        (
            TreeFault::OutOfRange,
            "a value, the units or the good is out of range",
        ),
        (TreeFault::TooManyNodes, "the tree has too many nodes"),
        (TreeFault::TooDeep, "the tree is too deep"),
        (
            TreeFault::Unclosed,
            "a node is open that may not be, or none is open",
        ),
    ];
    for (fault, text) in cases {
        assert_eq!(rt; fault.to_string(rt.alloc())?.as_str(), text);
    }
    Ok(())
}

#[test]
fn bounds(rt: HostRuntime) -> Result<(), Fail> {
    let cases = [
        (
            BoundsFault::WrongCount,
            "a list has not one value for each node",
        ),
        (BoundsFault::OutOfRange, "a value is out of range"),
        (BoundsFault::Crossed, "a lower value is above the upper one"),
    ];
    for (fault, text) in cases {
        assert_eq!(rt; fault.to_string(rt.alloc())?.as_str(), text);
    }
    Ok(())
}

#[test]
fn makers(rt: HostRuntime) -> Result<(), Fail> {
    let oversale = MakeFault::OverSale {
        good: 31,
        amount: 200_000,
    };
    let cases = [
        (
            MakeFault::DuplicateGood,
            "a good of this name is there already",
        ),
        (
            MakeFault::DuplicateBidder,
            "a bidder of this name is there already",
        ),
        (
            MakeFault::TooMany,
            "there are too many goods, bidders or nodes",
        ),
        (MakeFault::BadName, "this is not a name"),
        (
            oversale,
            "the bidder may sell 200000 units of good 31, which it does not own",
        ),
        (MakeFault::Empty, "there is no good or no bidder"),
        (MakeFault::Late, "a good may not follow a bidder"),
        (MakeFault::NoMemory, "no memory is left"),
    ];
    for (fault, text) in cases {
        assert_eq!(rt; fault.to_string(rt.alloc())?.as_str(), text);
    }
    Ok(())
}

fn at(step: u64, fault: StepFault) -> LogFault {
    LogFault::At { step, fault }
}

#[test]
fn logs(rt: HostRuntime) -> Result<(), Fail> {
    let above = StepFault::Above { bound: -12 };
    let cases = [
        (
            at(0, StepFault::Fixed),
            "step 0: the branch is not at a free node",
        ),
        (
            at(40, StepFault::Sign),
            "step 40: the leaf has a negative multiplier of a good that is not exact",
        ),
        (at(7, above), "step 7: the bound is -12, above the target"),
        (at(9, StepFault::NotDead), "step 9: the bidder is not dead"),
        (LogFault::Short, "the steps end with a side open"),
        (
            LogFault::Long { step: 3 },
            "step 3 stands after all sides are closed",
        ),
    ];
    for (fault, text) in cases {
        assert_eq!(rt; fault.to_string(rt.alloc())?.as_str(), text);
    }
    Ok(())
}
