//! Logs of a small market: a seller of a unit at -10 and a buyer of it at 20, whose best trade is
//! worth 10. How a log is walked step by step is shown by rows of `check`.
ghost use Rattle.std.specs.Prelude.{◌≡◌, ◌≤◌, [], ◌∷◌, length, sum, false, IfOk};
ghost use Rattle.std.specs.List.{AllByRecursion};
ghost use Rattle.ice_defs.specs.Lawful.{AreBounds};
ghost use Rattle.ice_defs.specs.Conditions.{AreWeightsOf, AreBoundsOf};
ghost use Rattle.ice_refute.specs.Code.{CountsGoods, step_of};
ghost use Rattle.ice_refute.specs.Waiting.{nodes_of};

use ice_best::Fixings;
use ice_bound::{Desk, Multipliers};
use ice_refute::{Log, LogFault, Step, StepFault, check_log};
use ice_tree::{AllWeights, Bounds, NodeKind, Tree, TreeFault, TreeMaker};
use std::alloc::{AllocError, Global};
use std::process::Abort;
use std::test::Fail;

/// A step over one good.
#[derive(Clone, Copy)]
enum Plain {
    Branch(u8, u16),
    Leaf(i16),
    Dead(u8),
}

/// A tree of one leaf that sells a unit of the one good.
fn sells(value: i64) -> Result<(Tree, Bounds), TreeFault>
    ensures bounds { IfOk result (λ r. AreBounds (length r.0) r.1) }
    ensures node { IfOk result (λ r. length r.0 ≡ 1) }
{
    let mut maker = TreeMaker::new(1);
    maker.leaf(NodeKind::Sell { good: 0, units: 1 }, value, value)?;
    maker.finish()
}

/// A tree of one leaf that buys a unit of the one good.
fn buys(value: i64) -> Result<(Tree, Bounds), TreeFault>
    ensures bounds { IfOk result (λ r. AreBounds (length r.0) r.1) }
    ensures node { IfOk result (λ r. length r.0 ≡ 1) }
{
    let mut maker = TreeMaker::new(1);
    maker.leaf(NodeKind::Buy { good: 0, units: 1 }, value, value)?;
    maker.finish()
}

/// The lower values as weights.
fn lower(alloc: Global, trees: &[Tree], bounds: &[Bounds]) -> Result<AllWeights, AllocError>
    requires { AreBoundsOf trees.now bounds.now }
    ensures { IfOk result (AreWeightsOf trees.now) }
{
    let mut weights = AllWeights::new(alloc, trees)?;
    weights.fill_lower(bounds);
    Ok(weights)
}

/// A desk for the trees, with one good that isn't exact.
fn desk(alloc: Global, trees: &[Tree]) -> Result<Desk, AllocError>
    ensures marks { IfOk result (λ desk. nodes_of desk.marks ≡ nodes_of trees.now) }
    ensures exact { IfOk result (λ desk. desk.room ≡ false ∷ []) }
{
    let desk = Desk::new(alloc, trees, &[false])?;
    Ok(desk)
}

/// Every node free.
fn free(alloc: Global, trees: &[Tree]) -> Result<Fixings, AllocError>
    ensures { IfOk result (λ fixings. nodes_of fixings ≡ nodes_of trees.now) }
{
    let marks = Fixings::free(alloc, trees)?;
    Ok(marks)
}

fn step(plain: Plain) -> Step
    ensures { CountsGoods 1 (step_of result) }
{
    match plain {
        Plain::Branch(bidder, node) => Step::Branch { bidder, node },
        Plain::Leaf(number) => {
            let mut m = Multipliers::zero(1);
            m.put(0, i64::from(number));
            Step::Leaf { m }
        }
        Plain::Dead(bidder) => Step::Dead { bidder },
    }
}

fn log(alloc: Global, steps: &[Plain]) -> Result<Log, AllocError>
    ensures { IfOk result (AllByRecursion (CountsGoods 1)) }
{
    let mut log = Log::new(alloc);
    for plain in steps {
        log.push(step(*plain))?;
    }
    Ok(log)
}

fn at(step: u64, fault: StepFault) -> LogFault {
    LogFault::At { step, fault }
}

/// What `check_log` answers with target 10.
fn outcome(
    alloc: Global,
    trees: &[Tree],
    weights: &AllWeights,
    start: &Fixings,
    desk: &mut Desk,
    steps: &[Plain],
) -> Result<Result<(), LogFault>, AllocError>
    requires few { length trees.now ≤ 40 }
    requires nodes { sum (nodes_of trees.now) ≤ 2000 }
    requires weights { AreWeightsOf trees.now weights.now }
    requires start { nodes_of start.now ≡ nodes_of trees.now }
    requires marks { nodes_of desk.old.marks ≡ nodes_of trees.now }
    requires exact { desk.old.room ≡ false ∷ [] }
    ensures marks { nodes_of desk.new.marks ≡ nodes_of trees.now }
    ensures exact { desk.new.room ≡ false ∷ [] }
{
    let log = log(alloc, steps)?;
    Ok(check_log(trees, weights, start, 10, &log, desk))
}

/// Asserts each answer.
fn judge_all(
    rt: &impl Abort,
    alloc: Global,
    trees: &[Tree],
    weights: &AllWeights,
    start: &Fixings,
    desk: &mut Desk,
    cases: &[(&[Plain], Result<(), LogFault>)],
) -> Result<(), AllocError>
    requires few { length trees.now ≤ 40 }
    requires nodes { sum (nodes_of trees.now) ≤ 2000 }
    requires weights { AreWeightsOf trees.now weights.now }
    requires start { nodes_of start.now ≡ nodes_of trees.now }
    requires marks { nodes_of desk.old.marks ≡ nodes_of trees.now }
    requires exact { desk.old.room ≡ false ∷ [] }
{
    for (steps, expected) in cases {
        assert_eq!(rt;
            outcome(alloc, trees, weights, start, desk, steps)?,
            *expected
        );
    }
    Ok(())
}

#[test]
fn judges_logs(rt: HostRuntime) -> Result<(), Fail> {
    let alloc = rt.alloc();
    let (seller, asked) = sells(-10)?;
    let (buyer, offered) = buys(20)?;
    let trees = [seller, buyer];
    let weights = lower(alloc, &trees, &[asked, offered])?;
    let mut desk = desk(alloc, &trees)?;
    let start = free(alloc, &trees)?;
    let cases: [(&[Plain], Result<(), LogFault>); 12] = [
        (&[Plain::Leaf(640)], Ok(())),
        (
            &[Plain::Leaf(576)],
            Err(at(0, StepFault::Above { bound: 11 })),
        ),
        (
            &[Plain::Branch(0, 0), Plain::Leaf(640), Plain::Leaf(1280)],
            Ok(()),
        ),
        (
            &[Plain::Branch(0, 0), Plain::Leaf(640), Plain::Leaf(2000)],
            Ok(()),
        ),
        (
            &[Plain::Branch(0, 0), Plain::Leaf(640), Plain::Dead(0)],
            Err(at(2, StepFault::NotDead)),
        ),
        (
            &[Plain::Branch(0, 0), Plain::Branch(0, 0), Plain::Leaf(640)],
            Err(at(1, StepFault::Fixed)),
        ),
        (&[Plain::Branch(0, 1)], Err(at(0, StepFault::Fixed))),
        (&[Plain::Branch(2, 0)], Err(at(0, StepFault::Fixed))),
        (&[Plain::Leaf(-1)], Err(at(0, StepFault::Sign))),
        (
            &[Plain::Branch(1, 0), Plain::Leaf(640)],
            Err(LogFault::Short),
        ),
        (&[], Err(LogFault::Short)),
        (
            &[Plain::Leaf(640), Plain::Leaf(640)],
            Err(LogFault::Long { step: 1 }),
        ),
    ];
    judge_all(&rt, alloc, &trees, &weights, &start, &mut desk, &cases)?;
    Ok(())
}
