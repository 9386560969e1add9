//! The derivations of a journal.
ghost use Rattle.std.specs.Prelude.{◌≡◌, ◌<◌, ◌≤◌, ◌↔◌, Some, None, length, sum, map, replicate, slice_set, pos, IsTrue, IfOk, IfErr, OnOk, OnErr};
ghost use Rattle.ice_defs.specs.Trade.{weights_of};
ghost use Rattle.ice_defs.specs.Steps.{leaf};
ghost use Rattle.ice_refute.specs.Code.{step_of};
ghost use Rattle.ice_refute.specs.Waiting.{nodes_of};
ghost use Rattle.ice_derived.specs.Ranges.{IsAmount, IsLimit};
ghost use Rattle.ice_derivation.specs.Numbers.{changed, HasNoChange, NamesNone, AreAmounts, AreTolls};
ghost use Rattle.ice_derivation.specs.Walks.{new_walk, IsPlain, FailsLeaf, FailsPlain};
ghost use Rattle.ice_derivation.specs.Derivations.{outside, at_amounts, at_log, good_of, place_of, good_of_limit, FailsDerive, TakesAmounts, NamesNoNode, FailsAmounts, place_behind, good_at, walk_at, place_after, walk_after, TakesStep, FailsStep, IsInLog, AreOf, AreKept};

use crate::fault::Fault;
use crate::walk::TollWalk;
use ice_best::Fixings;
use ice_derived::{Amounts, Weighing};
use ice_journal::Numbered;
use ice_refute::Step;
use ice_tree::{AllWeights, Tree};
use std::alloc::{AllocError, Global};

/// What may stand next: what is outside of derivations; amounts, or the log behind them; or a step
/// of that log.
#[derive(Clone, Copy)]
enum Stage {
    Outside,
    Amounts,
    Log,
}

/// The derived goods of a journal, which are stated record by record: a limit, the amounts of some
/// bidders in ascending order, and a log which shows that the derived good follows from those
/// before it. Where that log closes its last side, the derived good stands.
///
/// The walk is that of the derivation's log, or of a group's log outside of derivations.
pub struct Derivations {
    /// The derived goods that stand, and the log at hand.
    pub walk: TollWalk,
    stage: Stage,
    /// The amounts and the limit of the derivation at hand.
    amounts: Amounts,
    limit: i64,
    /// The least bidder whose amounts may follow.
    least: u8,
    /// The side in which all nodes are free.
    free: Fixings,
    /// Weights for branches and dead steps, which look at none.
    zeros: AllWeights,
}

// By hand, so that each exit that drops one has one call to prove, and not all its parts.
impl Drop for Derivations {
    fn drop(self) {
        let Derivations {
            walk: _,
            stage: _,
            amounts: _,
            limit: _,
            least: _,
            free: _,
            zeros: _,
        } = self;
    }
}

/// Makes each amount 0.
fn clear_amounts(amounts: &mut Amounts, trees: &[Tree])
    requires few { length trees.now ≤ 40 }
    requires nodes { nodes_of amounts.old ≡ nodes_of trees.now }
    ensures { amounts.new ≡ map (λ t. replicate (length t) (pos 0)) trees.now }
{
    for bidder in 0..trees.len() as u8 {
        amounts.clear(bidder, trees[bidder as usize].nodes());
    }
}

/// Whether one of the numbers is of no node.
fn names_none(nodes: u16, numbers: &[Numbered]) -> bool
    ensures { IsTrue result ↔ NamesNone nodes numbers.now }
{
    numbers.iter().any(|stated| stated.number >= nodes)
}

/// An amount, in fewer bits.
fn narrow(amount: i64) -> i32
    requires { IsAmount amount }
    ensures { result ≡ amount }
{
    amount as i32
}

/// Gives nodes of the bidder these amounts.
fn put_amounts(amounts: &mut Amounts, bidder: u8, numbers: &[Numbered])
    requires bidder { bidder < length amounts.old }
    requires nodes { ¬ NamesNone (length (weights_of amounts.old bidder)) numbers.now }
    requires range { AreAmounts numbers.now }
    ensures { amounts.new ≡ slice_set amounts.old bidder
        (changed (weights_of amounts.old bidder) numbers.now) }
{
    for stated in numbers {
        amounts.put(bidder, stated.number, narrow(stated.amount));
    }
}

impl Derivations {
    /// No derived good yet, and at most so many. There are at most 40 trees with at most 2,000
    /// nodes together, one truth value for each of at most 32 goods, whether it is exact, and at
    /// most 2,000 derived goods may be allowed. Takes all the memory that derivations and the logs
    /// of groups need.
    pub fn new(
        alloc: Global,
        trees: &[Tree],
        exact: &[bool],
        allowed: u16,
    ) -> Result<Derivations, AllocError>
        requires few { length trees.now ≤ 40 }
        requires nodes { sum (nodes_of trees.now) ≤ 2000 }
        requires goods { length exact.now ≤ 32 }
        requires allowed { allowed ≤ 2000 }
        ensures walk { IfOk result (λ d. d.walk ≡ new_walk trees.now exact.now allowed) }
        ensures place { IfOk result (λ d. place_of d ≡ outside) }
        ensures kept { IfOk result (AreKept trees.now) }
    {
        Ok(Derivations {
            walk: TollWalk::new(alloc, trees, exact, allowed)?,
            stage: Stage::Outside,
            amounts: Amounts::none(alloc, trees)?,
            limit: 0,
            least: 0,
            free: Fixings::free(alloc, trees)?,
            zeros: AllWeights::new(alloc, trees)?,
        })
    }

    /// Whether no derivation is open: each that was begun is complete.
    pub fn is_outside(&self) -> bool
        ensures { IsTrue result ↔ (place_of self.now ≡ outside) }
    {
        match self.stage {
            Stage::Outside => true,
            Stage::Amounts | Stage::Log => false,
        }
    }

    /// Begins a derivation with this limit, at most 2^40 in size. `Order` comes where another one
    /// is open, and else `Derived` where as many derived goods stand as are allowed; then nothing
    /// changes. Takes no memory.
    pub fn derive(&mut self, trees: &[Tree], limit: i64) -> Result<(), Fault>
        requires few { length trees.now ≤ 40 }
        requires kept { AreKept trees.now self.old }
        requires limit { IsLimit limit }
        // Where it begins
        ensures there { OnOk result (place_of self.old ≡ outside) }
        ensures room { OnOk result (length self.old.walk.derived < self.old.walk.most) }
        ensures place { OnOk result
            (place_of self.new ≡ at_amounts (good_of_limit trees.now limit) 0) }
        // Where it fails
        ensures fault { IfErr result (FailsDerive self.old) }
        ensures unchanged { OnErr result (place_of self.new ≡ place_of self.old) }
        // Either way
        ensures walk { self.new.walk ≡ self.old.walk }
        ensures kept { AreKept trees.now self.new }
    {
        if !self.is_outside() {
            return Err(Fault::Order);
        }
        if self.walk.is_full() {
            return Err(Fault::Derived);
        }
        clear_amounts(&mut self.amounts, trees);
        self.limit = limit;
        self.least = 0;
        self.stage = Stage::Amounts;
        Ok(())
    }

    /// Takes the amounts of a bidder: of these nodes, each at most 2^20 in size. `Order` comes
    /// where no limit and no amounts of lower bidders alone stand before it, and else `Derived`
    /// where the bidder or one of the nodes isn't there; then nothing changes. Takes no memory.
    pub fn amounts(&mut self, trees: &[Tree], bidder: u8, numbers: &[Numbered]) -> Result<(), Fault>
        requires few { length trees.now ≤ 40 }
        requires kept { AreKept trees.now self.old }
        requires range { AreAmounts numbers.now }
        // Where they are taken
        ensures order { OnOk result (TakesAmounts (place_of self.old) bidder) }
        ensures there { OnOk result (¬ NamesNoNode trees.now bidder numbers.now) }
        ensures place { OnOk result
            (place_of self.new ≡ place_behind (place_of self.old) bidder numbers.now) }
        // Where they fail
        ensures fault { IfErr result (FailsAmounts trees.now self.old bidder numbers.now) }
        ensures unchanged { OnErr result (place_of self.new ≡ place_of self.old) }
        // Either way
        ensures walk { self.new.walk ≡ self.old.walk }
        ensures kept { AreKept trees.now self.new }
    {
        if !self.takes_amounts(bidder) {
            return Err(Fault::Order);
        }
        if names_no_node(trees, bidder, numbers) {
            return Err(Fault::Derived);
        }
        put_amounts(&mut self.amounts, bidder, numbers);
        self.least = bidder + 1;
        Ok(())
    }

    /// Whether the amounts of this bidder may stand here.
    fn takes_amounts(&self, bidder: u8) -> bool
        ensures { IsTrue result ↔ TakesAmounts (place_of self.now) bidder }
    {
        match self.stage {
            Stage::Amounts => self.least <= bidder,
            Stage::Outside | Stage::Log => false,
        }
    }

    /// Begins the log of the derivation, unless it is begun. `Order` comes where none may begin.
    fn open_log(&mut self, trees: &[Tree]) -> Result<(), Fault>
        requires few { length trees.now ≤ 40 }
        requires kept { AreKept trees.now self.old }
        ensures good { OnOk result (good_at (place_of self.old) ≡ Some (good_of self.old)) }
        ensures place { OnOk result (place_of self.new ≡ at_log (good_of self.old)) }
        ensures walk { OnOk result
            (self.new.walk ≡ walk_at trees.now (place_of self.old) self.old.walk) }
        ensures order { IfErr result (λ why. why ≡ Fault.Order) }
        ensures none { OnErr result (good_at (place_of self.old) ≡ None) }
        // Either way
        ensures same { good_of self.new ≡ good_of self.old }
        ensures derived { self.new.walk.derived ≡ self.old.walk.derived }
        ensures kept { AreKept trees.now self.new }
    {
        match self.stage {
            Stage::Log => Ok(()),
            Stage::Amounts if self.least > 0 => {
                self.walk.begin(&self.free);
                self.stage = Stage::Log;
                Ok(())
            }
            _ => Err(Fault::Order),
        }
    }

    /// A step of the log was taken: where no side is open, the derived good stands.
    fn leave_step(&mut self, trees: &[Tree])
        requires place { place_of self.old ≡ at_log (good_of self.old) }
        requires of { AreOf trees.now self.old }
        requires log { IsInLog trees.now self.old (good_of self.old) }
        ensures place { place_of self.new ≡ place_after (good_of self.old) self.old.walk.sides }
        ensures walk { self.new.walk
            ≡ walk_after (good_of self.old) self.old.walk.sides self.old.walk }
        ensures kept { AreKept trees.now self.new }
    {
        if self.walk.is_closed() {
            self.walk.push(&self.amounts, self.limit);
            self.stage = Stage::Outside;
        }
    }

    /// Takes a leaf of the derivation's log, which changes these numbers of the leaf before, each
    /// at most 2^62 in size. `Order` comes where no log may begin here, `Near` where a change is
    /// none, and else the fault of the leaf. At fault no derived good stands more. Takes no memory.
    pub fn leaf(&mut self, trees: &[Tree], changes: &[Numbered]) -> Result<(), Fault>
        requires few { length trees.now ≤ 40 }
        requires kept { AreKept trees.now self.old }
        requires range { AreTolls changes.now }
        // Where it passes
        ensures near { OnOk result (¬ HasNoChange
            (walk_at trees.now (place_of self.old) self.old.walk).numbers changes.now) }
        ensures step { OnOk result (TakesStep trees.now self.old (leaf (changed
            (walk_at trees.now (place_of self.old) self.old.walk).numbers changes.now)) self.new) }
        // Where it fails
        ensures fault { IfErr result (FailsStep trees.now self.old (λ good w.
            FailsLeaf trees.now good.amounts good.limit w changes.now)) }
        ensures derived { OnErr result (self.new.walk.derived ≡ self.old.walk.derived) }
        // Either way
        ensures kept { AreKept trees.now self.new }
    {
        self.open_log(trees)?;
        // each amount is in range
        let _bidders = self.amounts.bidders();
        let target = i128::from(self.limit);
        let weighing = Weighing::Derivation(&self.amounts);
        self.walk.leaf(trees, &weighing, target, changes)?;
        self.leave_step(trees);
        Ok(())
    }

    /// Takes a branch or a dead step of the derivation's log, as `leaf` takes a leaf.
    pub fn step(&mut self, trees: &[Tree], step: &Step) -> Result<(), Fault>
        requires few { length trees.now ≤ 40 }
        requires kept { AreKept trees.now self.old }
        requires plain { IsPlain (step_of step.now) }
        ensures step { OnOk result (TakesStep trees.now self.old (step_of step.now) self.new) }
        ensures fault { IfErr result (FailsStep trees.now self.old (λ good w.
            FailsPlain trees.now good.amounts good.limit w (step_of step.now))) }
        ensures derived { OnErr result (self.new.walk.derived ≡ self.old.walk.derived) }
        ensures kept { AreKept trees.now self.new }
    {
        self.open_log(trees)?;
        self.walk.step(trees, &self.zeros, 0, step)?;
        self.leave_step(trees);
        Ok(())
    }
}

/// Whether the bidder, or one of the nodes, isn't there.
fn names_no_node(trees: &[Tree], bidder: u8, numbers: &[Numbered]) -> bool
    ensures { IsTrue result ↔ NamesNoNode trees.now bidder numbers.now }
{
    bidder as usize >= trees.len() || names_none(trees[bidder as usize].nodes(), numbers)
}
