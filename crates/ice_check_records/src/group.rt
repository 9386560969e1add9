//! The groups of a journal: the head of each, its sets and its log.
ghost use Rattle.std.specs.Prelude.{◌≡◌, ◌<◌, ◌↔◌, IsTrue, length};
ghost use Rattle.ice_defs.specs.Exchange.{trees_of};
ghost use Rattle.ice_journal.specs.Lines.{record_of};
ghost use Rattle.ice_journal.specs.Ranges.{IsRecord};
ghost use Rattle.ice_journal.specs.Records as records;
ghost use Rattle.ice_journal_laws.specs.State as tests;
ghost use Rattle.ice_journal_laws.specs.State.{at_sets};
ghost use Rattle.ice_journal_laws.specs.Tests.{HasLeftOut};
ghost use Rattle.ice_check_records.specs.Stating.{SatisfiesNext};
ghost use Rattle.ice_check_records.specs.Groups.{at_hand, weights_for, AreKept, IsGroupAt, HasOpen, IsReady};
ghost use Rattle.ice_check_records.specs.Taking.{behind_without, Takes, HasOpened, LogFollows, Closes, HasKeptFinal, LeavesGroup, LeavesStep};

use crate::groups::Groups;
use crate::lines::{head_value, is_spent, set_in};
use crate::next::Next;
use ice_check_offer::{Fault, broken_rule};
use ice_defs::Group;
use ice_journal::Line;
use ice_journal_laws::Rule;
use ice_tree::NodeSet;

/// Whether a total is this value.
pub(crate) fn is_same(total: i128, value: i64) -> bool
    ensures { IsTrue result ↔ (total ≡ value) }
{
    total == i128::from(value)
}

/// Whether a group leaves out the bidder after the first `taken` ones, and this set of it isn't
/// empty.
fn is_left_out(group: Group, taken: u8, set: &NodeSet) -> bool
    ensures { (found : tests.Stated) → length found.sets ≡ taken
        → (IsTrue result ↔ HasLeftOut (at_sets group found) (records.set set.now)) }
{
    match group {
        Group::Without { bidder } => bidder == taken && !set.is_empty(),
        _ => false,
    }
}

impl Groups {
    /// A group begins, whose sets are worth this value.
    fn begin(&mut self, group: Group, value: i64)
        requires { AreKept self.old }
        ensures { HasOpened group value self.old self.new }
    {
        self.log.weigh(
            self.stated.exchange(),
            self.offer.bounds(),
            group,
            &self.final_sets,
        );
        self.value = value;
        self.next = Next::Set(group);
    }

    /// A record in the place of a group's head.
    pub(crate) fn take_head(&mut self, group: Group, line: &Line) -> Result<(), Fault>
        requires kept { AreKept self.old }
        requires ready { IsReady self.old (Next.Head group) }
        ensures { Takes (Next.Head group) self.old (record_of line.now) result self.new }
    {
        if is_spent(line) {
            return Err(Fault::Here(Rule::Closed));
        }
        match head_value(group, line) {
            Some(value) => {
                self.begin(group, value);
                Ok(())
            }
            None => Err(Fault::Here(Rule::Order)),
        }
    }

    /// The sets of the final group are kept, and this is next.
    fn keep_final(&mut self, next: Next)
        requires kept { AreKept self.old }
        requires full { length self.old.stated.sets ≡ length (trees_of self.old.stated.exchange) }
        ensures { HasKeptFinal next self.old self.new }
    {
        self.stated.hand_over(&mut self.final_sets);
        self.final_value = self.value;
        self.next = next;
    }

    /// The sets of a group are all there and balanced: where they have the value that it states,
    /// its log begins.
    fn begin_log(&mut self, group: Group) -> Result<(), Fault>
        requires kept { AreKept self.old }
        requires full { length self.old.stated.sets ≡ length (trees_of self.old.stated.exchange) }
        requires group { IsGroupAt self.old group }
        requires weights { self.old.log.weights ≡ weights_for self.old group }
        ensures { LogFollows group self.old result self.new }
    {
        if !is_same(self.stated.value_at(&self.log.weights), self.value) {
            return Err(Fault::Here(Rule::Value));
        }
        self.log.begin(group);
        self.next = Next::Step(group);
        Ok(())
    }

    /// The sets of a group are all there: where they are balanced, its log begins, or an assignment
    /// is complete.
    fn end_sets(&mut self, group: Group) -> Result<(), Fault>
        requires kept { AreKept self.old }
        requires full { length self.old.stated.sets ≡ length (trees_of self.old.stated.exchange) }
        requires group { IsGroupAt self.old group }
        requires weights { self.old.log.weights ≡ weights_for self.old group }
        ensures { Closes group self.old result self.new }
    {
        if !self.stated.are_balanced() {
            return Err(Fault::Here(Rule::Excess));
        }
        match group {
            Group::Assign => {
                self.keep_final(Next::End);
                Ok(())
            }
            _ => self.begin_log(group),
        }
    }

    /// The set of the next bidder is put; behind that of the last bidder the sets end.
    fn put_set(&mut self, group: Group, set: &NodeSet) -> Result<(), Fault>
        requires next { self.old.next ≡ Next.Set group }
        requires kept { AreKept self.old }
        requires ready { IsReady self.old (Next.Set group) }
        requires satisfied { SatisfiesNext self.old.stated set.now }
        requires taken { ¬ HasLeftOut (at_sets group (at_hand self.old)) (records.set set.now) }
        ensures { Takes (Next.Set group) self.old (records.set set.now) result self.new }
    {
        self.stated.put(set);
        if self.stated.is_full() {
            self.end_sets(group)
        } else {
            Ok(())
        }
    }

    /// A satisfied set of the next bidder is put, unless it trades for the bidder who is left out.
    fn put_if_allowed(&mut self, group: Group, set: &NodeSet) -> Result<(), Fault>
        requires next { self.old.next ≡ Next.Set group }
        requires kept { AreKept self.old }
        requires ready { IsReady self.old (Next.Set group) }
        requires satisfied { SatisfiesNext self.old.stated set.now }
        ensures { Takes (Next.Set group) self.old (records.set set.now) result self.new }
    {
        if is_left_out(group, self.stated.taken(), set) {
            return Err(Fault::Here(Rule::Fixing));
        }
        self.put_set(group, set)
    }

    /// A set of the next bidder is put, if it is satisfied and allowed.
    fn put_if_satisfied(&mut self, group: Group, set: &NodeSet) -> Result<(), Fault>
        requires next { self.old.next ≡ Next.Set group }
        requires kept { AreKept self.old }
        requires ready { IsReady self.old (Next.Set group) }
        ensures { Takes (Next.Set group) self.old (records.set set.now) result self.new }
    {
        match broken_rule(self.stated.tree(), set) {
            Some(rule) => Err(Fault::Here(rule)),
            None => self.put_if_allowed(group, set),
        }
    }

    /// A record where the set of the next bidder is due.
    pub(crate) fn take_set(&mut self, group: Group, line: &Line) -> Result<(), Fault>
        requires next { self.old.next ≡ Next.Set group }
        requires kept { AreKept self.old }
        requires ready { IsReady self.old (Next.Set group) }
        ensures { Takes (Next.Set group) self.old (record_of line.now) result self.new }
    {
        match set_in(line) {
            Some(set) => self.put_if_satisfied(group, set),
            None => Err(Fault::Here(Rule::Order)),
        }
    }

    /// The rival is complete.
    fn keep_rival(&mut self)
        requires kept { AreKept self.old }
        requires opened { HasOpen self.old Group.Rival }
        ensures { LeavesGroup Group.Rival self.old self.new }
    {
        self.rival = self.value;
        self.stated.clear();
        self.next = Next::Amount;
    }

    /// The provisional sets are complete: they are offered.
    fn offer_sets(&mut self)
        requires kept { AreKept self.old }
        requires opened { HasOpen self.old Group.Provisional }
        ensures { LeavesGroup Group.Provisional self.old self.new }
    {
        self.offer.begin(self.stated.exchange(), self.stated.sets());
        self.stated.clear();
        self.next = Next::Offer;
    }

    /// What follows the group without this bidder.
    fn behind_without(&self, bidder: u8) -> Next
        requires kept { AreKept self.now }
        requires there { bidder < length (trees_of self.now.stated.exchange) }
        ensures { result ≡ behind_without (length (trees_of self.now.stated.exchange)) bidder }
    {
        let later = bidder + 1;
        if later == self.stated.exchange().bidders() {
            Next::Threshold
        } else {
            Next::Head(Group::Without { bidder: later })
        }
    }

    /// The sets without this bidder are complete.
    fn keep_without(&mut self, bidder: u8)
        requires kept { AreKept self.old }
        requires opened { HasOpen self.old (Group.Without bidder) }
        ensures { LeavesGroup (Group.Without bidder) self.old self.new }
    {
        self.withouts.push(self.value);
        self.stated.clear();
        self.next = self.behind_without(bidder);
    }

    /// The log of a group is complete.
    fn complete(&mut self, group: Group)
        requires kept { AreKept self.old }
        requires opened { HasOpen self.old group }
        ensures { LeavesGroup group self.old self.new }
    {
        match group {
            Group::Assign => unreachable!(),
            Group::Final => self.keep_final(Next::Head(Group::Rival)),
            Group::Rival => self.keep_rival(),
            Group::Provisional => self.offer_sets(),
            Group::Without { bidder } => self.keep_without(bidder),
        }
    }

    /// A step of the log was walked.
    fn leave(&mut self, group: Group)
        requires next { self.old.next ≡ Next.Step group }
        requires kept { AreKept self.old }
        requires opened { HasOpen self.old group }
        ensures { LeavesStep group self.old self.new }
    {
        if self.log.is_closed() {
            self.complete(group);
        }
    }

    /// A record while a log is read.
    pub(crate) fn take_step(&mut self, group: Group, line: &Line) -> Result<(), Fault>
        requires lawful { IsRecord (record_of line.now) }
        requires next { self.old.next ≡ Next.Step group }
        requires kept { AreKept self.old }
        requires ready { IsReady self.old (Next.Step group) }
        ensures { Takes (Next.Step group) self.old (record_of line.now) result self.new }
    {
        let target = i128::from(self.value);
        self.log
            .take(self.stated.trees(), target, self.head.version(), line)?;
        self.leave(group);
        Ok(())
    }
}
