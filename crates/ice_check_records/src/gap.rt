//! How far the records of a journal have come, where they may stop at a search that spent its
//! branches, and go on with what it found.
ghost use Rattle.std.specs.Prelude.{◌≡◌, ◌<◌, ℕ, suc, length, int_lt, Some, IfOk, IfSome};
ghost use Rattle.ice_journal.specs.Lines.{record_of};
ghost use Rattle.ice_journal.specs.Records as records;
ghost use Rattle.ice_journal.specs.Ranges.{IsRecord};
ghost use Rattle.ice_journal_laws.specs.State.{State};
ghost use Rattle.ice_journal_laws.specs.Fields.{is_end};
ghost use Rattle.ice_journal_laws.specs.Showing.{head_of_group};
ghost use Rattle.ice_journal_laws.specs.Progress.{Progress};
ghost use Rattle.ice_gap_laws.specs.Gap.{GapProgress, next_group, StatesNone, IsThere};
ghost use Rattle.ice_gap_laws.specs.Answers.{gap_answer};
ghost use Rattle.ice_check_records.specs.Groups.{AreKept, IsReady, StandsFor};
ghost use Rattle.ice_check_records.specs.Taking.{failure_at};
ghost use Rattle.ice_check_records.specs.Stages.{IsProgress, IsAtLine, IsKept};
ghost use Rattle.ice_check_records.specs.Gaps.{AwaitsGroup, IsOpen, IsGapProgress, IsGapKept, gap_stage, opened_stage, failed_gap, gapless_answer, LeadsInside, LeadsGapOn, LeadsFrom, TakesAimed};

use crate::groups::Groups;
use crate::head::Head;
use crate::next::Next;
use crate::stage::Stage;
use ice_check_offer::Fault;
use ice_defs::Group;
use ice_gap_laws::GapAnswer;
use ice_journal::{EndWord, Line};
use ice_journal_laws::{Answer, CheckEnd, Rule};
use std::alloc::{AllocError, Global};

/// What a `spent` record says, and the group in whose place it stands.
#[derive(Clone, Copy)]
pub(crate) struct Spent {
    pub(crate) group: Group,
    pub(crate) value: i64,
    pub(crate) bound: i128,
}

/// How far the records of a journal have come.
#[derive(Drop)]
pub(crate) enum GapStage {
    /// They have come to no stop.
    Before(Stage),
    /// The sets or the log of a gap are being stated.
    Inside(Box<Groups>, Spent),
    /// The log of a gap is complete.
    Close(Spent),
    /// A gap has ended.
    Ended(Spent),
    /// No gap is stated in the line with this number.
    NoGap { line: u64 },
    /// The first failed test of a gap.
    Failed { line: u64, rule: Rule },
}

impl Spent {
    /// The head of the group, with this value.
    fn head(self) -> Line<'static>
        ensures { record_of result ≡ head_of_group self.group self.value }
    {
        match self.group {
            Group::Assign => Line::Assign,
            Group::Final => Line::Final { value: self.value },
            Group::Rival => Line::Rival { value: self.value },
            Group::Provisional => Line::Provisional { value: self.value },
            Group::Without { bidder } => Line::Without {
                bidder,
                value: self.value,
            },
        }
    }

    /// Whether the value is below the bound.
    fn is_gap(self) -> bool
        ensures { result ≡ int_lt self.value self.bound }
    {
        i128::from(self.value) < self.bound
    }
}

/// Whether the record ends a gap.
fn ends_gap(line: &Line) -> bool
    ensures { result ≡ is_end records.spent_end (record_of line.now) }
{
    matches!(line, Line::End(EndWord::Spent))
}

impl Groups {
    /// The group whose head comes next, where one does.
    fn awaited(&self) -> Option<Group>
        requires kept { AreKept self.now }
        requires ready { IsReady self.now self.now.next }
        ensures tells { (s : State) → StandsFor self.now s → next_group s.kind s.place ≡ result }
        ensures there { IfSome result (λ group. IsThere 40 group) }
    {
        match self.next {
            Next::Head(Group::Assign) => None,
            Next::Head(group) => Some(group),
            _ => None,
        }
    }

    /// Takes a record while the log of a gap is read, with this target; whether it is complete.
    fn take_aimed(&mut self, target: i128, line: &Line) -> Result<bool, Fault>
        requires lawful { IsRecord (record_of line.now) }
        requires kept { AreKept self.old }
        requires opened { 0 < length self.old.log.walk.sides }
        ensures { TakesAimed target self.old (record_of line.now) result self.new }
    {
        self.log
            .take(self.stated.trees(), target, self.head.version(), line)?;
        Ok(self.log.is_closed())
    }
}

impl Stage {
    /// The group whose head comes next, where one does.
    fn awaited(&self) -> Option<Group>
        requires { IsKept self.now }
        ensures tells { AwaitsGroup self.now result }
        ensures there { IfSome result (λ group. IsThere 40 group) }
    {
        match self {
            Stage::Describing(Head::Regret(_), _) => Some(Group::Final),
            Stage::Behind(groups) => groups.awaited(),
            _ => None,
        }
    }
}

impl GapStage {
    /// Where the tests come to this; a stop that was reached states no gap.
    fn of(stage: Stage) -> GapStage
        ensures { result ≡ gap_stage stage }
    {
        match stage {
            Stage::Failed {
                line,
                rule: Rule::Closed,
            } => GapStage::NoGap { line },
            stage => GapStage::Before(stage),
        }
    }

    /// After a record that states no gap.
    fn usual(
        mut stage: Stage,
        alloc: Global,
        number: u64,
        line: &Line,
    ) -> Result<GapStage, AllocError>
        requires within { IsAtLine number stage }
        requires open { IsOpen stage }
        requires lawful { IsRecord (record_of line.now) }
        requires none { (n : ℕ) (p : Progress) → IsProgress n stage p
            → StatesNone p (record_of line.now) }
        ensures leads { IfOk result (LeadsFrom number stage (record_of line.now)) }
        ensures kept { IfOk result (IsGapKept (suc number)) }
    {
        stage.take(alloc, number, line)?;
        Ok(GapStage::of(stage))
    }

    /// Behind the head of a gap's group, in the line with this number.
    fn opened(stage: Stage, number: u64, spent: Spent) -> GapStage
        ensures { result ≡ opened_stage number spent stage }
    {
        match stage {
            Stage::Behind(groups) => {
                if spent.is_gap() {
                    GapStage::Inside(groups, spent)
                } else {
                    GapStage::NoGap { line: number }
                }
            }
            stage => GapStage::of(stage),
        }
    }

    /// After a record that states a gap, where its group may begin.
    fn stated(
        mut stage: Stage,
        alloc: Global,
        number: u64,
        spent: Spent,
    ) -> Result<GapStage, AllocError>
        requires within { IsAtLine number stage }
        requires lawful { IsRecord (records.spent spent.value spent.bound) }
        requires awaits { AwaitsGroup stage (Some spent.group) }
        requires there { IsThere 40 spent.group }
        ensures leads { IfOk result (LeadsFrom number stage
            (records.spent spent.value spent.bound)) }
        ensures kept { IfOk result (IsGapKept (suc number)) }
    {
        stage.take(alloc, number, &spent.head())?;
        Ok(GapStage::opened(stage, number, spent))
    }

    /// After a `spent` record.
    fn spent(
        stage: Stage,
        alloc: Global,
        number: u64,
        value: i64,
        bound: i128,
    ) -> Result<GapStage, AllocError>
        requires within { IsAtLine number stage }
        requires open { IsOpen stage }
        requires lawful { IsRecord (records.spent value bound) }
        ensures leads { IfOk result (LeadsFrom number stage (records.spent value bound)) }
        ensures kept { IfOk result (IsGapKept (suc number)) }
    {
        match stage.awaited() {
            Some(group) => GapStage::stated(
                stage,
                alloc,
                number,
                Spent {
                    group,
                    value,
                    bound,
                },
            ),
            None => GapStage::usual(stage, alloc, number, &Line::Spent { value, bound }),
        }
    }

    /// After a record where the tests have come to no stop.
    fn before(stage: Stage, alloc: Global, number: u64, line: &Line) -> Result<GapStage, AllocError>
        requires within { IsAtLine number stage }
        requires open { IsOpen stage }
        requires lawful { IsRecord (record_of line.now) }
        ensures leads { IfOk result (LeadsFrom number stage (record_of line.now)) }
        ensures kept { IfOk result (IsGapKept (suc number)) }
    {
        match line {
            Line::Spent { value, bound } => GapStage::spent(stage, alloc, number, *value, *bound),
            _ => GapStage::usual(stage, alloc, number, line),
        }
    }

    /// The first failed test of a gap, at the line with this number.
    fn failed(number: u64, fault: Fault) -> GapStage
        ensures { result ≡ failed_gap (failure_at number fault) }
    {
        match fault {
            Fault::Here(rule) => GapStage::Failed { line: number, rule },
            Fault::List(rule) => GapStage::Failed {
                line: number.saturating_sub(1),
                rule,
            },
        }
    }

    /// After a record while the sets of a gap are stated.
    fn in_sets(mut groups: Box<Groups>, spent: Spent, number: u64, line: &Line) -> GapStage
        requires kept { AreKept groups.value }
        requires ready { IsReady groups.value groups.value.next }
        requires sets { (group : Group) × (groups.value.next ≡ Next.Set group) }
        requires lawful { IsRecord (record_of line.now) }
        ensures leads { LeadsInside number spent groups.value (record_of line.now) result }
        ensures kept { IsGapKept (suc number) result }
    {
        match groups.take(line) {
            Ok(()) => GapStage::Inside(groups, spent),
            Err(fault) => GapStage::failed(number, fault),
        }
    }

    /// After a record while the log of a gap is read.
    fn in_log(mut groups: Box<Groups>, spent: Spent, number: u64, line: &Line) -> GapStage
        requires kept { AreKept groups.value }
        requires ready { IsReady groups.value groups.value.next }
        requires log { (group : Group) × (groups.value.next ≡ Next.Step group) }
        requires lawful { IsRecord (record_of line.now) }
        ensures leads { LeadsInside number spent groups.value (record_of line.now) result }
        ensures kept { IsGapKept (suc number) result }
    {
        match groups.take_aimed(spent.bound, line) {
            Ok(true) => GapStage::Close(spent),
            Ok(false) => GapStage::Inside(groups, spent),
            Err(fault) => GapStage::failed(number, fault),
        }
    }

    /// After a record of a gap.
    fn inside(groups: Box<Groups>, spent: Spent, number: u64, line: &Line) -> GapStage
        requires kept { AreKept groups.value }
        requires ready { IsReady groups.value groups.value.next }
        requires lawful { IsRecord (record_of line.now) }
        ensures leads { LeadsInside number spent groups.value (record_of line.now) result }
        ensures kept { IsGapKept (suc number) result }
    {
        match groups.next {
            Next::Set(_) => GapStage::in_sets(groups, spent, number, line),
            Next::Step(_) => GapStage::in_log(groups, spent, number, line),
            _ => GapStage::failed(number, Fault::Here(Rule::Order)),
        }
    }

    /// After a record behind the log of a gap.
    fn close(spent: Spent, number: u64, line: &Line) -> GapStage
        ensures leads { LeadsGapOn number (GapStage.Close spent) (record_of line.now) result }
        ensures kept { IsGapKept (suc number) result }
    {
        if ends_gap(line) {
            GapStage::Ended(spent)
        } else {
            GapStage::failed(number, Fault::Here(Rule::Order))
        }
    }

    /// After a record, which stands in the line with this number.
    pub(crate) fn taken(
        self,
        alloc: Global,
        number: u64,
        line: &Line,
    ) -> Result<GapStage, AllocError>
        requires kept { IsGapKept number self }
        requires lawful { IsRecord (record_of line.now) }
        ensures leads { IfOk result (LeadsGapOn number self (record_of line.now)) }
        ensures kept { IfOk result (IsGapKept (suc number)) }
    {
        match self {
            GapStage::Before(stage) => GapStage::before(stage, alloc, number, line),
            GapStage::Inside(groups, spent) => Ok(GapStage::inside(groups, spent, number, line)),
            GapStage::Close(spent) => Ok(GapStage::close(spent, number, line)),
            GapStage::Ended(_) => Ok(GapStage::failed(number, Fault::Here(Rule::Order))),
            GapStage::NoGap { line } => Ok(GapStage::NoGap { line }),
            GapStage::Failed { line, rule } => Ok(GapStage::Failed { line, rule }),
        }
    }

    /// What the tests find, where the records so far are the whole journal and the line with this
    /// number would be the next.
    pub(crate) fn answer(&self, number: u64) -> Result<GapAnswer, CheckEnd>
        requires { IsGapKept number self.now }
        ensures { (p : GapProgress) → IsGapProgress number self.now p → gap_answer p ≡ result }
    {
        match self {
            GapStage::Before(stage) => found(stage.answer(number), number),
            GapStage::Inside(_, _) | GapStage::Close(_) => Ok(GapAnswer::No {
                line: number,
                rule: Rule::Short,
            }),
            GapStage::Ended(spent) => Ok(GapAnswer::Gap {
                group: spent.group,
                value: spent.value,
                bound: spent.bound,
            }),
            GapStage::NoGap { line } => Ok(GapAnswer::NoGap { line: *line }),
            GapStage::Failed { line, rule } => Ok(GapAnswer::No {
                line: *line,
                rule: *rule,
            }),
        }
    }
}

/// What is found where the tests of `check` find this, with no stop, and the line with this number
/// would be the next.
fn found(answer: Result<Answer, CheckEnd>, number: u64) -> Result<GapAnswer, CheckEnd>
    ensures { result ≡ gapless_answer number answer }
{
    match answer {
        Ok(Answer::No { line, rule }) => Ok(GapAnswer::No { line, rule }),
        Ok(_) => Ok(GapAnswer::NoGap { line: number }),
        Err(end) => Err(end),
    }
}
