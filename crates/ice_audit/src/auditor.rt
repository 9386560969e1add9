//! How far the lines of a statement have come.
ghost use Rattle.std.specs.Prelude.{◌≡◌, false, IsTrue};
ghost use Rattle.ice_journal.specs.Lines.{record_of};
ghost use Rattle.ice_journal.specs.Ranges.{IsRecord};
ghost use Rattle.ice_journal.specs.Records as records;
ghost use Rattle.ice_section.specs.Section.{may_end};
ghost use Rattle.ice_statement_laws.specs.Sections.{IsOwnSection};
ghost use Rattle.ice_statement_laws.specs.Statement.{shown};
ghost use Rattle.ice_statement_laws.specs.Texts.{IsLine};
ghost use Rattle.ice_audit.specs.Lines.{line_of};
ghost use Rattle.ice_audit.specs.Standing.{IsKept};
ghost use Rattle.ice_audit.specs.Auditing.{is_named_by, is_first_settlement, section_stop, is_opened, IsKeptBy, end_of, Begins, EndsSection, TakesOwn, TakesFurther};

use crate::line::StatementLine;
use crate::settlements::Settlements;
use ice_frac::Frac;
use ice_journal::Line;
use ice_journal_laws::Rule;
use ice_section::{Section, SectionFault};
use ice_terms::Name;
use std::alloc::{AllocError, Global};
use std::mem;

/// The name of a statement, and the section of its one bidder as far as it came.
#[derive(Drop)]
pub(crate) struct OwnSection {
    pub(crate) name: Name,
    pub(crate) section: Section,
}

/// How far the lines of a statement have come.
#[derive(Drop)]
pub(crate) enum Auditor {
    /// No line has come: the name is next.
    Name,
    /// The section of the one bidder.
    Section(OwnSection),
    /// What stands behind it.
    Settlements(Settlements),
}

/// Why the tests don't go on with a line: it fails this test first, or there is no memory for it.
#[derive(Clone, Copy)]
pub(crate) enum Stop {
    Fails(Rule),
    NoMemory,
}

/// Why the tests don't go on where the section refuses a record.
fn section_stop(fault: SectionFault) -> Stop
    ensures { result ≡ section_stop fault }
{
    match fault {
        SectionFault::Order => Stop::Fails(Rule::Order),
        SectionFault::Count | SectionFault::NoGood | SectionFault::Tree(_) => {
            Stop::Fails(Rule::Exchange)
        }
        SectionFault::Make(refusal) => match refusal.number() {
            Some(_) => Stop::Fails(Rule::Exchange),
            None => Stop::NoMemory,
        },
        SectionFault::NoMemory => Stop::NoMemory,
    }
}

/// Whether a record is the number of the first settlement.
fn is_first_settlement(journal_line: &Line) -> bool
    ensures { result ≡ is_first_settlement (record_of journal_line.now) }
{
    match journal_line {
        Line::Settle { number } => *number == 0,
        _ => false,
    }
}

impl OwnSection {
    /// Whether the record is of no other bidder.
    fn allows(&self, journal_line: &Line) -> bool
        ensures { result ≡ is_named_by self.now.name (record_of journal_line.now) }
    {
        match journal_line {
            Line::Bidder { name, own: _ } => self.name == *name,
            _ => true,
        }
    }

    /// A record of the section.
    fn describe(&mut self, journal_line: &Line) -> Result<(), Stop>
        requires kept { IsOwnSection self.old.name self.old.section }
        requires lawful { IsRecord (record_of journal_line.now) }
        requires more { may_end self.old.section ≡ false }
        ensures { TakesFurther (Auditor.Section self.old) (shown (record_of journal_line.now))
            result (Auditor.Section self.new) }
    {
        if !self.allows(journal_line) {
            return Err(Stop::Fails(Rule::Order));
        }
        match self.section.take(journal_line) {
            Ok(()) => Ok(()),
            Err(fault) => Err(section_stop(fault)),
        }
    }

    /// The first settlement begins; then the section is of no more use.
    fn finish(&mut self, alloc: Global) -> Result<Settlements, Stop>
        requires kept { IsOwnSection self.old.name self.old.section }
        requires complete { IsTrue (may_end self.old.section) }
        ensures { EndsSection self.old (shown (records.settle 0)) result }
    {
        let section = mem::replace(&mut self.section, Section::new(alloc));
        let Ok(exchange) = section.finish() else {
            return Err(Stop::NoMemory);
        };
        match Settlements::new(alloc, exchange) {
            Ok(settlements) => Ok(settlements),
            Err(AllocError) => Err(Stop::NoMemory),
        }
    }

    /// A record behind the section.
    fn end(&mut self, alloc: Global, journal_line: &Line) -> Result<Settlements, Stop>
        requires kept { IsOwnSection self.old.name self.old.section }
        requires complete { IsTrue (may_end self.old.section) }
        ensures { EndsSection self.old (shown (record_of journal_line.now)) result }
    {
        if is_first_settlement(journal_line) {
            self.finish(alloc)
        } else {
            Err(Stop::Fails(Rule::Order))
        }
    }

    /// A record in the section or behind it, where it gives the settlements; then the section is of
    /// no more use.
    fn take(&mut self, alloc: Global, journal_line: &Line) -> Result<Option<Settlements>, Stop>
        requires kept { IsOwnSection self.old.name self.old.section }
        requires lawful { IsRecord (record_of journal_line.now) }
        ensures { TakesOwn self.old (shown (record_of journal_line.now)) result self.new }
    {
        if self.section.may_end() {
            Ok(Some(self.end(alloc, journal_line)?))
        } else {
            self.describe(journal_line)?;
            Ok(None)
        }
    }
}

/// The first line.
fn begin(alloc: Global, line: &StatementLine) -> Result<OwnSection, Stop>
    ensures { Begins (line_of line.now) result }
{
    match line {
        StatementLine::Named(name) => Ok(OwnSection {
            name: name.copy(),
            section: Section::new(alloc),
        }),
        _ => Err(Stop::Fails(Rule::Order)),
    }
}

/// A line of the section or behind it.
fn describe(
    own: &mut OwnSection,
    alloc: Global,
    line: &StatementLine,
) -> Result<Option<Settlements>, Stop>
    requires kept { IsOwnSection own.old.name own.old.section }
    requires lawful { IsLine (line_of line.now) }
    ensures { TakesOwn own.old (line_of line.now) result own.new }
{
    match line {
        StatementLine::Shown(record) => own.take(alloc, record),
        _ => Err(Stop::Fails(Rule::Order)),
    }
}

/// A line of the settlements.
fn settle(settlements: &mut Settlements, line: &StatementLine) -> Result<(), Stop>
    requires kept { IsKept settlements.old }
    requires lawful { IsLine (line_of line.now) }
    ensures { TakesFurther (Auditor.Settlements settlements.old) (line_of line.now) result
        (Auditor.Settlements settlements.new) }
{
    match settlements.take(line) {
        Ok(()) => Ok(()),
        Err(rule) => Err(Stop::Fails(rule)),
    }
}

impl Auditor {
    /// Takes a line up to the first settlement. Never inlined, since each line behind it would pay
    /// for the size of its locals.
    #[inline(never)]
    fn open(&mut self, alloc: Global, line: &StatementLine) -> Result<(), Stop>
        requires before { is_opened self.old ≡ false }
        requires kept { IsKeptBy self.old }
        requires lawful { IsLine (line_of line.now) }
        ensures { TakesFurther self.old (line_of line.now) result self.new }
    {
        match self {
            Auditor::Name => {
                *self = Auditor::Section(begin(alloc, line)?);
            }
            Auditor::Section(own) => {
                if let Some(settlements) = describe(own, alloc, line)? {
                    *self = Auditor::Settlements(settlements);
                }
            }
            Auditor::Settlements(_) => unreachable!(),
        }
        Ok(())
    }

    /// Takes the next line, or tells the first test that fails; then it is of no more use. Memory
    /// is wanted up to the first settlement alone.
    pub(crate) fn take(&mut self, alloc: Global, line: &StatementLine) -> Result<(), Stop>
        requires kept { IsKeptBy self.old }
        requires lawful { IsLine (line_of line.now) }
        ensures { TakesFurther self.old (line_of line.now) result self.new }
    {
        match self {
            Auditor::Settlements(settlements) => settle(settlements, line),
            Auditor::Name | Auditor::Section(_) => self.open(alloc, line),
        }
    }

    /// The payment, where no line is wanted any more.
    pub(crate) fn payment(&self) -> Option<Frac>
        requires kept { IsKeptBy self.now }
        ensures { result ≡ end_of self.now }
    {
        match self {
            Auditor::Settlements(settlements) => settlements.payment(),
            _ => None,
        }
    }
}
