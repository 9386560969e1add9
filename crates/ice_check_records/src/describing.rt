//! What each record makes of a journal up to the end of its exchange.
ghost use Rattle.std.specs.Prelude.{◌≡◌, ◌&&◌, false, IsTrue, IfOk};
ghost use Rattle.ice_journal.specs.Lines.{record_of};
ghost use Rattle.ice_journal.specs.Ranges.{IsRecord};
ghost use Rattle.ice_section.specs.Section.{no_section, may_end, exchange_in};
ghost use Rattle.ice_check_records.specs.Openings.{ends_section, Opens};
ghost use Rattle.ice_check_records.specs.Stating.{HasSettings};
ghost use Rattle.ice_check_records.specs.Stages.{LeadsOn, section_halt};

use crate::groups::Groups;
use crate::halt::Halt;
use crate::head::Head;
use crate::lines::head_in;
use crate::opening::Opening;
use crate::stage::Stage;
use ice_check_offer::Fault;
use ice_journal::Line;
use ice_journal_laws::Rule;
use ice_section::{Section, SectionFault};
use ice_trade::Exchange;
use std::alloc::{AllocError, Global};

/// The section of a journal, with no record yet.
fn no_section(alloc: Global) -> Result<Box<Section>, AllocError>
    ensures { IfOk result (λ section. section.value ≡ no_section) }
{
    Ok(Box::new(alloc, Section::new(alloc))?)
}

/// The first record is read.
pub(crate) fn begin(alloc: Global, line: &Line) -> Result<Stage, Halt>
    ensures { LeadsOn Stage.Begin (record_of line.now) result }
{
    match head_in(line) {
        Some(head) => Ok(Stage::Describing(head, no_section(alloc)?)),
        None => Ok(Stage::OtherKind),
    }
}

/// Why the tests don't go on where the section refuses a record.
fn section_halt(fault: SectionFault) -> Halt
    ensures { result ≡ section_halt fault }
{
    match fault {
        SectionFault::Order => Halt::Fails(Fault::Here(Rule::Order)),
        SectionFault::Count | SectionFault::NoGood | SectionFault::Tree(_) => {
            Halt::Fails(Fault::Here(Rule::Exchange))
        }
        SectionFault::Make(refusal) => match refusal.number() {
            Some(_) => Halt::Fails(Fault::Here(Rule::Exchange)),
            None => Halt::NoMemory,
        },
        SectionFault::NoMemory => Halt::NoMemory,
    }
}

/// A record that doesn't end the description of the exchange.
fn describe_more(head: Head, mut section: Box<Section>, line: &Line) -> Result<Stage, Halt>
    requires settings { HasSettings section.value }
    requires lawful { IsRecord (record_of line.now) }
    requires more { (may_end section.value && ends_section head (record_of line.now)) ≡ false }
    ensures { LeadsOn (Stage.Describing head section) (record_of line.now) result }
{
    match section.take(line) {
        Ok(()) => Ok(Stage::Describing(head, section)),
        Err(fault) => Err(section_halt(fault)),
    }
}

/// The exchange that a complete section describes.
fn exchange_in(section: Box<Section>) -> Result<Exchange, AllocError>
    requires { IsTrue (may_end section.value) }
    ensures { IfOk result (λ exchange. exchange ≡ exchange_in section.value) }
{
    Box::into_inner(section).finish()
}

/// The exchange is complete, and the record begins this.
fn open(
    alloc: Global,
    head: Head,
    section: Box<Section>,
    opening: Opening,
    line: &Line,
) -> Result<Stage, Halt>
    requires settings { HasSettings section.value }
    requires complete { IsTrue (may_end section.value) }
    requires opens { Opens head (record_of line.now) opening }
    ensures { LeadsOn (Stage.Describing head section) (record_of line.now) result }
{
    let exchange = exchange_in(section)?;
    let groups = Groups::new(alloc, head, exchange, opening)?;
    match Box::new(alloc, groups) {
        Ok(groups) => Ok(Stage::Behind(groups)),
        Err(_) => Err(Halt::NoMemory),
    }
}

/// A record behind a complete exchange.
fn end(alloc: Global, head: Head, section: Box<Section>, line: &Line) -> Result<Stage, Halt>
    requires settings { HasSettings section.value }
    requires lawful { IsRecord (record_of line.now) }
    requires complete { IsTrue (may_end section.value) }
    ensures { LeadsOn (Stage.Describing head section) (record_of line.now) result }
{
    if head.stops_first(line) {
        return Err(Halt::Fails(Fault::Here(Rule::Closed)));
    }
    match head.opening(line) {
        Some(opening) => open(alloc, head, section, opening, line),
        None => describe_more(head, section, line),
    }
}

/// A record while the exchange is being described.
pub(crate) fn describe(
    alloc: Global,
    head: Head,
    section: Box<Section>,
    line: &Line,
) -> Result<Stage, Halt>
    requires settings { HasSettings section.value }
    requires lawful { IsRecord (record_of line.now) }
    ensures { LeadsOn (Stage.Describing head section) (record_of line.now) result }
{
    if section.may_end() {
        end(alloc, head, section, line)
    } else {
        describe_more(head, section, line)
    }
}
