//! Exchange files in line form.
ghost use Rattle.std.specs.Prelude.{◌≡◌, ◌<◌, ◌^◌, suc, [], ◌∷◌, List, IfOk, IfErr, OnOk, Ok as Found};
ghost use Rattle.ice_journal.specs.Records.{Record};
ghost use Rattle.ice_journal.specs.Lines.{record_of};
ghost use Rattle.ice_journal.specs.Ranges.{IsRecord};
ghost use Rattle.ice_section.specs.LineFile.{is_exchange_end, IsExchangeOfLines};
ghost use Rattle.ice_section.specs.FileSteps.{is_exchange_head, IsBegun, exchange_after};
ghost use Rattle.ice_section.specs.FileStates.{so_far, IsNumbered, IsFaultOf, IsFaultFrom};

use crate::faults::{LineCause, LineFileFault, bad_line, misplaced};
use crate::section::Section;
use ice_journal::{EndWord, Kind, Line, Room, Version, next_record};
use ice_trade::Exchange;
use std::alloc::{AllocError, Global};

/// What of an exchange file was read.
#[derive(Clone, Copy)]
pub(crate) enum SoFar {
    Head,
    Section,
    End,
    Failed { cause: LineCause, line: u64 },
}

/// An exchange file, as far as its records were taken.
#[derive(Drop)]
pub(crate) struct ExchangeFile {
    pub(crate) reached: SoFar,
    pub(crate) section: Section,
}

fn is_exchange_head(line: &Line) -> bool
    ensures { result ≡ is_exchange_head (record_of line.now) }
{
    matches!(
        line,
        Line::Head {
            version: Version::One,
            kind: Kind::Exchange
        }
    )
}

fn is_exchange_end(line: &Line) -> bool
    ensures { result ≡ is_exchange_end (record_of line.now) }
{
    matches!(line, Line::End(EndWord::Exchange))
}

impl ExchangeFile {
    /// Takes the next record, after so many lines. Want of memory alone ends it: a fault is kept,
    /// since a later line at fault comes before it.
    fn take(&mut self, lines: u64, next: &Line) -> Result<(), AllocError>
        requires few { lines < 2 ^ 63 }
        requires lawful { IsRecord (record_of next.now) }
        requires begun { IsBegun lines (so_far self.old) self.old.section }
        requires numbered { IsNumbered self.old.reached }
        ensures begun { OnOk result (IsBegun (suc lines) (so_far self.new) self.new.section) }
        ensures numbered { OnOk result (IsNumbered self.new.reached) }
        ensures taken { OnOk result ((rest : List Record)
            → exchange_after lines (so_far self.old) (record_of next.now ∷ rest)
            ≡ exchange_after (suc lines) (so_far self.new) rest) }
    {
        let line = lines + 1;
        match self.reached {
            SoFar::Head => {
                self.reached = if is_exchange_head(next) {
                    SoFar::Section
                } else {
                    SoFar::Failed {
                        cause: LineCause::Misplaced,
                        line: 1,
                    }
                };
            }
            SoFar::Section => {
                if is_exchange_end(next) {
                    self.reached = SoFar::End;
                } else if let Err(fault) = self.section.take(next) {
                    if fault.number().is_none() {
                        return Err(AllocError);
                    }
                    let cause = LineCause::Section(fault);
                    self.reached = SoFar::Failed { cause, line };
                }
            }
            SoFar::End => {
                let line = if self.section.may_end() { line } else { lines };
                let cause = LineCause::Misplaced;
                self.reached = SoFar::Failed { cause, line };
            }
            SoFar::Failed { .. } => {}
        }
        Ok(())
    }

    /// What the file gives where it ends after so many lines.
    fn finish(self, lines: u64) -> Result<Exchange, LineFileFault>
        requires few { lines < 2 ^ 63 }
        requires numbered { IsNumbered self.reached }
        ensures exchange { IfOk result (λ exchange. exchange_after lines (so_far self) []
            ≡ Found exchange) }
        ensures fault { IfErr result (IsFaultOf (exchange_after lines (so_far self) [])) }
    {
        let ExchangeFile { reached, section } = self;
        match reached {
            SoFar::Head => Err(misplaced(1)),
            SoFar::Section => Err(misplaced(lines + 1)),
            SoFar::End => {
                if !section.may_end() {
                    return Err(misplaced(lines));
                }
                match section.finish() {
                    Ok(exchange) => Ok(exchange),
                    Err(AllocError) => Err(LineFileFault::NoMemory),
                }
            }
            SoFar::Failed { cause, line } => Err(LineFileFault::Fault { cause, line }),
        }
    }
}

/// The exchange that a file in line form describes.
///
/// It refuses at the least line that is no record (number 50), or at a last line without a newline
/// (51), before every other fault. Then the records are taken in turn, and the first fault counts:
/// a record that may not stand there, owned amounts that are not as many as the goods, or a missing
/// record, at the line after the last (50); a node of a good that is not there (5); and what a
/// maker refuses, with its number, at the line that was read last.
pub fn read_exchange_lines(alloc: Global, bytes: &[u8]) -> Result<Exchange, LineFileFault>
    ensures exchange { IfOk result (λ exchange. IsExchangeOfLines bytes.now (Found exchange)) }
    ensures fault { IfErr result (IsFaultFrom (IsExchangeOfLines bytes.now)) }
{
    let mut file = ExchangeFile {
        reached: SoFar::Head,
        section: Section::new(alloc),
    };
    let mut room = Room::new();
    let mut rest = bytes;
    let mut lines: u64 = 0;
    while !rest.is_empty() {
        let (record, after) = match next_record(rest, &mut room) {
            Ok(next) => next,
            Err(bad) => return Err(bad_line(bad, lines + 1)),
        };
        let Ok(()) = file.take(lines, &record) else {
            return Err(LineFileFault::NoMemory);
        };
        lines += 1;
        rest = after;
    }
    file.finish(lines)
}
