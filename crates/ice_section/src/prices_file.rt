//! Prices files in line form.
ghost use Rattle.std.specs.Prelude.{◌≡◌, ◌≢◌, ℕ, [], ◌∷◌, List, IfOk, IfErr, Ok as Found};
ghost use Rattle.ice_journal.specs.Records.{Record};
ghost use Rattle.ice_journal.specs.Lines.{record_of};
ghost use Rattle.ice_section.specs.LineFile.{prices_from, IsPricesOfLines};
ghost use Rattle.ice_section.specs.FileSteps.{is_prices_head, is_prices_end, ended_where, prices_after};
ghost use Rattle.ice_section.specs.FileStates.{prices_so_far, IsFaultOf, IsFaultFrom};

use crate::faults::{LineFileFault, bad_line, misplaced};
use ice_journal::{EndWord, Kind, Line, Room, Version, next_record};
use ice_terms::Prices;

/// A prices file, as far as its records were taken.
#[derive(Drop)]
pub(crate) enum PricesFile {
    Head,
    Prices,
    End(Prices),
    Done(Prices),
    Failed { line: u64 },
}

fn is_prices_head(line: &Line) -> bool
    ensures { result ≡ is_prices_head (record_of line.now) }
{
    matches!(
        line,
        Line::Head {
            version: Version::One,
            kind: Kind::Prices
        }
    )
}

fn is_prices_end(line: &Line) -> bool
    ensures { result ≡ is_prices_end (record_of line.now) }
{
    matches!(line, Line::End(EndWord::Prices))
}

/// The prices of a record, where they are for so many goods.
fn prices_of(goods: u8, line: Line) -> Option<Prices>
    ensures { (rest : List Record) → prices_from goods (record_of line.entry ∷ rest)
        ≡ ended_where result rest }
{
    match line {
        Line::Prices(prices) => {
            if prices.goods() == goods {
                Some(prices)
            } else {
                None
            }
        }
        _ => None,
    }
}

impl PricesFile {
    /// The file with one more record, for so many goods.
    fn after(self, goods: u8, next: Line) -> PricesFile
        ensures { (rest : List Record)
            → prices_after goods (prices_so_far self) (record_of next.entry ∷ rest)
            ≡ prices_after goods (prices_so_far result) rest }
    {
        match self {
            PricesFile::Head => {
                if is_prices_head(&next) {
                    PricesFile::Prices
                } else {
                    PricesFile::Failed { line: 1 }
                }
            }
            PricesFile::Prices => match prices_of(goods, next) {
                Some(prices) => PricesFile::End(prices),
                None => PricesFile::Failed { line: 2 },
            },
            PricesFile::End(prices) => {
                if is_prices_end(&next) {
                    PricesFile::Done(prices)
                } else {
                    PricesFile::Failed { line: 3 }
                }
            }
            PricesFile::Done(_) => PricesFile::Failed { line: 4 },
            PricesFile::Failed { line } => PricesFile::Failed { line },
        }
    }

    /// What the file gives where it ends here.
    fn finish(self) -> Result<Prices, LineFileFault>
        ensures prices { IfOk result (λ prices. (goods : ℕ)
            → prices_after goods (prices_so_far self) [] ≡ Found prices) }
        ensures fault { IfErr result
            (λ fault. ((goods : ℕ) → IsFaultOf (prices_after goods (prices_so_far self) []) fault)
            × (fault ≢ LineFileFault.NoMemory)) }
    {
        match self {
            PricesFile::Head => Err(misplaced(1)),
            PricesFile::Prices => Err(misplaced(2)),
            PricesFile::End(_) => Err(misplaced(3)),
            PricesFile::Done(prices) => Ok(prices),
            PricesFile::Failed { line } => Err(misplaced(line)),
        }
    }
}

/// The prices that a file in line form states, for so many goods.
///
/// It refuses at the least line that is no record (number 50), or at a last line without a newline
/// (51), before every other fault. Then the first record counts that may not stand there, or prices
/// that are not as many as the goods (50); where a record is missing, its line is the one after the
/// last. It takes no memory.
pub fn read_prices_lines(bytes: &[u8], goods: u8) -> Result<Prices, LineFileFault>
    ensures prices { IfOk result (λ prices. IsPricesOfLines goods bytes.now (Found prices)) }
    ensures fault { IfErr result (λ fault. IsFaultFrom (IsPricesOfLines goods bytes.now) fault
        × (fault ≢ LineFileFault.NoMemory)) }
{
    let mut file = PricesFile::Head;
    let mut room = Room::new();
    let mut rest = bytes;
    let mut lines: u64 = 0;
    while !rest.is_empty() {
        let (record, after) = match next_record(rest, &mut room) {
            Ok(next) => next,
            Err(bad) => return Err(bad_line(bad, lines + 1)),
        };
        file = file.after(goods, record);
        lines += 1;
        rest = after;
    }
    file.finish()
}
