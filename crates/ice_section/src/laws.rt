//! What the records of a section come to: laws of the definitions, which hold of every run.

ghost use Rattle.ice_section.specs.Laws.{SectionIsLawful, SectionRecords, DescribedAreRecords, DescribedAreTaken};

/// The exchange of a section that may end is lawful.
#[tactic(auto, using(crate::proofs::Whole::section_is_lawful))]
pub fn section_is_lawful()
    ensures { SectionIsLawful }
{}

/// The records of a section that may end are those that describe its exchange.
#[tactic(auto, using(crate::proofs::Whole::section_records_are))]
pub fn section_records_describe()
    ensures { SectionRecords }
{}

/// The records that describe a lawful exchange are records, with every number in its range.
#[tactic(auto, using(crate::proofs::Describing::described_are_records))]
pub fn described_are_records()
    ensures { DescribedAreRecords }
{}

/// A section takes the records that describe a lawful exchange, and has that exchange.
#[tactic(auto, using(crate::proofs::Describing::described_are_taken))]
pub fn described_are_taken()
    ensures { DescribedAreTaken }
{}
