//! Laws of records and of the bytes of journals.
ghost use Rattle.std.specs.Prelude.{◌≡◌, ℕ, List, ◌∷◌, Result};
ghost use Rattle.ice_journal.specs.Records.{Kind, Record, version_1};
ghost use Rattle.ice_journal.specs.Records as line;
ghost use Rattle.ice_journal.specs.Plain.{plain, in_version_2, goods_in, AreOfVersion1};
ghost use Rattle.ice_journal.specs.Ranges.{IsRecord};
ghost use Rattle.ice_journal.specs.Spelling.{text_of};
ghost use Rattle.ice_journal.specs.Journal.{LinesFault, IsJournalOf};

/// What is written of a record is read as no other.
pub fn texts_tell_records()
    ensures { (a b : Record) → IsRecord a → IsRecord b → text_of a ≡ text_of b → a ≡ b }
{}

/// Bytes are the lines of one list of records, or have one least line at fault, and never both.
pub fn bytes_tell_journals()
    ensures { (bytes : List ℕ) (a b : Result (List Record) LinesFault) → IsJournalOf bytes a → IsJournalOf bytes b → a ≡ b }
{}

/// A journal of version 1 comes back from version 2.
pub fn packed_journals_come_back()
    ensures { (kind : Kind) (records : List Record) → AreOfVersion1 (goods_in records) records → plain (in_version_2 (line.head version_1 kind ∷ records)) ≡ line.head version_1 kind ∷ records }
{}
