//! What the definitions say of records, beside what each call says.
ghost use Rattle.std.specs.Prelude.{◌≡◌, ℕ, List, []};
ghost use Rattle.ots_journal.specs.declared.entry.Entry.{Entry};
ghost use Rattle.ots_store.specs.Records.{Record, HasForm, entry_of, record_of, IsRecord};
ghost use Rattle.ots_store.specs.Order.{InOrder, AreRecords, FirstBad};
ghost use Rattle.ots_store.specs.Ranges.{Orderly};

/// A record's spelling determines it.
pub fn one_record()
    ensures { (first second : Record) → HasForm first → HasForm second → entry_of first ≡ entry_of second
        → first ≡ second }
{}

/// An entry spells a record exactly where it is the spelling of one.
pub fn records_are_spelled()
    ensures { (r : Record) → HasForm r → IsRecord (entry_of r) × (record_of (entry_of r) ≡ r) }
{}

/// Among entries that spell records in order there is no first bad one.
pub fn records_are_not_bad()
    ensures { (before : List Record) (entries : List Entry) (i : ℕ) → AreRecords before entries
        → FirstBad before entries i → ⊥ }
{}

/// There is one first bad entry at most.
pub fn one_first_bad()
    ensures { (before : List Record) (entries : List Entry) (first second : ℕ) → FirstBad before entries first
        → FirstBad before entries second → first ≡ second }
{}

/// Records in order have ranges that rise.
pub fn ranges_rise()
    ensures { (records : List Record) → InOrder [] records → Orderly records }
{}
