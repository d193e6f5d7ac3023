//! What the definition of a page says, beside what each call says.
ghost use Rattle.std.specs.Prelude.{◌≡◌, ◌<◌, ◌≤◌, ◌^◌, ◌++◌, ℕ, List, length};
ghost use Rattle.std.specs.List.{AllByRecursion};
ghost use Rattle.ots_journal.specs.declared.entry.Entry.{Entry};
ghost use Rattle.ots_store.specs.Order.{records_of};
ghost use Rattle.ots_store.specs.Page.{page};
ghost use Rattle.ots_store.specs.Records.{HasForm, Record};
ghost use Rattle.ots_mirror_pages.specs.Page.{IsPage};
ghost use Rattle.ots_mirror_pages.specs.Round.{IsHonest, IsPrefix, Takes};

/// Bytes are one page at most.
pub fn one_page()
    ensures { (bytes : List ℕ) (first second : ℕ) (some others : List Entry) → IsPage bytes first some
        → IsPage bytes second others → (first ≡ second) × (some ≡ others) }
{}

/// What a calendar hands out is a page for the number that was asked for.
pub fn pages_are_read()
    ensures { (records : List Record) (n : ℕ) → n < 2 ^ 64
        → (entries : List Entry) × IsPage (page records n) n entries }
{}

/// What is taken of an honest calendar's pages, whatever is lost, repeated or out of order, are its records.
pub fn honest_pages_are_followed()
    ensures { (all records : List Record) (body : List ℕ) (entries : List Entry) → AllByRecursion HasForm all
        → IsPrefix records all → IsHonest all body → Takes records body entries
        → IsPrefix (records ++ records_of entries) all }
{}

/// A calendar that hands out pages of its records is honest, also once it has more of them.
pub fn calendars_are_honest()
    ensures { (all earlier : List Record) (n : ℕ) → IsPrefix earlier all → n < 2 ^ 64 → n ≤ length earlier
        → IsHonest all (page earlier n) }
{}

/// A page for a number below the count of a calendar's records has one of them, so that whoever asks page after page
/// comes to its end.
pub fn pages_go_on()
    ensures { (records : List Record) (n : ℕ) (entries : List Entry) → AllByRecursion HasForm records → n < 2 ^ 64
        → n < length records → IsPage (page records n) n entries → 1 ≤ length entries }
{}
