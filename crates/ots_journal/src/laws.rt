//! What the definitions say of bytes, beside what each call says.
ghost use Rattle.std.specs.Prelude.{◌≡◌, ℕ, List};
ghost use Rattle.ots_journal.specs.Image.{Stands};
ghost use Rattle.ots_journal.specs.Journal.{IsAtMost};
ghost use Rattle.ots_journal.specs.Opening.{Refuses, IsGate, IsOfBytes};
ghost use Rattle.ots_journal.specs.Version1.{Stands1};
ghost use Rattle.ots_journal.specs.declared.entry.Entry.{Entry};
ghost use Rattle.ots_journal.specs.declared.errors.JournalError.{JournalError};
ghost use Rattle.ots_journal.specs.declared.errors.JournalError.TheVariants as opening;

/// Bytes that stand for a list are neither an old version, nor no journal, nor damaged.
pub fn standing_is_not_refused()
    ensures { (limit : ℕ) (bytes : List ℕ) (entries : List Entry) (e : JournalError) → Stands bytes entries
        → Refuses limit bytes e → IsOfBytes e → ⊥ }
{}

/// Bytes within a limit are not refused with that limit as too many.
pub fn within_is_not_full()
    ensures { (limit : ℕ) (bytes : List ℕ) (need most : ℕ) → IsAtMost limit bytes
        → Refuses limit bytes (opening.Full need most) → ⊥ }
{}

/// Bytes stand for one list at most.
pub fn bytes_stand_once()
    ensures { (bytes : List ℕ) (first second : List Entry) → Stands bytes first → Stands bytes second → first ≡ second }
{}

/// Bytes have the next group's gate at one place at most.
pub fn one_gate()
    ensures { (bytes : List ℕ) (first second : ℕ) → IsGate bytes first → IsGate bytes second → first ≡ second }
{}

/// Bytes have one such refusal at most, and one damaged place.
pub fn one_refusal()
    ensures { (limit : ℕ) (bytes : List ℕ) (first second : JournalError) → Refuses limit bytes first
        → Refuses limit bytes second → IsOfBytes first → IsOfBytes second → first ≡ second }
{}

/// Bytes stand for one list of version 1 at most.
pub fn bytes_stand_once_1()
    ensures { (bytes : List ℕ) (first second : List Entry) → Stands1 bytes first → Stands1 bytes second
        → first ≡ second }
{}
