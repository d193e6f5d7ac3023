//! Laws of what the calendar's word and files give: one thing, or one refusal.
ghost use Rattle.std.specs.Prelude.{◌≡◌, ℕ, List};
ghost use Rattle.ots_block.specs.Block.{Contents};
ghost use Rattle.ots_journal.specs.declared.entry.Entry.{Entry};
ghost use Rattle.ots_calendar_text.specs.declared.status.DaemonStatus.{DaemonStatus};
ghost use Rattle.ots_calendar_inputs.specs.Address.{IsOneAddress, RefusesAddress};
ghost use Rattle.ots_calendar_inputs.specs.Block.{GivesBlock, RefusesBlock};
ghost use Rattle.ots_calendar_inputs.specs.Digests.{IsDigests, RefusesDigests};
ghost use Rattle.ots_calendar_inputs.specs.Key.{GivesKey, RefusesKey};
ghost use Rattle.ots_calendar_inputs.specs.Old.{GivesOld, RefusesOld};

/// A word has one URI at most, and is refused with one status at most, and never both.
pub fn one_address()
    ensures given { (word first second : List ℕ) → IsOneAddress word first → IsOneAddress word second → first ≡ second }
    ensures refused { (word : List ℕ) (first second : DaemonStatus) → RefusesAddress word first
        → RefusesAddress word second → first ≡ second }
    ensures never_both { (word uri : List ℕ) (status : DaemonStatus) → IsOneAddress word uri
        → RefusesAddress word status → ⊥ }
{}

/// Bytes give one key at most, which is known by the 64 bytes of its block, and are refused with
/// one status at most, and never both.
pub fn one_key()
    ensures given { (bytes first second : List ℕ) → GivesKey bytes first → GivesKey bytes second → first ≡ second }
    ensures refused { (bytes : List ℕ) (first second : DaemonStatus) → RefusesKey bytes first → RefusesKey bytes second
        → first ≡ second }
    ensures never_both { (bytes key : List ℕ) (status : DaemonStatus) → GivesKey bytes key → RefusesKey bytes status
        → ⊥ }
{}

/// Bytes are the lines of one list of digests at most, and have one first bad line at most, and
/// never both.
pub fn one_list_of_digests()
    ensures given { (bytes : List ℕ) (first second : List (List ℕ)) → IsDigests bytes first → IsDigests bytes second
        → first ≡ second }
    ensures refused { (bytes : List ℕ) (first second : DaemonStatus) → RefusesDigests bytes first
        → RefusesDigests bytes second → first ≡ second }
    ensures never_both { (bytes : List ℕ) (digests : List (List ℕ)) (status : DaemonStatus) → IsDigests bytes digests
        → RefusesDigests bytes status → ⊥ }
{}

/// Bytes are one block at most, and are refused with one status at most, and never both. More than
/// 4,194,304 bytes are no block and no faulty one: they are too many.
pub fn one_block()
    ensures given { (bytes : List ℕ) (first second : Contents) → GivesBlock bytes first → GivesBlock bytes second
        → first ≡ second }
    ensures refused { (bytes : List ℕ) (first second : DaemonStatus) → RefusesBlock bytes first
        → RefusesBlock bytes second → first ≡ second }
    ensures never_both { (bytes : List ℕ) (block : Contents) (status : DaemonStatus) → GivesBlock bytes block
        → RefusesBlock bytes status → ⊥ }
{}

/// Bytes stand for one list of entries of version 1 at most, and are refused with one status at
/// most, and never both. More than 1,073,741,824 bytes are no journal and no damaged one: they are
/// too many.
pub fn one_old_journal()
    ensures given { (bytes : List ℕ) (first second : List Entry) → GivesOld bytes first → GivesOld bytes second
        → first ≡ second }
    ensures refused { (bytes : List ℕ) (first second : DaemonStatus) → RefusesOld bytes first → RefusesOld bytes second
        → first ≡ second }
    ensures never_both { (bytes : List ℕ) (entries : List Entry) (status : DaemonStatus) → GivesOld bytes entries
        → RefusesOld bytes status → ⊥ }
{}
