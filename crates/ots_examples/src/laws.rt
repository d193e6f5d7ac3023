//! A calendar of one round, whose records, trees and journal are all given, and conversations with calendars.
ghost use Rattle.std.specs.Prelude.{◌≡◌, ◌≢◌, ◌≤◌, ◌++◌, ◌∷◌, ℕ, List, [], Some, Contains, length, map, slice_get};
ghost use Rattle.std.specs.List.{AllByRecursion};
ghost use Rattle.ots_asking.specs.Conversation.{Converse, Question};
ghost use Rattle.ots_asking.specs.declared.outcome.Outcome.{Outcome};
ghost use Rattle.ots_attest.specs.Uri.{IsUri};
ghost use Rattle.ots_base.specs.Cause.{Rose};
ghost use Rattle.ots_calendar.specs.Answer.{answer};
ghost use Rattle.ots_calendar.specs.Book.{Gives};
ghost use Rattle.ots_calendar.specs.Cycle.{IsCycle};
ghost use Rattle.ots_calendar.specs.Values.{AreTrue};
ghost use Rattle.ots_calendar.specs.declared.answer.Answer.TheVariants.{Complete, Pending};
ghost use Rattle.ots_cycle.specs.Whole.{whole_path};
ghost use Rattle.ots_examples.specs.NotFound.{after, before, outcomes};
ghost use Rattle.ots_examples.specs.OnDisk.{image, opened};
ghost use Rattle.ots_examples.specs.OneHeader.{table};
ghost use Rattle.ots_examples.specs.OneRound.{OneRound, Fits, anchor, closed, commit, completed, entries, later, over};
ghost use Rattle.ots_examples.specs.OneRound.{receipt, some_round, stamped, transaction};
ghost use Rattle.ots_headers.specs.DoubleSha256.{double_sha256};
ghost use Rattle.ots_headers.specs.HeaderTable.{IsTable, root_at};
ghost use Rattle.ots_journal.specs.Image.{Stands};
ghost use Rattle.ots_journal.specs.declared.entry.Entry.{Entry};
ghost use Rattle.ots_merkle.specs.BlockTree.{block_root};
ghost use Rattle.ots_merkle.specs.CalendarTree.{root};
ghost use Rattle.ots_outside.specs.Dialer.{DialerTold, Sent};
ghost use Rattle.ots_reader.specs.OneAnswer.{IsShape};
ghost use Rattle.ots_round.specs.Round.{round_commitment};
ghost use Rattle.ots_stamp.specs.Stamped.{leaves};
ghost use Rattle.ots_stamp.specs.declared.target.Target.{Target};
ghost use Rattle.ots_store.specs.Order.{InOrder, commits_of, records_of};
ghost use Rattle.ots_store.specs.Records.{CommitRecord, Record, entry_of};
ghost use Rattle.ots_store.specs.Store.{InRecords};
ghost use Rattle.ots_tree.specs.Wire.{Node, paths, pre};
ghost use Rattle.ots_tree.specs.declared.detached.Detached.{Detached};
ghost use Rattle.ots_tree.specs.declared.token.Token.{Token};
ghost use Rattle.ots_verdicts.specs.Confirmed.{IsConfirmed};
ghost use Rattle.ots_verdicts.specs.declared.verdicts.Chain.TheVariants as chain;

use ots_cycle::a_cycle_is_confirmed;
use ots_disk::Disk;

/// A calendar closed a round over one ticket, and its tip was anchored in a block of one transaction. Its entries spell
/// records in order, whose values are right. A tree is given for the ticket, and another is answered of the commitment.
/// So the two make a cycle, whatever the digest, nonce, key, second and URI are. There is one over each digest of at
/// most 64 bytes, and over the root of files that are stamped together.
pub fn a_cycle()
    ensures round { (r : OneRound) → commit r ≡ round_commitment r.key r.second (r.ticket ∷ []) }
    ensures block { (r : OneRound) → (anchor r).root ≡ block_root (double_sha256 (transaction r) ∷ []) }
    ensures records { (r : OneRound) → Fits r → InRecords (entries r) }
    ensures these { (r : OneRound) → Fits r → records_of (entries r) ≡ closed r ++ later r }
    ensures right { (r : OneRound) → Fits r → AreTrue (records_of (entries r)) }
    ensures few { (r : OneRound) → Fits r → length (commits_of (records_of (entries r))) ≡ 1 }
    ensures given { (r : OneRound) → Fits r → Gives (closed r) r.ticket r.uri (stamped r) (receipt r) }
    ensures answered { (r : OneRound) → Fits r → answer (records_of (entries r)) (commit r) ≡ Complete (completed r) }
    ensures cycle { (r : OneRound) → Fits r
        → IsCycle (records_of (entries r)) r.ticket.leaf r.uri (commit r) (stamped r) (completed r) }
    ensures some { (digest : List ℕ) → length digest ≤ 64 → Fits (some_round digest) }
    ensures uri { (digest : List ℕ) → IsUri (some_round digest).uri }
    ensures files { (targets : List Target) → IsCycle (records_of (entries (over targets))) (root (leaves targets))
        (over targets).uri (commit (over targets)) (stamped (over targets)) (completed (over targets)) }
{}

/// Entries that spell records in order have an image, and a book that is opened on it has these entries and their
/// records. So a crash of that calendar has one, with its commitment stored and its tip and anchor in flight: the
/// commitment was pending, and is answered in the book. So has a later crash, with all of them stored and one more
/// commitment in flight.
pub fn an_image_of_them<D: Disk>()
    ensures stands { (before flight : List Entry) → InRecords (before ++ flight)
        → Stands (image (before ++ flight)) (before ++ flight) }
    ensures opened { (entries : List Entry) (disk : D) → InRecords entries
        → Stands (image entries) (opened entries disk).store.journal.entries }
    ensures records { (entries : List Entry) (disk : D)
        → (opened entries disk).store.records ≡ records_of (opened entries disk).store.journal.entries }
    ensures cut { (r : OneRound) → Fits r
        → Stands (image (entries r)) (map entry_of (closed r) ++ map entry_of (later r)) }
    ensures pending { (r : OneRound) → answer (records_of (map entry_of (closed r))) (commit r) ≡ Pending }
    ensures complete { (r : OneRound) (disk : D) → Fits r
        → answer (opened (entries r) disk).store.records (commit r) ≡ Complete (completed r) }
    ensures order { (r : OneRound) → Fits r → InOrder [] (records_of (entries r)) }
    ensures more { (r : OneRound) (commitment : List ℕ) → Fits r → length commitment ≡ 44
        → InRecords (entries r ++ entry_of (CommitRecord commitment) ∷ []) }
{}

/// Where the root over files is in a cycle, each file has a proof with the whole path. The anchor in the cycle of that
/// calendar is the calendar's own, and a table of one header has its root. So a proof of the file confirms its height.
pub fn a_proof_of_it()
    ensures proof { (targets : List Target) (i : ℕ) (t : Target) (records : List Record) (uri commitment : List ℕ)
        (stamped completed : List Token) (c : IsCycle records (root (leaves targets)) uri commitment stamped completed)
        → length targets ≤ 1024 → slice_get targets i ≡ Some t
        → (proof : Detached) × (node : Node) × (proof.digest ≡ t.digest) × (pre node ≡ proof.tree)
        × Contains (paths node) (whole_path targets i t c) }
    ensures anchored { (r : OneRound) (digest uri commitment : List ℕ) (stamped completed : List Token)
        (c : IsCycle (records_of (entries r)) digest uri commitment stamped completed) → Fits r → c.anchor ≡ anchor r }
    ensures table { (r : OneRound) → Fits r → IsTable (table r) }
    ensures root { (r : OneRound) → root_at (table r) (anchor r).height ≡ Some (anchor r).root }
    ensures confirmed { (targets : List Target) (i : ℕ) (t : Target)
        → length targets ≤ 1024 → slice_get targets i ≡ Some t
        → (proof : Detached) × (proof.digest ≡ t.digest)
        × IsConfirmed chain.Bitcoin (table (over targets)) proof (over targets).height }
{
    a_cycle_is_confirmed();
}

/// Calendars are asked one after the other, and each replies that it has nothing, with status 404. So each conversation
/// is had, whatever is asked. The dialer is what it tells, and no call of it fails. That meets what `one_hearing` of
/// `ots_cli` supposes, with something asked: below a message of 1 to 4096 bytes and at most 255 operations, where what
/// was sent and the replies to come are told.
pub fn a_hearing()
    ensures had { (questions : List Question) → Converse (λ (told : DialerTold). told) (λ told. 0) questions
        (before questions) (after questions) (outcomes questions) }
    ensures met { (questions : List Question) × (old : DialerTold) × (new : DialerTold) × (heard : List Outcome)
        × (sent : List Sent) × (replies : List (List ℕ)) × (questions ≢ [])
        × AllByRecursion (λ (q : Question). IsShape q.length q.depth) questions × (old.sent ≡ Some sent)
        × (old.replies ≡ Some replies) × (¬ Rose 0 0)
        × Converse (λ (told : DialerTold). told) (λ told. 0) questions old new heard }
{}
