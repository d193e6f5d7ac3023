//! What the definitions say of a calendar's answers, beside what each call says.
ghost use Rattle.std.specs.Prelude.{◌≡◌, ◌≤◌, ◌<◌, ◌+◌, ◌^◌, ◌++◌, ◌∷◌, ℕ, Bool, List, [], Some, find, length};
ghost use Rattle.std.specs.Prelude.{slice_get};
ghost use Rattle.std.specs.Prelude.{Option, Result};
ghost use Rattle.ots_block.specs.Block.{Contents};
ghost use Rattle.ots_journal.specs.Journal.{JournalTold};
ghost use Rattle.ots_journal.specs.declared.entry.Entry.{Entry};
ghost use Rattle.ots_journal.specs.declared.errors.AppendError.{AppendError};
ghost use Rattle.ots_store.specs.declared.tip.Tip.{Tip};
ghost use Rattle.ots_calendar.specs.Anchors.{AsksAnchor};
ghost use Rattle.ots_calendar.specs.Book.{BookTold, Gives, Grows, IsGone, IsTaken};
ghost use Rattle.ots_calendar.specs.Cycle.{IsCycle};
ghost use Rattle.ots_round.specs.declared.ticket.Receipt.{Receipt};
ghost use Rattle.ots_journal.specs.Image.{Stands};
ghost use Rattle.ots_calendar.specs.Rounds.{Closes};
ghost use Rattle.ots_calendar.specs.Tips.{AsksTip};
ghost use Rattle.ots_calendar.specs.declared.errors.AnchorError.{AnchorError};
ghost use Rattle.ots_calendar.specs.declared.errors.TipError.{TipError};
ghost use Rattle.ots_ops.specs.Value.{value};
ghost use Rattle.ots_round.specs.Round.{round_commitment, round_way};
ghost use Rattle.ots_round.specs.declared.ticket.Ticket.{Ticket};
ghost use Rattle.ots_store.specs.Index.{least};
ghost use Rattle.ots_store.specs.Order.{anchors_of, commits_of, covers, records_of, InOrder};
ghost use Rattle.ots_store.specs.Records.{Record};
ghost use Rattle.ots_store.specs.Store.{InRecords};
ghost use Rattle.ots_store.specs.declared.anchor.Anchor.{Anchor};
ghost use Rattle.ots_tickets.specs.Calls.{Takes, Withdraws};
ghost use Rattle.ots_tickets.specs.Tickets.{IsNew, TicketsTold, settles};
ghost use Rattle.ots_tickets.specs.declared.settled.Settled.{Settled};
ghost use Rattle.ots_tickets.specs.declared.tickets.Taken.{Taken};
ghost use Rattle.ots_attest.specs.Uri.{IsUri};
ghost use Rattle.ots_attest.specs.declared.attestation.Attestation.TheVariants as attested;
ghost use Rattle.ots_tree.specs.Made.{lone};
ghost use Rattle.ots_tree.specs.Wire.{pre, spelled};
ghost use Rattle.ots_tree.specs.declared.token.Token.{Token};
ghost use Rattle.ots_calendar.specs.Answer.{answer, answer_at, way_in};
ghost use Rattle.ots_calendar.specs.Values.{AreTrue};
ghost use Rattle.ots_calendar.specs.declared.answer.Answer.TheVariants.{Complete, Pending};

use ots_disk::Disk;
use ots_journal::bytes_stand_once;

/// What is answered of a stored commitment stays when records are added, as those in flight may be
/// by a crash: a complete answer is the same, and a pending one is as the first of the added anchors
/// has it that covers the commitment.
pub fn answers_stay()
    ensures complete { (records more : List Record) (c : List ℕ) (tree : List Token) → InOrder [] records
        → answer records c ≡ Complete tree → answer (records ++ more) c ≡ Complete tree }
    ensures pending { (records more : List Record) (c : List ℕ) → answer records c ≡ Pending
        → (i : ℕ) × (least c (commits_of records) ≡ Some i) × (answer (records ++ more) c
        ≡ answer_at (commits_of (records ++ more)) i (find (covers i) (anchors_of more))) }
{}

/// The way of a ticket to its commitment, and then that of the commitment to its anchor, lead from
/// the digest to the anchor's root, which is the Merkle root in the header of the anchor's block.
/// They have at most 201 operations. So do the paths of the tree that `take` gives for a ticket, and
/// of the one that `ask` answers of its commitment, whenever that is.
pub fn cycle()
    ensures leads { (entries : List Entry) (key : List ℕ) (second : ℕ) (tickets : List Ticket) (i : ℕ) (ticket : Ticket)
        (j : ℕ) (anchor : Anchor)
        → InRecords entries → AreTrue (records_of entries)
        → slice_get tickets i ≡ Some ticket → length ticket.leaf ≤ 64 → length ticket.nonce ≡ 16
        → least (round_commitment key second tickets) (commits_of (records_of entries)) ≡ Some j
        → find (covers j) (anchors_of (records_of entries)) ≡ Some anchor
        → value (round_way key second tickets i ticket ++ way_in (commits_of (records_of entries)) j anchor) ticket.leaf
        ≡ Some anchor.root }
    ensures few { (entries : List Entry) (key : List ℕ) (second : ℕ) (tickets : List Ticket) (i : ℕ) (ticket : Ticket)
        (j : ℕ) (anchor : Anchor)
        → InRecords entries → length (commits_of (records_of entries)) ≤ 2 ^ 32 → length tickets ≤ 2 ^ 16
        → find (covers j) (anchors_of (records_of entries)) ≡ Some anchor
        → length (round_way key second tickets i ticket ++ way_in (commits_of (records_of entries)) j anchor) ≤ 201 }
    ensures trees { (entries : List Entry) (before : List Record) (ticket : Ticket) (uri : List ℕ)
        (stamped completed : List Token) (receipt : Receipt)
        → InRecords entries → AreTrue (records_of entries) → length (commits_of (records_of entries)) ≤ 2 ^ 32
        → Gives before ticket uri stamped receipt → answer (records_of entries) receipt.commitment ≡ Complete completed
        → IsCycle (records_of entries) ticket.leaf uri receipt.commitment stamped completed }
{}

/// What is answered after a crash. The image that it left stands for the entries of before and maybe for those
/// that were in flight, and a book was opened on it, whose journal has the image's entries and whose records are
/// theirs. A commitment that was answered with a tree is answered with the same; and one that was pending is
/// pending, or is answered by the first anchor in flight that covers it.
pub fn answers_after_a_crash<D: Disk>()
    ensures complete { (image : List ℕ) (before flight : List Entry) (book : BookTold D) (c : List ℕ)
        (tree : List Token) → Stands image (before ++ flight) → Stands image book.store.journal.entries
        → book.store.records ≡ records_of book.store.journal.entries → InOrder [] (records_of before)
        → answer (records_of before) c ≡ Complete tree → answer book.store.records c ≡ Complete tree }
    ensures pending { (image : List ℕ) (before flight : List Entry) (book : BookTold D) (c : List ℕ)
        → Stands image (before ++ flight) → Stands image book.store.journal.entries
        → book.store.records ≡ records_of book.store.journal.entries → answer (records_of before) c ≡ Pending
        → (i : ℕ) × (least c (commits_of (records_of before)) ≡ Some i) × (answer book.store.records c
        ≡ answer_at (commits_of book.store.records) i (find (covers i) (anchors_of (records_of flight)))) }
{
    bytes_stand_once();
}

/// What a calendar answers is spelled in less than 10,000 bytes, the most that a client takes of a
/// reply: the tree of a ticket whose round is closed, which ends in a pending attestation, and that
/// of a commitment, by the first anchor that covers it.
pub fn trees_are_short()
    ensures ticket { (key : List ℕ) (second : ℕ) (tickets : List Ticket) (i : ℕ) (ticket : Ticket) (uri : List ℕ)
        → length tickets ≤ 2 ^ 16 → length ticket.nonce ≡ 16 → IsUri uri
        → length (spelled (pre (lone (round_way key second tickets i ticket) (attested.Pending uri)))) < 10000 }
    ensures answer { (entries : List Entry) (c : List ℕ) (tree : List Token)
        → InRecords entries → length (commits_of (records_of entries)) ≤ 2 ^ 32
        → answer (records_of entries) c ≡ Complete tree → length (spelled tree) < 10000 }
{}

/// A call that may write leaves the journal's limit, and its entries begin with those before.
pub fn calls_grow<D: Disk>()
    ensures close { (key : List ℕ) (second : ℕ) (old new : BookTold D) (result : Result (Option ℕ) AppendError)
        → Closes D.bytes D.clock D.images_since key second old new result → Grows old.store.journal new.store.journal }
    ensures tip { (old new : JournalTold D) (result : Result Tip TipError)
        → AsksTip D.bytes D.clock D.images_since old new result → Grows old new }
    ensures anchor { (block : Contents) (height : ℕ) (old new : JournalTold D) (result : Result Anchor AnchorError)
        → AsksAnchor D.bytes D.clock D.images_since block height old new result → Grows old new }
{}

/// What becomes of a ticket that is put. Withdrawn, it leaves those that waited before it. Where the
/// round over all that wait is closed, as it was put last, it is then given.
pub fn one_ticket()
    ensures withdrawn { (old mid new : TicketsTold) (ticket : Ticket) → IsNew ticket.number old
        → mid.waiting ≡ old.waiting ++ ticket ∷ [] → mid.settled ≡ old.settled
        → (answer : Bool) → Withdraws ticket mid new answer → IsGone old new answer }
    ensures taken { (key : List ℕ) (second index : ℕ) (waited : List Ticket) (before : List Settled)
        (closed new : TicketsTold) (ticket : Ticket) (uri : List ℕ)
        → closed.settled ≡ before ++ settles key second index (waited ++ ticket ∷ [])
        → (answer : Taken) → Takes ticket uri closed new answer → IsTaken closed new answer }
{}
