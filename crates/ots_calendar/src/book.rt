ghost use Rattle.std.specs.Prelude.{◌≡◌, ◌⊎◌, ◌<◌, ◌≤◌, ◌^◌, ◌+◌, ◌++◌, ◌∷◌, [], List, ℕ, true, false, length, Some};
ghost use Rattle.std.specs.Prelude.{Err, IsOk, IfOk, IfErr, IsErrOf, IfSome, OnOk, OnErr, MatchOption};
ghost use Rattle.std.specs.List.{AllByRecursion};
ghost use Rattle.ots_base.specs.Cause.{HasCause, HasCauseWhere};
ghost use Rattle.ots_disk.specs.Disk.{LeavesOnly};
ghost use Rattle.ots_journal.specs.Image.{Stands};
ghost use Rattle.ots_journal.specs.Journal.{StandsForEither, Refreshed, Unrefreshed};
ghost use Rattle.ots_journal.specs.Within.{StaysWithin};
ghost use Rattle.ots_store.specs.Order.{commits_of, tips_of, covered_of, records_of, HasSpan, FollowsTip};
ghost use Rattle.ots_store.specs.Opening.{IfBad};
ghost use Rattle.ots_store.specs.Records.{AnchorRecord, CommitRecord, entry_of, FitsTip};
ghost use Rattle.ots_store.specs.Store.{Added, Adds, StoreStands};
ghost use Rattle.ots_tickets.specs.Calls.{IfSettled, Takes, Withdraws};
ghost use Rattle.ots_tickets.specs.Tickets.{IsNew, Leads, settles};
ghost use Rattle.ots_tickets.specs.declared.tickets.TheConstants.{MAX_WAITING};
ghost use Rattle.ots_calendar.specs.Rounds.{Closes};
ghost use Rattle.ots_block.specs.Block.{txids};
ghost use Rattle.ots_block.specs.declared.limits.TheConstants.{MAX_COMPACT};
ghost use Rattle.ots_merkle.specs.BlockTree.{block_root};
ghost use Rattle.ots_calendar.specs.Anchors.{AnchorsIn, AsksAnchor, FindsAnchor, FindsNone, MayStand, OnlyRefreshed};
ghost use Rattle.ots_calendar.specs.Answer.{answer};
ghost use Rattle.ots_calendar.specs.Book.{AllStand, Gives, Grows, StandsForBook, Stops};
ghost use Rattle.ots_calendar.specs.Tips.{AllCovered, IsNextTip, StoresTip, FindsTip, AsksTip};
ghost use Rattle.ots_kept_trees.specs.Kept.{AreKept};
ghost use Rattle.ots_calendar.specs.Values.{AreTrue, FirstUntrue};

use crate::anchoring::{check_root, find_anchor, ids_of};
use crate::answering::{catch_up, prepare_by};
use crate::values::first_untrue;
use crate::{AnchorError, Answer, Prepared, RefusedBook, TipError};
use ots_attest::Uri;
use ots_base::OutOfMemory;
use ots_block::Block;
use ots_disk::Disk;
use ots_journal::{AppendError, DiskFault};
use ots_kept_trees::{Trees, room_for_all};
use ots_merkle::Peaks;
use ots_outside::Leaf;
use ots_round::{Key, Ticket};
use ots_store::{Anchor, Store, StoreError, Tip};
use ots_tickets::{PutError, Taken, Tickets};
use std::alloc::Global;
use std::marker::Model;

/// A calendar: its records on a disk.
///
/// Contracts see the store.
#[derive(Drop)]
pub struct Book<D: Disk> {
    alloc: Global,
    store: Store<D>,
    // The trees of the next tip and of the anchors.
    kept: Trees,
    tickets: Tickets,
}

impl<D: Disk> Model for Book<D> {
    ghost use Rattle.ots_calendar.specs.Book.{BookTold, KeepsBook};

    ghost Value = { BookTold D };

    ghost view = { λ b. record { store = b.store; tickets = b.tickets } };

    ghost invariant = { λ b. KeepsBook b.store.journal b.kept b.tickets };
}

impl<D: Disk> Book<D> {
    /// Takes the records of a sure store as those of a book. `BadRecord` names the first of which a
    /// value is not right: the root of a tip, or that of an anchor.
    pub fn open(alloc: Global, store: Store<D>) -> Result<Book<D>, RefusedBook<D>>
        requires { store.journal.is_sure ≡ true }
        ensures store { IfOk result (λ b. b.store ≡ store) }
        ensures waiting { IfOk result (λ b. b.tickets.waiting ≡ []) }
        ensures settled { IfOk result (λ b. b.tickets.settled ≡ []) }
        ensures are_true { OnOk result (AreTrue store.records) }
        ensures bad { IfErr result (λ r. IfBad r.why (FirstUntrue store.records)) }
        ensures accepts { AreTrue store.records → IfErr result (λ r. r.why ≡ StoreError.OutOfMemory) }
        ensures disk { IfErr result (λ r. r.disk ≡ store.journal.disk) }
    {
        store.stands();
        let mut kept = Trees::new(alloc);
        match first_untrue(&store, &mut kept) {
            Ok(None) => {
                let tickets = Tickets::new(alloc);
                let mut book = Book {
                    alloc,
                    store,
                    kept,
                    tickets,
                };
                book.catch_up();
                Ok(book)
            }
            Ok(Some(i)) => Err(RefusedBook {
                disk: store.into_disk(),
                why: StoreError::BadRecord(i),
            }),
            Err(OutOfMemory) => Err(RefusedBook {
                disk: store.into_disk(),
                why: StoreError::OutOfMemory,
            }),
        }
    }

    /// The records.
    pub fn store(&self) -> &Store<D>
        ensures { result.now ≡ self.now.store }
    {
        &self.store
    }

    /// What every book keeps. It does nothing.
    pub fn stands(&self)
        ensures store { StoreStands D.bytes D.images self.now.store }
        ensures are_true { AreTrue self.now.store.records }
        ensures settled { AllStand (commits_of self.now.store.records) self.now.tickets.settled }
        ensures leading { AllByRecursion Leads self.now.tickets.settled }
        ensures few { length self.now.tickets.waiting ≤ MAX_WAITING }
    {
        self.store.stands();
        self.tickets.stands();
        let _ = &self.kept;
    }

    /// The place of the closed gate after the acknowledged entries.
    pub fn gate(&self) -> u64
        ensures { result ≡ self.now.store.journal.gate }
    {
        self.store.gate()
    }

    /// How often the disk has failed.
    pub fn faults(&self) -> u64
        ensures { result ≡ D.faults self.now.store.journal.disk }
    {
        self.store.faults()
    }

    /// The disk, as it is.
    pub fn into_disk(self) -> D
        ensures { result ≡ self.store.journal.disk }
    {
        self.store.into_disk()
    }

    /// What the calendar answers of a commitment.
    pub fn ask(&self, commitment: &[u8]) -> Result<Answer, OutOfMemory>
        ensures { IfOk result (λ a. a ≡ answer self.now.store.records commitment.now) }
    {
        self.prepare(commitment)?.answer()
    }

    /// The same, before the commitments beside it are hashed: the answer itself can be made when the book is
    /// free.
    pub fn prepare(&self, commitment: &[u8]) -> Result<Prepared, OutOfMemory>
        ensures { IfOk result (λ a. a ≡ answer self.now.store.records commitment.now) }
    {
        self.store.stands();
        prepare_by(self.alloc, &self.store, &self.kept, commitment)
    }

    /// How many tickets wait.
    pub fn waiting(&self) -> u64
        ensures { result ≡ length self.now.tickets.waiting }
    {
        self.tickets.waiting()
    }

    /// A digest waits for a round, under a number that no other ticket has. `Busy` comes exactly
    /// where 65,536 tickets wait. Where it is refused, the book is as before.
    pub fn put(&mut self, leaf: Leaf, nonce: [u8; 16]) -> Result<Ticket, PutError>
        ensures store { self.new.store ≡ self.old.store }
        ensures ticket { IfOk result (λ t. (t.leaf ≡ leaf) × (t.nonce ≡ nonce)) }
        ensures number { IfOk result (λ t. IsNew t.number self.old.tickets) }
        ensures waits { IfOk result (λ t. self.new.tickets.waiting ≡ self.old.tickets.waiting ++ t ∷ []) }
        ensures settled { self.new.tickets.settled ≡ self.old.tickets.settled }
        ensures err { OnErr result (self.new.tickets.waiting ≡ self.old.tickets.waiting) }
        ensures busy { result ≡ Err PutError.Busy → MAX_WAITING ≤ length self.old.tickets.waiting }
        ensures full { MAX_WAITING ≤ length self.old.tickets.waiting → result ≡ Err PutError.Busy }
    {
        self.tickets.put(leaf, nonce)
    }

    /// The tree of a ticket whose round is closed, from its digest to a pending attestation of this
    /// URI, and its receipt: the ticket is then gone. Or whether it waits. Where memory ran out, the
    /// book is as before.
    pub fn take(&mut self, ticket: &Ticket, uri: &Uri) -> Result<Taken, OutOfMemory>
        ensures store { self.new.store ≡ self.old.store }
        ensures takes { IfOk result (Takes ticket.now uri.now self.old.tickets self.new.tickets) }
        ensures gives { IfOk result (λ taken. IfSettled taken (Gives self.new.store.records ticket.now uri.now)) }
        ensures err { OnErr result (self.new.tickets ≡ self.old.tickets) }
    {
        self.store.stands();
        self.tickets.take(ticket, uri)
    }

    /// Gives a ticket up: whether it waited or its round was closed, and it is then gone.
    pub fn withdraw(&mut self, ticket: &Ticket) -> bool
        ensures store { self.new.store ≡ self.old.store }
        ensures withdraws { Withdraws ticket.now self.old.tickets self.new.tickets result }
    {
        self.tickets.withdraw(ticket)
    }

    /// Closes the round of all tickets that wait, at this Unix second: one commitment over them is
    /// stored, they are settled, and its index is answered. `None` comes exactly where nothing
    /// waits, and the disk is not called then. Where it is refused, every ticket waits as before.
    ///
    /// It takes all its memory, that of the round, one hash a ticket and the paths of all, and that
    /// of the commitment, before it calls the disk: `OutOfMemory` comes only before that.
    pub fn close(&mut self, second: u32, key: &Key) -> Result<Option<u64>, AppendError>
        ensures closes { Closes D.bytes D.clock D.images_since key.now second self.old self.new result }
        ensures untouched { result ≡ Err AppendError.OutOfMemory
            → self.new.store.journal.disk ≡ self.old.store.journal.disk }
        ensures grows { Grows self.old.store.journal self.new.store.journal }
        ensures waiting { IfOk result (λ _. self.new.tickets.waiting ≡ []) }
        ensures settled { IfOk result (λ index. IfSome index
            (λ i. self.new.tickets.settled ≡ self.old.tickets.settled
            ++ settles key.now second i self.old.tickets.waiting)) }
        ensures refused { OnErr result ((self.new.tickets.waiting ≡ self.old.tickets.waiting)
            × (self.new.tickets.settled ≡ self.old.tickets.settled)) }
        ensures index { IfOk result (λ index. IfSome index (λ i. i + 1 ≡ length (commits_of self.new.store.records))) }
        ensures records { self.new.store.records ≡ records_of self.new.store.journal.entries }
        ensures acknowledged { IfOk result (λ index. IfSome index (λ _. (c : List ℕ)
            → D.images self.new.store.journal.disk c → Stands c self.new.store.journal.entries)) }
        ensures readable { LeavesOnly D.clock D.images_since self.old.store.journal.disk self.new.store.journal.disk
            StandsForBook }
        ensures cause { HasCauseWhere (result ≡ Err AppendError.DiskFault) (D.faults self.old.store.journal.disk)
            (D.faults self.new.store.journal.disk) }
        ensures within { StaysWithin D.clock D.images_since self.old.store.journal self.new.store.journal }
    {
        let closed = self.close_round(second, key);
        self.catch_up();
        closed
    }

    /// The tip from the first commitment that no anchor covers to the last one. It is stored where
    /// none over these commitments is. `NothingNew` comes exactly where every commitment is covered.
    ///
    /// It takes all its memory before it calls the disk: `OutOfMemory` comes only before that.
    pub fn tip(&mut self) -> Result<Tip, TipError>
        ensures asks { AsksTip D.bytes D.clock D.images_since self.old.store.journal self.new.store.journal result }
        ensures untouched { result ≡ Err TipError.OutOfMemory
            → self.new.store.journal.disk ≡ self.old.store.journal.disk }
        ensures grows { Grows self.old.store.journal self.new.store.journal }
        ensures tickets { self.new.tickets ≡ self.old.tickets }
        ensures records { self.new.store.records ≡ records_of self.new.store.journal.entries }
        ensures acknowledged { OnOk result ((c : List ℕ) → D.images self.new.store.journal.disk c
            → Stands c self.new.store.journal.entries) }
        ensures readable { LeavesOnly D.clock D.images_since self.old.store.journal.disk self.new.store.journal.disk
            StandsForBook }
        ensures cause { HasCauseWhere (result ≡ Err TipError.DiskFault) (D.faults self.old.store.journal.disk)
            (D.faults self.new.store.journal.disk) }
        ensures within { StaysWithin D.clock D.images_since self.old.store.journal self.new.store.journal }
    {
        match self.find_tip()? {
            None => Err(TipError::NothingNew),
            Some(tip) => {
                self.store_tip(&tip)?;
                Ok(tip)
            }
        }
    }

    /// Anchors a tip in a block at this height. Of the transactions that have at most `MAX_MESSAGE`
    /// bytes without their witness and in them the root of a stored tip that reaches past what is
    /// covered, the first is taken, and in it the first such root; of tips with one root the last.
    ///
    /// `BadRoot` comes exactly where the block's header has another root than its transactions, and
    /// before all others. `NoTip` comes exactly where no transaction has such a root in it, and
    /// `TransactionTooLong` exactly where only longer ones do.
    ///
    /// Where memory runs out, the disk has made no call but those of a refresh, and none where it
    /// was known that nothing is in flight.
    pub fn anchor(&mut self, block: &Block, height: u64) -> Result<Anchor, AnchorError>
        requires height { height < 2 ^ 63 }
        requires some { 1 ≤ length block.now.transactions }
        requires most { length block.now.transactions ≤ MAX_COMPACT }
        ensures asks { AsksAnchor D.bytes D.clock D.images_since block.now height self.old.store.journal
            self.new.store.journal result }
        ensures untouched { self.old.store.journal.is_sure ≡ true → result ≡ Err AnchorError.OutOfMemory
            → self.new.store.journal.disk ≡ self.old.store.journal.disk }
        ensures only_refreshed { result ≡ Err AnchorError.OutOfMemory
            → OnlyRefreshed D.bytes self.old.store.journal self.new.store.journal }
        ensures grows { Grows self.old.store.journal self.new.store.journal }
        ensures tickets { self.new.tickets ≡ self.old.tickets }
        ensures records { self.new.store.records ≡ records_of self.new.store.journal.entries }
        ensures acknowledged { OnOk result ((c : List ℕ) → D.images self.new.store.journal.disk c
            → Stands c self.new.store.journal.entries) }
        ensures readable { LeavesOnly D.clock D.images_since self.old.store.journal.disk self.new.store.journal.disk
            StandsForBook }
        ensures cause { HasCauseWhere (result ≡ Err AnchorError.DiskFault) (D.faults self.old.store.journal.disk)
            (D.faults self.new.store.journal.disk) }
        ensures within { StaysWithin D.clock D.images_since self.old.store.journal self.new.store.journal }
    {
        self.start();
        let ids = ids_of(self.alloc, block)?;
        check_root(self.alloc, block, &ids)?;
        let anchored = self.anchor_in(block, &ids, height);
        self.catch_up();
        anchored
    }

    /// Anchors a tip in a block whose root is good.
    fn anchor_in(
        &mut self,
        block: &Block,
        ids: &[[u8; 32]],
        height: u64,
    ) -> Result<Anchor, AnchorError>
        requires ids { ids.now ≡ txids block.now }
        requires most { length ids.now < 2 ^ 32 }
        requires root { block.now.header.root ≡ block_root (txids block.now) }
        requires height { height < 2 ^ 63 }
        ensures asks { AnchorsIn D.bytes D.clock D.images_since block.now height self.old.store.journal
            self.new.store.journal result }
        ensures tickets { self.new.tickets ≡ self.old.tickets }
        ensures records { self.new.store.records ≡ records_of self.new.store.journal.entries }
        ensures acknowledged { OnOk result ((c : List ℕ) → D.images self.new.store.journal.disk c
            → Stands c self.new.store.journal.entries) }
        ensures readable { LeavesOnly D.clock D.images_since self.old.store.journal.disk self.new.store.journal.disk
            StandsForBook }
        ensures cause { HasCauseWhere (result ≡ Err AnchorError.DiskFault) (D.faults self.old.store.journal.disk)
            (D.faults self.new.store.journal.disk) }
        ensures within { StaysWithin D.clock D.images_since self.old.store.journal self.new.store.journal }
    {
        self.refresh()?;
        let anchor = self.find_anchor(block, ids, height)?;
        self.store_anchor(&anchor)?;
        Ok(anchor)
    }

    /// What stands before a call does anything.
    fn start(&mut self)
        ensures same { self.new ≡ self.old }
        ensures records { self.new.store.records ≡ records_of self.new.store.journal.entries }
        ensures readable { LeavesOnly D.clock D.images_since self.old.store.journal.disk self.new.store.journal.disk
            StandsForBook }
        ensures within { StaysWithin D.clock D.images_since self.old.store.journal self.new.store.journal }
    {
        self.store.stands();
    }

    /// Closes the round of all tickets that wait.
    fn close_round(&mut self, second: u32, key: &Key) -> Result<Option<u64>, AppendError>
        ensures closes { Closes D.bytes D.clock D.images_since key.now second self.old self.new result }
        ensures index { IfOk result (λ index. IfSome index (λ i. i + 1 ≡ length (commits_of self.new.store.records))) }
        ensures records { self.new.store.records ≡ records_of self.new.store.journal.entries }
        ensures acknowledged { IfOk result (λ index. IfSome index (λ _. (c : List ℕ)
            → D.images self.new.store.journal.disk c → Stands c self.new.store.journal.entries)) }
        ensures readable { LeavesOnly D.clock D.images_since self.old.store.journal.disk self.new.store.journal.disk
            StandsForBook }
        ensures cause { HasCauseWhere (result ≡ Err AppendError.DiskFault) (D.faults self.old.store.journal.disk)
            (D.faults self.new.store.journal.disk) }
        ensures within { StaysWithin D.clock D.images_since self.old.store.journal self.new.store.journal }
    {
        self.start();
        match self.tickets.ready(second, key) {
            Ok(None) => Ok(None),
            Ok(Some(made)) => {
                let index = self.add_commit(&made.commitment)?;
                self.tickets.settle(made, index);
                Ok(Some(index))
            }
            Err(_) => Err(AppendError::OutOfMemory),
        }
    }

    /// Adds a commitment.
    fn add_commit(&mut self, commitment: &[u8; 44]) -> Result<u64, AppendError>
        ensures adds { Adds D.bytes D.clock D.images_since self.old.store.journal self.new.store.journal
            (entry_of (CommitRecord commitment.now) ∷ []) result }
        ensures tickets { self.new.tickets ≡ self.old.tickets }
        ensures index { IfOk result (λ i. i + 1 ≡ length (commits_of self.new.store.records)) }
        ensures records { self.new.store.records ≡ records_of self.new.store.journal.entries }
        ensures acknowledged { OnOk result ((c : List ℕ) → D.images self.new.store.journal.disk c
            → Stands c self.new.store.journal.entries) }
        ensures readable { LeavesOnly D.clock D.images_since self.old.store.journal.disk self.new.store.journal.disk
            StandsForBook }
        ensures cause { HasCauseWhere (IsErrOf result AppendError.DiskFault) (D.faults self.old.store.journal.disk)
            (D.faults self.new.store.journal.disk) }
        ensures within { StaysWithin D.clock D.images_since self.old.store.journal self.new.store.journal }
    {
        self.store.stands();
        self.store.add_commit(commitment)
    }

    /// Finds out whether the record in flight is kept.
    fn refresh(&mut self) -> Result<(), DiskFault>
        ensures ok { OnOk result (Refreshed D.bytes self.old.store.journal self.new.store.journal) }
        ensures err { OnErr result (Unrefreshed D.bytes self.old.store.journal self.new.store.journal) }
        ensures any_moment { LeavesOnly D.clock D.images_since self.old.store.journal.disk self.new.store.journal.disk
            (StandsForEither self.old.store.journal.entries self.old.store.journal.flight) }
        ensures readable { LeavesOnly D.clock D.images_since self.old.store.journal.disk self.new.store.journal.disk
            StandsForBook }
        ensures tickets { self.new.tickets ≡ self.old.tickets }
        ensures records { self.new.store.records ≡ records_of self.new.store.journal.entries }
        ensures cause { HasCause (D.faults self.old.store.journal.disk) (D.faults self.new.store.journal.disk) result }
        ensures within { StaysWithin D.clock D.images_since self.old.store.journal self.new.store.journal }
    {
        self.store.stands();
        self.store.refresh()
    }

    /// Takes the memory for a tip, refreshes, and finds the next tip, where there is one.
    fn find_tip(&mut self) -> Result<Option<Tip>, TipError>
        ensures finds { FindsTip D.bytes D.clock D.images_since self.old.store.journal self.new.store.journal result }
        ensures sure { OnOk result (self.new.store.journal.is_sure ≡ true) }
        ensures spare { OnOk result (0 < self.new.store.spare) }
        ensures next { IfOk result (λ next. MatchOption next (AllCovered self.new.store.records)
            (IsNextTip self.new.store.records)) }
        ensures fits { IfOk result (λ next. IfSome next FitsTip) }
        ensures tickets { self.new.tickets ≡ self.old.tickets }
        ensures records { self.new.store.records ≡ records_of self.new.store.journal.entries }
        ensures readable { LeavesOnly D.clock D.images_since self.old.store.journal.disk self.new.store.journal.disk
            StandsForBook }
        ensures cause { HasCauseWhere (result ≡ Err TipError.DiskFault) (D.faults self.old.store.journal.disk)
            (D.faults self.new.store.journal.disk) }
        ensures within { StaysWithin D.clock D.images_since self.old.store.journal self.new.store.journal }
    {
        self.store.stands();
        find_tip(self.alloc, &mut self.store, &mut self.kept)
    }

    /// Takes into the trees what they lack. Where memory runs out, the next tip hashes what no anchor
    /// covers, and each answer what its anchor covers.
    fn catch_up(&mut self)
        ensures { self.new ≡ self.old }
    {
        self.store.stands();
        catch_up(&mut self.kept, &self.store);
    }

    /// Stores the next tip where none over the same commitments is.
    fn store_tip(&mut self, tip: &Tip) -> Result<(), AppendError>
        requires sure { self.old.store.journal.is_sure ≡ true }
        requires next { IsNextTip self.old.store.records tip.now }
        requires fits { FitsTip tip.now }
        ensures stores { StoresTip D.clock D.images_since tip.now self.old.store.journal self.new.store.journal result }
        ensures not_refused { 0 < self.old.store.spare → result ≡ Err AppendError.OutOfMemory → ⊥ }
        ensures tickets { self.new.tickets ≡ self.old.tickets }
        ensures records { self.new.store.records ≡ records_of self.new.store.journal.entries }
        ensures acknowledged { OnOk result ((c : List ℕ) → D.images self.new.store.journal.disk c
            → Stands c self.new.store.journal.entries) }
        ensures readable { LeavesOnly D.clock D.images_since self.old.store.journal.disk self.new.store.journal.disk
            StandsForBook }
        ensures cause { HasCauseWhere (result ≡ Err AppendError.DiskFault) (D.faults self.old.store.journal.disk)
            (D.faults self.new.store.journal.disk) }
        ensures within { StaysWithin D.clock D.images_since self.old.store.journal self.new.store.journal }
    {
        self.store.stands();
        if has_tip(self.store.tips(), tip) {
            return Ok(());
        }
        self.store.add_tip(tip)
    }

    /// The anchor of the open tip whose root a block holds first.
    fn find_anchor(
        &self,
        block: &Block,
        ids: &[[u8; 32]],
        height: u64,
    ) -> Result<Anchor, AnchorError>
        requires ids { ids.now ≡ txids block.now }
        requires most { length ids.now < 2 ^ 32 }
        requires root { block.now.header.root ≡ block_root (txids block.now) }
        requires height { height < 2 ^ 63 }
        ensures found { IfOk result (FindsAnchor self.now.store.records block.now height) }
        ensures none { IfErr result (FindsNone self.now.store.records block.now) }
        ensures may_stand { IfOk result (MayStand self.now.store.records) }
    {
        self.store.stands();
        let _ = &self.kept;
        find_anchor(self.alloc, &self.store, block, ids, height)
    }

    /// Stores an anchor.
    fn store_anchor(&mut self, anchor: &Anchor) -> Result<(), AppendError>
        requires sure { self.old.store.journal.is_sure ≡ true }
        requires may_stand { MayStand self.old.store.records anchor.now }
        ensures added { Added D.clock D.images_since self.old.store.journal self.new.store.journal
            (entry_of (AnchorRecord anchor.now) ∷ []) result }
        ensures tickets { self.new.tickets ≡ self.old.tickets }
        ensures records { self.new.store.records ≡ records_of self.new.store.journal.entries }
        ensures acknowledged { OnOk result ((c : List ℕ) → D.images self.new.store.journal.disk c
            → Stands c self.new.store.journal.entries) }
        ensures readable { LeavesOnly D.clock D.images_since self.old.store.journal.disk self.new.store.journal.disk
            StandsForBook }
        ensures cause { HasCauseWhere (result ≡ Err AppendError.DiskFault) (D.faults self.old.store.journal.disk)
            (D.faults self.new.store.journal.disk) }
        ensures within { StaysWithin D.clock D.images_since self.old.store.journal self.new.store.journal }
    {
        self.store.stands();
        self.store.add_anchor(anchor)
    }
}

/// Takes the memory for a tip, refreshes, and finds the next tip, where there is one.
fn find_tip<D: Disk>(
    alloc: Global,
    store: &mut Store<D>,
    trees: &mut Trees,
) -> Result<Option<Tip>, TipError>
    requires kept { AreKept (commits_of store.old.records) trees.old }
    requires records { store.old.records ≡ records_of store.old.journal.entries }
    ensures finds { FindsTip D.bytes D.clock D.images_since store.old.journal store.new.journal result }
    ensures kept { AreKept (commits_of store.new.records) trees.new }
    ensures sure { OnOk result (store.new.journal.is_sure ≡ true) }
    ensures spare { OnOk result (0 < store.new.spare) }
    ensures next { IfOk result (λ next. MatchOption next (AllCovered store.new.records) (IsNextTip store.new.records)) }
    ensures fits { IfOk result (λ next. IfSome next FitsTip) }
    ensures records { store.new.records ≡ records_of store.new.journal.entries }
    ensures cause { HasCauseWhere (result ≡ Err TipError.DiskFault) (D.faults store.old.journal.disk)
        (D.faults store.new.journal.disk) }
    ensures within { StaysWithin D.clock D.images_since store.old.journal store.new.journal }
{
    store.stands();
    let peaks = room_for_all(alloc)?;
    store.reserve()?;
    store.refresh()?;
    Ok(next_tip(store, trees, peaks))
}

/// The next tip, where there is one. It can do without more memory than the peaks have.
fn next_tip<D: Disk>(store: &Store<D>, trees: &mut Trees, peaks: Peaks) -> Option<Tip>
    requires kept { AreKept (commits_of store.now.records) trees.old }
    requires empty { peaks.leaves ≡ [] }
    requires room { 2 ^ 32 ≤ peaks.spare }
    ensures kept { AreKept (commits_of store.now.records) trees.new }
    ensures next { MatchOption result (AllCovered store.now.records) (IsNextTip store.now.records) }
    ensures fits { IfSome result FitsTip }
{
    store.stands();
    let first = store.covered();
    let count = store.commits() - first;
    if count == 0 {
        return None;
    }
    let commitments = store.commitments();
    trees.keep_newest(commitments, first as usize, commitments.len());
    let root = trees.root_to_end(commitments, first as usize, count as usize, peaks);
    Some(Tip { first, count, root })
}

/// Whether one of the tips is over the same commitments.
fn has_tip(tips: &[Tip], tip: &Tip) -> bool
    ensures yes { result ≡ true → HasSpan tip.now.first tip.now.count tips.now }
    ensures no { result ≡ false → HasSpan tip.now.first tip.now.count tips.now → ⊥ }
{
    for stored in tips {
        if is_same_span(stored, tip) {
            return true;
        }
    }
    false
}

/// Whether two tips are over the same commitments.
fn is_same_span(first: &Tip, second: &Tip) -> bool
    ensures yes { result ≡ true → (first.now.first ≡ second.now.first) × (first.now.count ≡ second.now.count) }
    ensures no { result ≡ false → first.now.first ≡ second.now.first → first.now.count ≡ second.now.count → ⊥ }
{
    first.first == second.first && first.count == second.count
}
