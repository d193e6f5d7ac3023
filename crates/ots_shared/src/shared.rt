ghost use Rattle.std.specs.Prelude.{◌≡◌, ◌+◌, ◌-◌, ◌^◌, ◌<◌, ◌≤◌, [], ◌∷◌, ◌++◌, length, min, max, ◌⊎◌, false, IfOk};
ghost use Rattle.std.specs.Prelude.{IfErr};
ghost use Rattle.ots_shared.specs.Records.{StartsWith};
ghost use Rattle.ots_shared.specs.Rows.{latest, row};
ghost use Rattle.ots_shared.specs.Told.{IsPassOf, IsHeldOf, IsTakenWith};
ghost use Rattle.ots_shared.specs.declared.limits.TheConstants.{MAX_CALLERS};

use crate::bells::Bells;
use crate::held::Held;
use crate::pass::Pass;
use crate::plays::Cut;
use crate::row::{Numbers, Row, Rows, count_records};
use crate::rule::{Board, Place, Terms};
use crate::steps::{count, give, glue, hold_place, take_back};
use atomic_table::{Refused, Table};
use ots_calendar::Book;
use ots_disk::Disk;
use std::alloc::Global;
use std::marker::Model;
use std::snapshot::Snapshot;
use std::sync::{Mutex, MutexGuard, Wait};

/// A book among callers.
///
/// Contracts see how many callers it is for, and the limit of the book's journal.
pub struct Shared<D: Disk> {
    table: Board<D>,
    bells: Bells,
    askers: Mutex<()>,
}

impl<D: Disk> Model for Shared<D> {
    ghost use Rattle.std.specs.Prelude.{◌≡◌};
    ghost use Rattle.ots_shared.specs.Told.{SharedTold};

    ghost Value = { SharedTold };

    ghost view = { λ s. record {
      table = s.table.shared.table_id;
      callers = s.table.shared.key.callers;
      limit = s.table.shared.key.book.value.store.journal.limit;
    } };

    ghost invariant = { λ s. (s.table.shared.table_id.words ≡ 3) × (s.table.shared.table_id.slots ≡ 1) };
}

/// A book that was not shared, since memory ran out.
#[derive(Drop)]
pub struct RefusedShared<D: Disk> {
    pub book: Book<D>,
}

impl<D: Disk> Shared<D> {
    /// Shares a book among `callers` callers, 1 to 65. The pass stands for all of them, and has seen
    /// the book's records.
    pub fn open(
        alloc: Global,
        book: Book<D>,
        callers: u32,
    ) -> Result<(Shared<D>, Pass), RefusedShared<D>>
        requires some { 0 < callers }
        requires most { callers ≤ MAX_CALLERS }
        ensures callers { IfOk result (λ r. r.0.callers ≡ callers) }
        ensures limit { IfOk result (λ r. r.0.limit ≡ book.store.journal.limit) }
        ensures own { IfOk result (λ r. IsPassOf r.0 r.1) }
        ensures share { IfOk result (λ r. r.1.seat.share ≡ callers) }
        ensures seen { IfOk result (λ r. r.1.seen ≡ book.store.records) }
        ensures new { IfOk result (λ r. (r.1.told ≡ 0) × (r.1.holding ≡ false) × (r.1.holds ≡ []) × (r.1.made ≡ 0)) }
        ensures err { IfErr result (λ r. r.book ≡ book) }
    {
        let records = count_records(&book);
        let terms = Terms {
            callers: u64::from(callers),
            book: Snapshot::of(&book),
        };
        let mut slots = Vec::new(alloc);
        if slots.reserve(1).is_err() {
            slots.destroy_empty();
            return Err(RefusedShared { book });
        }
        slots.push_reserved(Some(book));
        match Table::new(alloc, &[0, 0, records], slots, &terms) {
            Ok((table, place)) => {
                let shared = Shared {
                    table,
                    bells: Bells::new(),
                    askers: Mutex::new(()),
                };
                Ok((shared, Pass::of(place, Rows::none(), 0)))
            }
            Err(Refused { mut slots }) => {
                let Some(Some(book)) = slots.pop() else {
                    unreachable!()
                };
                slots.destroy_empty();
                Err(RefusedShared { book })
            }
        }
    }

    /// Cuts a pass in two. The first is new and stands for one caller, the second is the given one
    /// and stands for one less. Both have seen and were told what the given one had.
    pub fn split(&self, pass: Pass) -> (Pass, Pass)
        requires own { IsPassOf self.now pass }
        requires free { pass.holding ≡ false }
        requires share { 2 ≤ pass.seat.share }
        ensures own { IsPassOf self.now result.0 × IsPassOf self.now result.1 }
        ensures share { (result.0.seat.share ≡ 1) × (result.1.seat.share + 1 ≡ pass.seat.share) }
        ensures seen { (result.0.seen ≡ pass.seen) × (result.1.seen ≡ pass.seen) }
        ensures told { (result.0.told ≡ pass.told) × (result.1.told ≡ pass.told) }
        ensures free { (result.0.holding ≡ false) × (result.1.holding ≡ false) }
        ensures first { (result.0.holds ≡ []) × (result.0.made ≡ 0) }
        ensures second { (result.1.holds ≡ pass.holds) × (result.1.made ≡ pass.made) }
    {
        let mut pass = pass;
        let mut place: Place<D> = pass.rise();
        let other = self.table.shared.split_seat::<Cut>(&mut place);
        pass.sit(place);
        (Pass::of(other, Rows::none(), 0), pass)
    }

    /// Makes two passes one, which stands for the callers of both and has seen the longer of their
    /// lists. The rows are those of the first.
    pub fn join(&self, first: Pass, second: Pass) -> Pass
        requires own { IsPassOf self.now first × IsPassOf self.now second }
        requires free { (first.holding ≡ false) × (second.holding ≡ false) }
        ensures own { IsPassOf self.now result }
        ensures share { result.seat.share ≡ first.seat.share + second.seat.share }
        ensures seen { StartsWith result.seen first.seen × StartsWith result.seen second.seen }
        ensures longer { (result.seen ≡ first.seen) ⊎ (result.seen ≡ second.seen) }
        ensures told { result.told ≡ max first.told second.told }
        ensures rest { (result.holding ≡ false) × (result.holds ≡ first.holds) × (result.made ≡ first.made) }
    {
        let mut pass = first;
        let mut second = second;
        let mut place: Place<D> = pass.rise();
        glue(&self.table.shared, &mut place, second.rise());
        pass.sit(place);
        pass
    }

    /// Lets each of two passes see what the other has seen: both have seen the longer of their lists then, and were
    /// told the greater of their counts. It waits for nobody.
    pub fn share_seen(&self, first: &mut Pass, second: &mut Pass)
        requires own { IsPassOf self.now first.old × IsPassOf self.now second.old }
        requires free { (first.old.holding ≡ false) × (second.old.holding ≡ false) }
        requires one { second.old.seat.share ≡ 1 }
        ensures seat { (first.new.seat ≡ first.old.seat) × (second.new.seat ≡ second.old.seat) }
        ensures free { (first.new.holding ≡ false) × (second.new.holding ≡ false) }
        ensures seen { StartsWith first.new.seen first.old.seen × StartsWith first.new.seen second.old.seen
            × (second.new.seen ≡ first.new.seen) }
        ensures longer { (first.new.seen ≡ first.old.seen) ⊎ (first.new.seen ≡ second.old.seen) }
        ensures told { (first.new.told ≡ max first.old.told second.old.told) × (second.new.told ≡ first.new.told) }
        ensures first { (first.new.holds ≡ first.old.holds) × (first.new.made ≡ first.old.made) }
        ensures second { (second.new.holds ≡ second.old.holds) × (second.new.made ≡ second.old.made) }
    {
        let mut place: Place<D> = first.rise();
        glue(&self.table.shared, &mut place, second.rise());
        let other = self.table.shared.split_seat::<Cut>(&mut place);
        first.sit(place);
        second.sit(other);
    }

    /// Waits for a turn among the callers that only ask. Whoever holds the book for a few microseconds takes one before
    /// `hold`, and lets go of it after `release`.
    ///
    /// Numbers are served in order, so a caller that sleeps has to be woken before any behind it goes on, and where many
    /// ask at once each of them would sleep. With turns at most one of those that ask has a number, and whoever
    /// runs first takes the next turn. It says nothing of the book: `hold` alone hands it out.
    pub fn turn_to_ask<R: Wait>(&self, rt: &R) -> MutexGuard<'_, ()> {
        self.askers.lock(rt)
    }

    /// Waits for this caller's turn, and hands out the book. It begins with the records that the
    /// pass has seen, and has no fewer than it was told.
    pub fn hold<R: Wait>(&self, rt: &R, pass: &mut Pass) -> Held<D>
        requires own { IsPassOf self.now pass.old }
        requires free { pass.old.holding ≡ false }
        ensures taken { IsTakenWith pass.new result }
        ensures rest { (pass.new.holds ≡ pass.old.holds) × (pass.new.made ≡ pass.old.made) }
        ensures own { IsHeldOf self.now result }
        ensures seat { (result.seat ≡ pass.old.seat) × (result.seen ≡ pass.old.seen) × (result.told ≡ pass.old.told) }
        ensures seen { StartsWith result.book.store.records pass.old.seen }
        ensures told { pass.old.told ≤ length result.book.store.records }
        ensures limit { result.book.store.journal.limit ≡ self.now.limit }
        ensures found { result.found ≡ result.book }
    {
        let mut place = pass.rise();
        let (book, number) = hold_place(rt, &self.table.shared, &self.bells, &mut place);
        pass.number = number;
        let numbers = Numbers::of(&book);
        let found = Snapshot::of(&book);
        Held {
            book,
            place,
            number,
            numbers,
            found,
        }
    }

    /// Takes the book back, and serves the caller whose turn is next. It waits for nobody.
    pub fn release(&self, pass: &mut Pass, held: Held<D>)
        requires own { IsHeldOf self.now held }
        requires taken { IsTakenWith pass.old held }
        requires records { StartsWith held.book.store.records held.found.store.records }
        requires limit { held.book.store.journal.limit ≡ held.found.store.journal.limit }
        ensures own { IsPassOf self.now pass.new }
        ensures seat { (pass.new.seat ≡ held.seat) × (pass.new.holding ≡ false) }
        ensures seen { pass.new.seen ≡ held.book.store.records }
        ensures told { pass.new.told ≡ held.told }
        ensures holds { pass.new.holds ≡ latest (pass.old.holds ++ row D.faults held.found held.book ∷ []) }
        ensures made { pass.new.made ≡ min (pass.old.made + 1) (2 ^ 64 - 1) }
    {
        let Held {
            book,
            mut place,
            number: _,
            numbers,
            found: _,
        } = held;
        let left = Numbers::of(&book);
        give(&self.table.shared, &self.bells, &mut place, book);
        pass.sit(place);
        pass.rows.add(Row::of(numbers, left));
        pass.made = pass.made.saturating_add(1);
    }

    /// How many records there are, at least: as many as were told of last. It is one load of a
    /// word, and waits for nobody. No later hold of this pass finds fewer.
    pub fn acknowledged(&self, pass: &mut Pass) -> u64
        requires own { IsPassOf self.now pass.old }
        requires free { pass.old.holding ≡ false }
        ensures seen { length pass.old.seen ≤ result }
        ensures told { (pass.new.told ≡ result) × (pass.old.told ≤ result) }
        ensures seat { (pass.new.seat ≡ pass.old.seat) × (pass.new.holding ≡ false) }
        ensures rest { (pass.new.seen ≡ pass.old.seen) × (pass.new.holds ≡ pass.old.holds)
            × (pass.new.made ≡ pass.old.made) }
    {
        let mut place: Place<D> = pass.rise();
        let found = count(&self.table.shared, &mut place);
        pass.sit(place);
        found
    }

    /// Hands the book back, once one pass stands for all callers.
    pub fn close(self, pass: Pass) -> Book<D>
        requires own { IsPassOf self pass }
        requires free { pass.holding ≡ false }
        requires whole { pass.seat.share ≡ self.callers }
        ensures seen { StartsWith result.store.records pass.seen }
        ensures told { pass.told ≤ length result.store.records }
        ensures limit { result.store.journal.limit ≡ self.limit }
    {
        let Shared {
            table,
            bells: _,
            askers: _,
        } = self;
        let mut pass = pass;
        take_back(table, pass.rise())
    }
}
