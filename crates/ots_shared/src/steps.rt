//! The atomic steps of a caller, each on its own seat.
ghost use Rattle.std.specs.Prelude.{◌≡◌, ℕ, ◌%◌, ◌^◌, ◌<◌, ◌≤◌, List, [], length, ◌⊎◌, MatchOption};
ghost use Rattle.ots_store.specs.Records.{Record};
ghost use Rattle.ots_shared.specs.Records.{StartsWith};
ghost use Rattle.ots_shared.specs.Steps.{at_stage, released, informed, settled, both, Fits, Holding, IsSameSeat};
ghost use Rattle.ots_shared.specs.Steps.{IsSeatOf, Takes};
ghost use Rattle.ots_shared.specs.declared.view.Stage.TheVariants.{Idle, Waits};

use crate::bells::Bells;
use crate::plays::{Count, Draw, Glue, Look, Publish, Serve, Settle};
use crate::row::count_records;
use crate::rule::{Board, Place, Top};
use ots_calendar::Book;
use ots_disk::Disk;
use std::sync::Wait;

/// The word with the next number to draw.
pub(crate) const DRAWN: usize = 0;

/// The word with the number served.
pub(crate) const SERVED: usize = 1;

/// The word with the count of records.
pub(crate) const COUNT: usize = 2;

/// Draws the next number.
pub(crate) fn draw<D: Disk>(top: &Top<D>, place: &mut Place<D>) -> u64
    requires own { IsSeatOf top.now.table_id place.old }
    requires idle { place.old.me.0.stage ≡ Idle }
    requires share { 0 < place.old.me.0.share }
    ensures same { IsSameSeat place.old place.new }
    ensures drawn { (n : ℕ) × (place.new.me ≡ (at_stage place.old.me.0 (Waits n), place.old.me.1))
        × (result ≡ n % 2 ^ 64) }
{
    top.fetch_add::<Draw>(place, DRAWN, 1)
}

/// Takes the book where the caller's number is served.
pub(crate) fn take<D: Disk>(top: &Top<D>, place: &mut Place<D>, number: u64) -> Option<Book<D>>
    requires own { IsSeatOf top.now.table_id place.old }
    requires drawn { (n : ℕ) × (place.old.me.0.stage ≡ Waits n) × (number ≡ n % 2 ^ 64) }
    requires none { place.old.me.1 ≡ [] }
    ensures same { IsSameSeat place.old place.new }
    ensures taken { MatchOption result (place.new.me ≡ place.old.me) (Takes place.old.me place.new.me) }
{
    let served = top.load::<Look>(place, SERVED);
    if served != number {
        return None;
    }
    match top.exchange(place, 0, None) {
        Some(book) => Some(book),
        None => unreachable!(),
    }
}

/// Draws a number, and sleeps at its bell until it is served.
pub(crate) fn hold_place<D: Disk, R: Wait>(
    rt: &R,
    top: &Top<D>,
    bells: &Bells,
    place: &mut Place<D>,
) -> (Book<D>, u64)
    requires own { IsSeatOf top.now.table_id place.old }
    requires idle { place.old.me.0.stage ≡ Idle }
    requires share { 0 < place.old.me.0.share }
    requires none { place.old.me.1 ≡ [] }
    ensures same { IsSameSeat place.old place.new }
    ensures taken { Takes place.old.me place.new.me result.0 }
{
    let number = draw(top, place);
    for _ in rt.forever() {
        match take(top, place, number) {
            Some(book) => {
                bells.leave(number);
                return (book, number);
            }
            None => bells.wait(rt, number),
        }
    }
    unreachable!()
}

/// Gives the book back: it is in its slot before the others are told of its records, and they are
/// told before the next number is served, whose bell is rung then.
pub(crate) fn give<D: Disk>(top: &Top<D>, bells: &Bells, place: &mut Place<D>, book: Book<D>)
    requires own { IsSeatOf top.now.table_id place.old }
    requires held { (l : List Record) × Holding place.old.me l × StartsWith book.store.records l }
    requires limit { book.store.journal.limit ≡ place.old.me.0.limit }
    ensures same { IsSameSeat place.old place.new }
    ensures given { place.new.me ≡ (released place.old.me.0 book.store.records, []) }
{
    let count = count_records(&book);
    match top.exchange(place, 0, Some(book)) {
        None => {}
        Some(_) => unreachable!(),
    }
    top.store::<Publish>(place, COUNT, count);
    let served = top.fetch_add::<Serve>(place, SERVED, 1);
    bells.ring(served.wrapping_add(1));
}

/// How many records there are, at least.
pub(crate) fn count<D: Disk>(top: &Top<D>, place: &mut Place<D>) -> u64
    requires own { IsSeatOf top.now.table_id place.old }
    requires idle { place.old.me.0.stage ≡ Idle }
    ensures same { IsSameSeat place.old place.new }
    ensures me { place.new.me ≡ (informed place.old.me.0 result, place.old.me.1) }
    ensures told { place.old.me.0.told ≤ result }
    ensures seen { length place.old.me.0.seen ≤ result }
{
    top.load::<Count>(place, COUNT)
}

/// Puts two callers' knowledge together, and finds the longer of their lists.
pub(crate) fn glue<D: Disk>(top: &Top<D>, place: &mut Place<D>, other: Place<D>)
    requires own { IsSeatOf top.now.table_id place.old × IsSeatOf top.now.table_id other }
    requires idle { (place.old.me.0.stage ≡ Idle) × (other.me.0.stage ≡ Idle) }
    requires share { 0 < place.old.me.0.share }
    requires none { other.me.1 ≡ [] }
    ensures same { IsSameSeat place.old place.new }
    ensures glued { (l : List Record) × (place.new.me ≡ (settled (both place.old.me.0 other.me.0) l, place.old.me.1))
        × StartsWith l place.old.me.0.seen × StartsWith l other.me.0.seen
        × ((l ≡ place.old.me.0.seen) ⊎ (l ≡ other.me.0.seen)) }
{
    top.join_seat::<Glue>(place, other);
    top.load::<Settle>(place, COUNT);
}

/// Takes the book out of a table at which one caller stands for all.
pub(crate) fn take_back<D: Disk>(table: Board<D>, place: Place<D>) -> Book<D>
    requires own { place.table_id ≡ table.shared.table_id }
    requires slot { table.shared.table_id.slots ≡ 1 }
    requires idle { place.me.0.stage ≡ Idle }
    requires some { 0 < place.me.0.share }
    requires whole { place.me.0.share ≡ table.shared.key.callers }
    ensures { Fits place.me.0 result }
{
    let mut closed = table.close_with(place);
    let Some(book) = closed.take(0) else {
        unreachable!()
    };
    closed.free();
    book
}
