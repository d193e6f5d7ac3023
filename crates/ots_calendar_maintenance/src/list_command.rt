//! The command `list`.
ghost use Rattle.std.specs.Prelude.{◌≡◌, ◌≤◌, length};
ghost use Rattle.ots_base.specs.Cause.{Rose};
ghost use Rattle.ots_printer.specs.Printing.{Puts};
ghost use Rattle.ots_store.specs.Order.{records_of};
ghost use Rattle.ots_store.specs.Records.{IsRecord, number, record_of};
ghost use Rattle.ots_calendar_maintenance.specs.List.{list_meaning, list_text, record_line};
ghost use Rattle.ots_calendar_endings.specs.Printed.{PrintsLast};
ghost use Rattle.ots_calendar_endings.specs.Ran.{Ran};
ghost use Rattle.ots_calendar_text.specs.declared.status.DaemonStatus.TheVariants.{Done};
ghost use Rattle.ots_outputs.specs.Printed.{SinkStays};

use ots_calendar_endings::{DaemonStatus, Outside, open_book, print_last, refuse};
use ots_calendar_text::{put_anchor, put_commit, put_tip};
use ots_disk::Disk;
use ots_outputs::PrintedText;
use ots_outside::Sink;
use ots_printer::Printer;
use ots_store::Store;
use std::alloc::Global;

/// The kinds of a commitment's and of a tip's entry. The third is an anchor's.
const COMMIT: u8 = 1;

const TIP: u8 = 2;

/// Opens the book on a disk, and prints a line for each record, in their order.
pub fn list<D: Disk, K: Sink>(alloc: Global, disk: D, out: &mut K) -> (DaemonStatus, D)
    ensures ran { Ran list_meaning (⟦<(D, K) as Outside>⟧.told (disk, out.old))
        (⟦<(D, K) as Outside>⟧.told (result.1, out.new)) result.0 }
    ensures same { K.same out.old out.new }
{
    match open_book(alloc, disk) {
        Ok(book) => {
            let status = print_records(book.store(), out);
            (status, book.into_disk())
        }
        Err(closed) => {
            let status = refuse("", closed.why, out);
            (status, closed.disk)
        }
    }
}

/// Prints a line for each record of a store, in their order.
fn print_records<D: Disk, K: Sink>(store: &Store<D>, out: &mut K) -> DaemonStatus
    ensures printed { PrintsLast (Rose (K.faults out.old) (K.faults out.new)) Done
        (list_text (records_of store.now.journal.entries)) (K.taken out.old) (K.taken out.new)
        result }
    ensures sink { SinkStays K.faults K.same out.old out.new }
{
    print_last(&RecordLines { store }, DaemonStatus::Done, out)
}

/// A line for each record of a store.
#[derive(Drop)]
struct RecordLines<'a, D: Disk> {
    store: &'a Store<D>,
}

impl<D: Disk> PrintedText for RecordLines<'_, D> {
    ghost use Rattle.std.specs.Prelude.{◌≡◌};
    ghost use Rattle.ots_store.specs.Order.{records_of};
    ghost use Rattle.ots_calendar_maintenance.specs.List.{list_text};

    ghost is_text = { λ l bytes. bytes ≡ list_text (records_of l.store.now.journal.entries) };

    fn put<K: Sink>(&self, out: &mut Printer<'_, K>) {
        put_lines(self.store, out);
    }
}

/// Puts a line for each record.
fn put_lines<D: Disk, K: Sink>(store: &Store<D>, out: &mut Printer<'_, K>)
    ensures { Puts K.taken K.faults K.same (list_text (records_of store.now.journal.entries))
        out.old out.new }
{
    store.stands();
    let mut commits = 0;
    for i in 0..store.entries() {
        let (kind, payload) = store.entry(i);
        put_record(commits, kind, payload, out);
        if kind == COMMIT {
            commits += 1;
        }
    }
}

/// Puts the line of a record that stands after `commits` commitments.
fn put_record<K: Sink>(commits: u64, kind: u8, payload: &[u8], out: &mut Printer<'_, K>)
    requires { IsRecord (record { kind = kind; payload = payload.now }) }
    ensures { Puts K.taken K.faults K.same
        (record_line commits (record_of (record { kind = kind; payload = payload.now }))) out.old
        out.new }
{
    if kind == COMMIT {
        put_commit(commits, payload, out);
    } else if kind == TIP {
        put_tip(number(payload), number(&payload[8..]), &payload[16..], out);
    } else {
        put_anchor(
            number(payload),
            number(&payload[8..]),
            number(&payload[16..]),
            &payload[24..56],
            out,
        );
    }
}

/// The number at the start, eight bytes, the high one first.
fn number(bytes: &[u8]) -> u64
    requires { 8 ≤ length bytes.now }
    ensures { result ≡ number bytes.now }
{
    let [a, b, c, d, e, f, g, h, ..] = bytes else {
        return 0;
    };
    u64::from_be_bytes([*a, *b, *c, *d, *e, *f, *g, *h])
}
