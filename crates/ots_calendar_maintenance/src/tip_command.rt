//! The command `tip`.
ghost use Rattle.std.specs.Prelude.{◌≡◌, ◌≤◌, true};
ghost use Rattle.ots_disk.specs.Disk.{LeavesOnly};
ghost use Rattle.ots_calendar_endings.specs.Ran.{EndsAs, Ran};
ghost use Rattle.ots_calendar_endings.specs.Moments.{EachStands, StandsWith};
ghost use Rattle.ots_calendar_maintenance.specs.Tip.{AddsTip, TipAnswers, tip_meaning, tip_status};
ghost use Rattle.ots_outputs.specs.Printed.{SinkStays};

use ots_calendar::{Book, TipError};
use ots_calendar_endings::{DaemonStatus, Outside, Text, open_book, print, refuse};
use ots_disk::Disk;
use ots_outside::Sink;
use std::alloc::Global;

/// Opens the book on a disk, stores the next tip, where none over the same commitments is stored, and
/// prints it.
pub fn tip<D: Disk, K: Sink>(alloc: Global, disk: D, out: &mut K) -> (DaemonStatus, D)
    ensures ran { Ran tip_meaning (⟦<(D, K) as Outside>⟧.told (disk, out.old))
        (⟦<(D, K) as Outside>⟧.told (result.1, out.new)) result.0 }
    ensures same { K.same out.old out.new }
{
    match open_book(alloc, disk) {
        Ok(book) => {
            let mut book = book;
            let status = store_tip(&mut book, out);
            (status, book.into_disk())
        }
        Err(closed) => {
            let status = refuse("", closed.why, out);
            (status, closed.disk)
        }
    }
}

/// Stores the next tip of a sure book, where none over the same commitments is stored, and prints
/// it.
fn store_tip<D: Disk, K: Sink>(book: &mut Book<D>, out: &mut K) -> DaemonStatus
    requires sure { book.old.store.journal.is_sure ≡ true }
    requires stands { EachStands (D.images book.old.store.journal.disk)
        book.old.store.journal.entries }
    ensures ends { EndsAs (TipAnswers book.old.store.journal.limit book.old.store.journal.gate
        book.old.store.journal.entries)
        (⟦<(D, K) as Outside>⟧.told (book.old.store.journal.disk, out.old))
        (⟦<(D, K) as Outside>⟧.told (book.new.store.journal.disk, out.new)) result }
    ensures moments { LeavesOnly D.clock D.images_since book.old.store.journal.disk
        book.new.store.journal.disk
        (StandsWith (AddsTip book.old.store.journal.entries) book.old.store.journal.entries) }
    ensures later { D.faults book.old.store.journal.disk ≤ D.faults book.new.store.journal.disk }
    ensures sink { SinkStays K.faults K.same out.old out.new }
{
    match book.tip() {
        Ok(tip) => print(&Text::Tip(tip), DaemonStatus::Done, out),
        Err(why) => refuse("", tip_status(why), out),
    }
}

/// The status where no tip was given.
fn tip_status(why: TipError) -> DaemonStatus
    ensures { result ≡ tip_status why }
{
    match why {
        TipError::NothingNew => DaemonStatus::NothingNew,
        TipError::DiskFault => DaemonStatus::DiskFault,
        TipError::Full { need, limit } => DaemonStatus::Full { need, limit },
        TipError::OutOfMemory => DaemonStatus::OutOfMemory,
    }
}
