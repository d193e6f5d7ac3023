//! The command `anchor`.
ghost use Rattle.std.specs.Prelude.{◌≡◌, ◌⊎◌, ◌≤◌, ◌<◌, ◌^◌, true, length};
ghost use Rattle.ots_block.specs.declared.limits.TheConstants.{MAX_COMPACT};
ghost use Rattle.ots_disk.specs.Disk.{LeavesOnly};
ghost use Rattle.ots_journal.specs.Opening.{OpenedFrom};
ghost use Rattle.ots_calendar_maintenance.specs.Anchor.{AddsAnchor, AnchorAnswers, HasBlock};
ghost use Rattle.ots_calendar_maintenance.specs.Anchor.{anchor_meaning, anchor_status};
ghost use Rattle.ots_calendar_endings.specs.Ran.{EndsAs, Ran};
ghost use Rattle.ots_calendar_endings.specs.Moments.{EachStands, KeepsFound, OpenedOrRan, StandsWith};
ghost use Rattle.ots_calendar_endings.specs.With.{WithBook};
ghost use Rattle.ots_calendar_words.specs.Words.{read_anchoring};
ghost use Rattle.ots_journal.specs.declared.limits.TheConstants.{MAX_JOURNAL};
ghost use Rattle.ots_outputs.specs.Printed.{SinkStays};

use ots_block::Block;
use ots_calendar::{AnchorError, Book};
use ots_calendar_endings::{DaemonStatus, Outside, Text, open_book, print, refuse, refuse_input};
use ots_calendar_inputs::read_block;
use ots_calendar_words::Anchoring;
use ots_disk::Disk;
use ots_outside::{Shelf, Sink};
use std::alloc::Global;

/// Reads a block, opens the book on a disk, and anchors a tip in the block.
pub fn anchor<D: Disk, S: Shelf, K: Sink>(
    alloc: Global,
    asked: Anchoring<'_>,
    disk: D,
    shelf: &mut S,
    out: &mut K,
) -> (DaemonStatus, D)
    ensures ran { Ran (anchor_meaning (read_anchoring asked.entry))
        (⟦<(D, S, K) as Outside>⟧.told (disk, shelf.old, out.old))
        (⟦<(D, S, K) as Outside>⟧.told (result.1, shelf.new, out.new)) result.0 }
    ensures untouched { (result.1 ≡ disk) ⊎ HasBlock (S.told shelf.old).names
        asked.entry.block.now }
    ensures same { K.same out.old out.new }
{
    match read_block(alloc, asked.block, shelf) {
        Ok(block) => anchor_in(alloc, &block, asked.height, disk, out),
        Err(stop) => {
            let status = refuse_input(stop, out);
            (status, disk)
        }
    }
}

/// Opens the book on a disk, and anchors a tip in a block at this height.
fn anchor_in<D: Disk, K: Sink>(
    alloc: Global,
    block: &Block,
    height: u64,
    disk: D,
    out: &mut K,
) -> (DaemonStatus, D)
    requires height { height < 2 ^ 63 }
    requires some { 1 ≤ length block.now.transactions }
    requires most { length block.now.transactions ≤ MAX_COMPACT }
    ensures ends { EndsAs (WithBook (D.bytes disk) (AnchorAnswers MAX_JOURNAL block.now height))
        (⟦<(D, K) as Outside>⟧.told (disk, out.old))
        (⟦<(D, K) as Outside>⟧.told (result.1, out.new)) result.0 }
    ensures moments { LeavesOnly D.clock D.images_since disk result.1
        (OpenedOrRan (D.bytes disk) (D.images disk) (AddsAnchor block.now height)) }
    ensures kept { KeepsFound (D.bytes disk) (D.images result.1) ⊎ LeavesOnly D.clock D.images_since
        disk result.1 (OpenedFrom (D.images disk)) }
    ensures later { D.faults disk ≤ D.faults result.1 }
    ensures sink { SinkStays K.faults K.same out.old out.new }
{
    match open_book(alloc, disk) {
        Ok(book) => {
            let mut book = book;
            let status = store_anchor(block, height, &mut book, out);
            (status, book.into_disk())
        }
        Err(closed) => {
            let status = refuse("", closed.why, out);
            (status, closed.disk)
        }
    }
}

/// Finds the root of a tip in a block at this height, stores the anchor on a sure book, and prints
/// that.
fn store_anchor<D: Disk, K: Sink>(
    block: &Block,
    height: u64,
    book: &mut Book<D>,
    out: &mut K,
) -> DaemonStatus
    requires height { height < 2 ^ 63 }
    requires some { 1 ≤ length block.now.transactions }
    requires most { length block.now.transactions ≤ MAX_COMPACT }
    requires sure { book.old.store.journal.is_sure ≡ true }
    requires stands { EachStands (D.images book.old.store.journal.disk)
        book.old.store.journal.entries }
    ensures ends { EndsAs (AnchorAnswers book.old.store.journal.limit block.now height
        book.old.store.journal.gate book.old.store.journal.entries)
        (⟦<(D, K) as Outside>⟧.told (book.old.store.journal.disk, out.old))
        (⟦<(D, K) as Outside>⟧.told (book.new.store.journal.disk, out.new)) result }
    ensures moments { LeavesOnly D.clock D.images_since book.old.store.journal.disk
        book.new.store.journal.disk (StandsWith
        (AddsAnchor block.now height book.old.store.journal.entries)
        book.old.store.journal.entries) }
    ensures later { D.faults book.old.store.journal.disk ≤ D.faults book.new.store.journal.disk }
    ensures sink { SinkStays K.faults K.same out.old out.new }
{
    match book.anchor(block, height) {
        Ok(anchor) => print(
            &Text::Anchored(anchor.first, anchor.count, anchor.height),
            DaemonStatus::Done,
            out,
        ),
        Err(why) => refuse("", anchor_status(why), out),
    }
}

/// The status where no tip was anchored.
fn anchor_status(why: AnchorError) -> DaemonStatus
    ensures { result ≡ anchor_status why }
{
    match why {
        AnchorError::BadRoot { header, computed } => DaemonStatus::BadRoot { header, computed },
        AnchorError::NoTip => DaemonStatus::NoTip,
        AnchorError::TransactionTooLong(bytes) => DaemonStatus::TransactionTooLong(bytes),
        AnchorError::DiskFault => DaemonStatus::DiskFault,
        AnchorError::Full { need, limit } => DaemonStatus::Full { need, limit },
        AnchorError::OutOfMemory => DaemonStatus::OutOfMemory,
    }
}
