//! The command `batch`.
ghost use Rattle.std.specs.Prelude.{◌≡◌, ◌⊎◌, ◌≤◌};
ghost use Rattle.ots_base.specs.Cause.{Rose};
ghost use Rattle.ots_disk.specs.Disk.{LeavesOnly};
ghost use Rattle.ots_journal.specs.Opening.{OpenedFrom};
ghost use Rattle.ots_journal.specs.declared.limits.TheConstants.{MAX_JOURNAL};
ghost use Rattle.ots_calendar_words.specs.Words.{read_batch};
ghost use Rattle.ots_calendar_endings.specs.Moments.{KeepsFound, OpenedOrRan};
ghost use Rattle.ots_calendar_endings.specs.Ran.{EndsAs, Ran};
ghost use Rattle.ots_calendar_endings.specs.With.{WithBook};
ghost use Rattle.ots_calendar_batch.specs.Batch.{AddsRound, DrawsFor, Happens, RoundAnswers};
ghost use Rattle.ots_calendar_batch.specs.Batch.{HasRound, MayDraw, batch_meaning, draws_told};
ghost use Rattle.ots_calendar_batch.specs.Round.{IsRound};
ghost use Rattle.ots_outputs.specs.Printed.{SinkStays};

use crate::reading::read_round;
use crate::round::{Round, put_round};
use ots_calendar_endings::{DaemonStatus, Outside, open_book, refuse, refuse_input};
use ots_calendar_words::Batch;
use ots_disk::Disk;
use ots_outside::{Clock, Nonces, Shelf, Sink};
use std::alloc::Global;

/// Reads what a batch names, opens the book on a disk, puts the digests under one commitment in it,
/// each with a nonce that is drawn for it, and prints their trees once it is stored.
pub fn batch<D: Disk, S: Shelf, K: Sink, C: Clock, N: Nonces>(
    alloc: Global,
    asked: Batch<'_>,
    disk: D,
    shelf: &mut S,
    out: &mut K,
    clock: &mut C,
    nonces: &mut N,
) -> (DaemonStatus, D)
    ensures ran { Ran (batch_meaning
        (draws_told C.coming N.left N.faults clock.old nonces.old nonces.new)
        (read_batch asked.entry)) (⟦<(D, S, K) as Outside>⟧.told (disk, shelf.old, out.old))
        (⟦<(D, S, K) as Outside>⟧.told (result.1, shelf.new, out.new)) result.0 }
    ensures untouched { (result.1 ≡ disk) ⊎ HasRound (S.told shelf.old).names
        (read_batch asked.entry) }
    ensures nonces { (nonces.new ≡ nonces.old) ⊎ MayDraw
        (draws_told C.coming N.left N.faults clock.old nonces.old nonces.new)
        (S.told shelf.old).names (read_batch asked.entry) }
    ensures nonce_faults { N.faults nonces.old ≤ N.faults nonces.new }
    ensures same { K.same out.old out.new }
{
    match read_round(alloc, asked, shelf) {
        Ok(round) => batch_in(alloc, &round, disk, out, clock, nonces),
        Err(stop) => {
            let status = refuse_input(stop, out);
            (status, disk)
        }
    }
}

/// Opens the book on a disk, and puts digests under one commitment in it.
fn batch_in<D: Disk, K: Sink, C: Clock, N: Nonces>(
    alloc: Global,
    round: &Round,
    disk: D,
    out: &mut K,
    clock: &mut C,
    nonces: &mut N,
) -> (DaemonStatus, D)
    requires { IsRound round.now.digests.items }
    ensures ends { EndsAs (WithBook (D.bytes disk) (RoundAnswers
        (Happens (C.coming clock.old) (N.left nonces.old) (N.left nonces.new))
        (Rose (N.faults nonces.old) (N.faults nonces.new)) MAX_JOURNAL round.now.key round.now.uri
        round.now.digests.items)) (⟦<(D, K) as Outside>⟧.told (disk, out.old))
        (⟦<(D, K) as Outside>⟧.told (result.1, out.new)) result.0 }
    ensures moments { LeavesOnly D.clock D.images_since disk result.1 (OpenedOrRan (D.bytes disk)
        (D.images disk) (AddsRound
        (Happens (C.coming clock.old) (N.left nonces.old) (N.left nonces.new)) round.now.key
        round.now.digests.items)) }
    ensures kept { KeepsFound (D.bytes disk) (D.images result.1) ⊎ LeavesOnly D.clock D.images_since
        disk result.1 (OpenedFrom (D.images disk)) }
    ensures later { D.faults disk ≤ D.faults result.1 }
    ensures nonces { (nonces.new ≡ nonces.old) ⊎ DrawsFor
        (Happens (C.coming clock.old) (N.left nonces.old) (N.left nonces.new))
        round.now.digests.items }
    ensures nonce_faults { N.faults nonces.old ≤ N.faults nonces.new }
    ensures sink { SinkStays K.faults K.same out.old out.new }
{
    match open_book(alloc, disk) {
        Ok(book) => {
            let mut book = book;
            let status = put_round(alloc, round, &mut book, clock, nonces, out);
            (status, book.into_disk())
        }
        Err(closed) => {
            let status = refuse("", closed.why, out);
            (status, closed.disk)
        }
    }
}
