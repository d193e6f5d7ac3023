//! The top call.
ghost use Rattle.std.specs.Prelude.{◌≡◌, ◌⊎◌, []};
ghost use Rattle.ots_base.specs.Told.{IfTold};
ghost use Rattle.ots_calendar_serve.specs.Serve.{Acknowledges};
ghost use Rattle.ots_calendar_words.specs.Words.{asked};
ghost use Rattle.ots_calendar_commands.specs.Meaning.{words_status};
ghost use Rattle.ots_calendar_commands.specs.Run.{CompletesAs, RanAs, Stays, Survives};

use crate::told::Run;
use ots_calendar_batch::batch;
use ots_calendar_endings::{DaemonStatus, refuse};
use ots_calendar_maintenance::{anchor, list, migrate, tip};
use ots_calendar_serve::{Returned, serve};
use ots_calendar_words::{DaemonCommand, WordsError, read_words};
use ots_disk::Disk;
use ots_outside::{Accepter, Clock, Nonces, Shelf, Sink};
use std::alloc::Global;
use std::sync::Wait;
use std::thread::Threads;

/// Does what the words after the program's name ask for, prints on the sink, and answers how it
/// ended. [`DaemonStatus`] says when each status comes; where several of them could, the first in
/// this order does: the words, the calendar's address, the files, the journal, the command. Each has
/// one line, or the command's text, but want of memory and a sink that failed.
///
/// The first word names the journal, which is the disk that is handed in. A command that is refused
/// before the journal is opened calls no disk. Where no call of the outside fails, the status is the
/// defined one, or memory ran out; of `serve` this is said where it returns. Where `serve` is done, every
/// image that the disk may show after a crash holds each commitment that was acknowledged.
#[expect(clippy::too_many_arguments)]
pub fn run_calendar<
    D: Disk + Send,
    S: Shelf,
    K: Sink,
    A: Accepter + Send,
    C: Clock + Drop + Send,
    N: Nonces + Send,
    R: Threads + Wait + Sync,
>(
    rt: &R,
    alloc: Global,
    words: &[String],
    disk: D,
    shelf: &mut S,
    out: &mut K,
    accepter: A,
    clock: C,
    nonces: N,
) -> (DaemonStatus, Returned<D, A, N>)
    requires { IfTold (A.returned accepter) (λ links. links ≡ []) }
    ensures ran { RanAs (asked words.now) (⟦<(D, S, K, A, C, N) as Run>⟧.told
        (disk, shelf.old, out.old, accepter, clock, nonces) (result.1, shelf.new, out.new))
        result.0 }
    ensures complete { CompletesAs (asked words.now) (⟦<(D, S, K, A, C, N) as Run>⟧.told
        (disk, shelf.old, out.old, accepter, clock, nonces) (result.1, shelf.new, out.new))
        result.0 }
    ensures crash { Survives (asked words.now) (⟦<(D, S, K, A, C, N) as Run>⟧.told
        (disk, shelf.old, out.old, accepter, clock, nonces) (result.1, shelf.new, out.new)) }
    ensures stays { Stays (asked words.now) (⟦<(D, S, K, A, C, N) as Run>⟧.told
        (disk, shelf.old, out.old, accepter, clock, nonces) (result.1, shelf.new, out.new))
        (result.1.disk ≡ disk) (result.1.accepter ≡ accepter) (result.1.nonces ≡ nonces) }
    ensures acknowledged { (result.1.accepter ≡ accepter) ⊎ (result.0 ≡ DaemonStatus.Done
        → Acknowledges A.Link.told A.Link.faults (A.returned result.1.accepter) (D.images result.1.disk)) }
    ensures same { K.same out.old out.new }
{
    match read_words(alloc, words) {
        Ok(DaemonCommand::Serve(asked)) => serve(
            rt, alloc, asked, disk, shelf, out, accepter, clock, nonces,
        ),
        Ok(DaemonCommand::Batch(asked)) => {
            let mut clock = clock;
            let mut nonces = nonces;
            let ended = batch(alloc, asked, disk, shelf, out, &mut clock, &mut nonces);
            hand_back(ended, accepter, nonces)
        }
        Ok(DaemonCommand::Tip) => hand_back(tip(alloc, disk, out), accepter, nonces),
        Ok(DaemonCommand::Anchor(asked)) => {
            hand_back(anchor(alloc, asked, disk, shelf, out), accepter, nonces)
        }
        Ok(DaemonCommand::List) => hand_back(list(alloc, disk, out), accepter, nonces),
        Ok(DaemonCommand::Migrate(old)) => {
            hand_back(migrate(alloc, old, disk, shelf, out), accepter, nonces)
        }
        Err(why) => {
            let status = refuse("", status_of(why), out);
            hand_back((status, disk), accepter, nonces)
        }
    }
}

/// The status of words that were not read.
fn status_of(why: WordsError) -> DaemonStatus
    ensures { result ≡ words_status why }
{
    match why {
        WordsError::Usage => DaemonStatus::Usage,
        WordsError::OutOfMemory => DaemonStatus::OutOfMemory,
    }
}

/// How a run ended, with all that was lent to it.
fn hand_back<D, A, N>(
    ended: (DaemonStatus, D),
    accepter: A,
    nonces: N,
) -> (DaemonStatus, Returned<D, A, N>)
    ensures { result ≡ (ended.0, record { disk = ended.1; accepter = accepter; nonces = nonces }) }
{
    let (status, disk) = ended;
    (
        status,
        Returned {
            disk,
            accepter,
            nonces,
        },
    )
}
