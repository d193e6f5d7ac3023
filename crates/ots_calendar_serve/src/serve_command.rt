//! The command `serve`: connections are answered.
ghost use Rattle.std.specs.Prelude.{◌≡◌, ◌≢◌, ◌⊎◌, ◌≤◌, ℕ, List};
ghost use Rattle.ots_base.specs.Cause.{Rose};
ghost use Rattle.ots_disk.specs.Disk.{LeavesOnly};
ghost use Rattle.ots_journal.specs.Opening.{OpenedFrom};
ghost use Rattle.ots_workers.specs.Returned.{NoneReturned};
ghost use Rattle.ots_calendar_words.specs.Words.{read_serving};
ghost use Rattle.ots_calendar_endings.specs.Ran.{EndsAs, Ran};
ghost use Rattle.ots_calendar_endings.specs.With.{WithBook};
ghost use Rattle.ots_calendar_endings.specs.Found.{HasSomeBook};
ghost use Rattle.ots_calendar_endings.specs.Moments.{EachStands, KeepsFound};
ghost use Rattle.ots_opening.specs.Images.{StandsAfter};
ghost use Rattle.ots_calendar_serve.specs.Serve.{Acknowledges, HasService, MayServe, serve_meaning};
ghost use Rattle.ots_calendar_serve.specs.Serve.{Listens, ServesAs, TellsAs, serving_status};
ghost use Rattle.ots_outputs.specs.Printed.{SinkStays};

use crate::links::Links;
use crate::reading::read_service;
use ots_calendar::Book;
use ots_calendar_endings::{
    DaemonStatus, Outside, Text, open_book, print, print_listening, refuse, refuse_input,
};
use ots_calendar_words::Serving;
use ots_connection::Service;
use ots_disk::Disk;
use ots_outside::{Accepter, Clock, Failed, Nonces, Shelf, Sink};
use ots_workers::{Ended, Front, ServeEnd, serve_links};
use std::alloc::Global;
use std::sync::Wait;
use std::thread::Threads;

/// What is handed back where a run ends.
#[derive(Drop)]
pub struct Returned<D, A, N> {
    pub disk: D,
    pub accepter: A,
    pub nonces: N,
}

/// Reads what serving names, opens the book on a disk, listens, prints the port, serves connections
/// until as many were accepted as are asked for or none is to come, and prints how many they were.
#[expect(clippy::too_many_arguments)]
pub fn serve<
    D: Disk + Send,
    S: Shelf,
    K: Sink,
    A: Accepter + Send,
    C: Clock + Drop + Send,
    N: Nonces + Send,
    R: Threads + Wait + Sync,
>(
    rt: &R,
    alloc: Global,
    asked: Serving<'_>,
    disk: D,
    shelf: &mut S,
    out: &mut K,
    accepter: A,
    clock: C,
    nonces: N,
) -> (DaemonStatus, Returned<D, A, N>)
    requires { NoneReturned (A.returned accepter) }
    ensures ran { Ran
        (serve_meaning (⟦<A as Links>⟧.told result.1.accepter) (read_serving asked.entry))
        (⟦<(D, S, K) as Outside>⟧.told (disk, shelf.old, out.old))
        (⟦<(D, S, K) as Outside>⟧.told (result.1.disk, shelf.new, out.new)) result.0 }
    ensures untouched { (result.1.disk ≡ disk) ⊎ HasService (S.told shelf.old).names
        (read_serving asked.entry) }
    ensures accepter { (result.1.accepter ≡ accepter) ⊎ MayServe (S.told shelf.old).names
        (D.bytes disk) (read_serving asked.entry) }
    ensures nonces { (result.1.nonces ≡ nonces) ⊎ MayServe (S.told shelf.old).names (D.bytes disk)
        (read_serving asked.entry) }
    ensures nonce_faults { (N.faults nonces ≤ N.faults result.1.nonces) ⊎ MayServe
        (S.told shelf.old).names (D.bytes disk) (read_serving asked.entry) }
    ensures acknowledged { (result.1.accepter ≡ accepter) ⊎ (result.0 ≡ DaemonStatus.Done
        → Acknowledges A.Link.told A.Link.faults (A.returned result.1.accepter) (D.images result.1.disk)) }
    ensures same { K.same out.old out.new }
{
    match read_service(alloc, asked, shelf) {
        Ok(service) => serve_on(
            rt, alloc, asked, &service, disk, out, accepter, clock, nonces,
        ),
        Err(stop) => {
            let status = refuse_input(stop, out);
            (
                status,
                Returned {
                    disk,
                    accepter,
                    nonces,
                },
            )
        }
    }
}

/// Opens the book on a disk, and serves connections with it.
#[expect(clippy::too_many_arguments)]
fn serve_on<
    D: Disk + Send,
    K: Sink,
    A: Accepter + Send,
    C: Clock + Drop + Send,
    N: Nonces + Send,
    R: Threads + Wait + Sync,
>(
    rt: &R,
    alloc: Global,
    asked: Serving<'_>,
    service: &Service,
    disk: D,
    out: &mut K,
    accepter: A,
    clock: C,
    nonces: N,
) -> (DaemonStatus, Returned<D, A, N>)
    requires { NoneReturned (A.returned accepter) }
    ensures ends { EndsAs (WithBook (D.bytes disk) (ServesAs (⟦<A as Links>⟧.told result.1.accepter)
        (Rose (K.faults out.old) (K.faults out.new)) (read_serving asked.entry)))
        (⟦<(D, K) as Outside>⟧.told (disk, out.old))
        (⟦<(D, K) as Outside>⟧.told (result.1.disk, out.new)) result.0 }
    ensures moments { LeavesOnly D.clock D.images_since disk result.1.disk
        (OpenedFrom (D.images disk)) ⊎
        (HasSomeBook (D.bytes disk) × KeepsFound (D.bytes disk) (D.images result.1.disk)) }
    ensures stays { ((result.1.accepter ≡ accepter) × (result.1.nonces ≡ nonces) ×
        (D.faults disk ≤ D.faults result.1.disk)) ⊎ HasSomeBook (D.bytes disk) }
    ensures acknowledged { (result.1.accepter ≡ accepter) ⊎ (result.0 ≡ DaemonStatus.Done
        → Acknowledges A.Link.told A.Link.faults (A.returned result.1.accepter) (D.images result.1.disk)) }
    ensures sink { SinkStays K.faults K.same out.old out.new }
{
    match open_book(alloc, disk) {
        Ok(book) => serve_book(
            rt, alloc, asked, service, book, out, accepter, clock, nonces,
        ),
        Err(closed) => {
            let status = refuse("", closed.why, out);
            (
                status,
                Returned {
                    disk: closed.disk,
                    accepter,
                    nonces,
                },
            )
        }
    }
}

/// Listens, and serves connections with a book.
#[expect(clippy::too_many_arguments)]
fn serve_book<
    D: Disk + Send,
    K: Sink,
    A: Accepter + Send,
    C: Clock + Drop + Send,
    N: Nonces + Send,
    R: Threads + Wait + Sync,
>(
    rt: &R,
    alloc: Global,
    asked: Serving<'_>,
    service: &Service,
    book: Book<D>,
    out: &mut K,
    accepter: A,
    clock: C,
    nonces: N,
) -> (DaemonStatus, Returned<D, A, N>)
    requires none_returned { NoneReturned (A.returned accepter) }
    requires stand { EachStands (D.images book.store.journal.disk) book.store.journal.entries }
    ensures ends { EndsAs (ServesAs (⟦<A as Links>⟧.told result.1.accepter)
        (Rose (K.faults out.old) (K.faults out.new)) (read_serving asked.entry)
        book.store.journal.gate book.store.journal.entries)
        (⟦<(D, K) as Outside>⟧.told (book.store.journal.disk, out.old))
        (⟦<(D, K) as Outside>⟧.told (result.1.disk, out.new)) result.0 }
    ensures keeps { (c : List ℕ) → D.images result.1.disk c → StandsAfter book.store.journal.entries
        c }
    ensures acknowledged { result.0 ≡ DaemonStatus.Done → Acknowledges A.Link.told A.Link.faults
        (A.returned result.1.accepter) (D.images result.1.disk) }
    ensures sink { SinkStays K.faults K.same out.old out.new }
{
    let mut accepter = accepter;
    match listen(asked.port, &mut accepter, out) {
        Ok(()) => {
            let front = Front::new(accepter, clock, nonces);
            serve_front(rt, alloc, asked, service, book, out, front)
        }
        Err(status) => (
            status,
            Returned {
                disk: book.into_disk(),
                accepter,
                nonces,
            },
        ),
    }
}

/// Listens on a port, and prints that. Where that failed it is told how the run ends.
fn listen<A: Accepter, K: Sink>(
    port: u16,
    accepter: &mut A,
    out: &mut K,
) -> Result<(), DaemonStatus>
    ensures listens { Listens port (A.faults accepter.new ≢ 0)
        (Rose (K.faults out.old) (K.faults out.new)) (K.taken out.old) (K.taken out.new) result }
    ensures returned { A.returned accepter.new ≡ A.returned accepter.old }
    ensures sink { SinkStays K.faults K.same out.old out.new }
{
    match accepter.listen(port) {
        Ok(()) => match print_listening(port, out) {
            Ok(()) => Ok(()),
            Err(Failed) => Err(DaemonStatus::WriteFault),
        },
        Err(Failed) => Err(refuse("", DaemonStatus::AcceptFault, out)),
    }
}

/// Serves connections, and prints how many were accepted.
fn serve_front<
    D: Disk + Send,
    K: Sink,
    A: Accepter + Send,
    C: Clock + Drop + Send,
    N: Nonces + Send,
    R: Threads + Wait + Sync,
>(
    rt: &R,
    alloc: Global,
    asked: Serving<'_>,
    service: &Service,
    book: Book<D>,
    out: &mut K,
    front: Front<A, C, N>,
) -> (DaemonStatus, Returned<D, A, N>)
    requires { NoneReturned (A.returned front.accepter) }
    ensures tells { TellsAs (⟦<A as Links>⟧.told result.1.accepter) asked.entry.accept
        (Rose (K.faults out.old) (K.faults out.new)) (K.taken out.old) (K.taken out.new) result.0 }
    ensures keeps { (c : List ℕ) → D.images result.1.disk c → StandsAfter book.store.journal.entries
        c }
    ensures acknowledged { result.0 ≡ DaemonStatus.Done → Acknowledges A.Link.told A.Link.faults
        (A.returned result.1.accepter) (D.images result.1.disk) }
    ensures sink { SinkStays K.faults K.same out.old out.new }
{
    book.stands();
    let ended = serve_links(
        rt,
        alloc,
        service,
        front,
        book,
        asked.workers as u32,
        asked.accept,
    );
    ended.book.stands();
    let Ended {
        ending,
        count,
        front,
        book,
    } = ended;
    let status = print(&Text::Served(count), status_of(ending), out);
    let Front {
        accepter,
        clock: _,
        nonces,
        failed: _,
        short: _,
    } = front;
    (
        status,
        Returned {
            disk: book.into_disk(),
            accepter,
            nonces,
        },
    )
}

/// The status of a run whose serving ended so.
fn status_of(ending: ServeEnd) -> DaemonStatus
    ensures { result ≡ serving_status ending }
{
    match ending {
        ServeEnd::Done => DaemonStatus::Done,
        ServeEnd::AcceptFault => DaemonStatus::AcceptFault,
        ServeEnd::OutOfMemory => DaemonStatus::OutOfMemory,
    }
}
