ghost use Rattle.std.specs.Prelude.{◌<◌, ◌≤◌};

use crate::books::{AMPLE, book_on, new_disk, service};
use crate::service::beside::{Beside, serve_beside};
use crate::service::connections::{Ended, REQUEST, Told, serve_alone};
use crate::service::crews::{Ends, serve_all, take_turns};
use crate::service::endings::{Noted, serve_noting};
use crate::service::watching::watch_while_added;
use hex::decode;
use ots_calendar::{Leaf, Receipt};
use ots_connection::Served;
use ots_disk::Disk;
use std::alloc::Global;
use std::process::Abort;
use std::sync::Wait;
use std::test::Fail;
use std::thread::Threads;

/// The tree of the digest of 32 bytes 1, alone in its round.
const ALONE: &str =
    "f0100707070707070707070707070707070708f1046553f100f008af43e6eeea71f2d50083dfe30d2ef90c8e171668\
    7474703a2f2f3132372e302e302e313a3134373838";

/// The same after the digest of 32 bytes 2 with the nonce of 16 bytes 8.
const SECOND_OF_TWO: &str =
    "f0100707070707070707070707070707070708f1206de5aa6296973a6f76d67618b5c9b3be248ff84b732469632091\
    cb947cc99ad508f1046553f100f0084a55d42d5668e2b80083dfe30d2ef90c8e1716687474703a2f2f3132372e302e\
    302e313a3134373838";

const JOURNAL_FULL: &[u8] = b"HTTP/1.1 507 Insufficient Storage\r\nContent-Type: text/plain\r\n\
    Content-Length: 13\r\nConnection: close\r\n\r\njournal full\n";

const BUSY: &[u8] = b"HTTP/1.1 503 Service Unavailable\r\nContent-Type: text/plain\r\n\
    Content-Length: 5\r\nConnection: close\r\n\r\nbusy\n";

/// The connection ended with this status, and its link took this reply.
fn is_said(rt: &impl Abort, told: &Told, status: u16, reply: &[u8]) {
    assert_eq!(rt; told.served, Served::Replied(status));
    assert_eq!(rt; told.taken.as_slice(), reply);
}

/// The receipt of a connection whose digest was stamped, and whose link took a reply with this tree, in hexadecimal.
fn receipt_with(rt: &impl Abort, alloc: Global, told: &Told, tree: &str) -> Result<Receipt, Fail> {
    let size = tree.len() / 2;
    let mut reply = format!(in alloc;
        "HTTP/1.1 200 OK\r\nContent-Type: application/octet-stream\r\nContent-Length: {size}\r\n\
        Connection: close\r\n\r\n"
    )?
    .into_bytes();
    reply.extend_from_slice(&decode(alloc, tree)?)?;
    assert_eq!(rt; told.taken.as_slice(), reply.as_slice());
    match told.served {
        Served::Stamped(receipt) => Ok(receipt),
        _ => Err(Fail::from("not stamped")),
    }
}

/// Serves one connection over a new book whose journal has this limit.
fn alone<D: Disk + Drop, R: Wait>(
    rt: &R,
    alloc: Global,
    disk: D,
    limit: u64,
) -> Result<Ended, Fail> {
    let service = service(alloc)?;
    let book = book_on(alloc, disk, limit)?;
    Ok(serve_alone(rt, alloc, book, &service)?)
}

#[test]
fn a_full_journal_is_told(rt: HostRuntime) -> Result<(), Fail> {
    let alloc = rt.alloc();
    let ended = alone(&rt, alloc, new_disk(alloc)?, 64)?;
    assert_eq!(rt; (ended.commits, ended.waiting), (0, 0));
    is_said(&rt, &ended.told, 507, JOURNAL_FULL);
    Ok(())
}

#[test]
fn a_journal_with_room_for_one_commitment_takes_it(rt: HostRuntime) -> Result<(), Fail> {
    let alloc = rt.alloc();
    let ended = alone(&rt, alloc, new_disk(alloc)?, 65)?;
    assert_eq!(rt; (ended.commits, ended.waiting), (1, 0));
    assert_eq!(rt; receipt_with(&rt, alloc, &ended.told, ALONE)?.index, 0);
    Ok(())
}

/// Serves a connection over a new book in which another caller has put the digest of 32 bytes 2 so many
/// times.
fn beside<D: Disk + Drop, R: Wait>(
    rt: &R,
    alloc: Global,
    disk: D,
    times: u32,
) -> Result<Beside, Fail> {
    let other = Leaf::new(&[2; 32])?;
    let service = service(alloc)?;
    let book = book_on(alloc, disk, AMPLE)?;
    Ok(serve_beside(rt, alloc, book, &service, other, times)?)
}

#[test]
fn one_commitment_is_stored_for_all_that_wait(rt: HostRuntime) -> Result<(), Fail> {
    let alloc = rt.alloc();
    let Beside { ended, .. } = beside(&rt, alloc, new_disk(alloc)?, 1)?;
    assert_eq!(rt; (ended.commits, ended.waiting), (1, 0));
    assert_eq!(rt;
        receipt_with(&rt, alloc, &ended.told, SECOND_OF_TWO)?.index,
        0
    );
    Ok(())
}

#[test]
fn two_passes_share_a_round(rt: HostRuntime) -> Result<(), Fail> {
    let alloc = rt.alloc();
    let Beside {
        ended,
        receipt,
        acknowledged,
    } = beside(&rt, alloc, new_disk(alloc)?, 1)?;
    // The other is told of the record that it has not seen.
    assert_eq!(rt; acknowledged, (1, 1));
    assert_eq!(rt;
        receipt,
        Some(receipt_with(&rt, alloc, &ended.told, SECOND_OF_TWO)?)
    );
    Ok(())
}

#[test]
fn a_full_house_is_told(rt: HostRuntime) -> Result<(), Fail> {
    let alloc = rt.alloc();
    let Beside { ended, receipt, .. } = beside(&rt, alloc, new_disk(alloc)?, 65_536)?;
    assert_eq!(rt; (ended.commits, ended.waiting, receipt), (0, 65_536, None));
    is_said(&rt, &ended.told, 503, BUSY);
    Ok(())
}

/// So many callers serve one connection each, over a new book.
fn all<D: Disk + Send + Drop, R: Threads + Wait + Sync>(
    rt: &R,
    alloc: Global,
    disk: D,
    callers: u32,
) -> Result<Ends, Fail>
    requires { (0 < callers) × (callers ≤ 65) }
{
    let service = service(alloc)?;
    let book = book_on(alloc, disk, AMPLE)?;
    Ok(serve_all(rt, alloc, book, &service, callers)?)
}

#[test]
fn sixty_five_callers_find_their_receipts(rt: HostRuntime) -> Result<(), Fail> {
    let alloc = rt.alloc();
    let ends = all(&rt, alloc, new_disk(alloc)?, 65)?;
    assert_eq!(rt; (ends.stamped, ends.all_stand, ends.waiting), (65, true, 0));
    Ok(())
}

/// Eight callers over a new book are all stamped: how many commitments were stored.
fn stored_for_eight<R: Threads + Wait + Sync + Abort>(rt: &R, alloc: Global) -> Result<u64, Fail> {
    let ends = all(rt, alloc, new_disk(alloc)?, 8)?;
    assert_eq!(rt; (ends.stamped, ends.all_stand, ends.waiting), (8, true, 0));
    Ok(ends.commits)
}

#[test]
fn eight_callers_are_all_stamped(rt: HostRuntime) -> Result<(), Fail> {
    let commits = stored_for_eight(&rt, rt.alloc())?;
    assert!(rt; commits >= 1 && commits <= 8);
    Ok(())
}

#[test]
fn a_round_that_another_caller_closed_is_given(rt: HostRuntime) -> Result<(), Fail> {
    for _ in 0..10_000 {
        if stored_for_eight(&rt, rt.alloc())? < 8 {
            return Ok(());
        }
    }
    Err(Fail::from("each caller closed its own round"))
}

/// A caller watches the counts that it is told, while another adds 100 records to a new book.
fn watched<D: Disk + Send + Drop, R: Threads + Wait + Sync>(
    rt: &R,
    alloc: Global,
    disk: D,
) -> Result<(bool, u64), Fail> {
    let service = service(alloc)?;
    let book = book_on(alloc, disk, AMPLE)?;
    Ok(watch_while_added(rt, alloc, book, &service)?)
}

#[test]
fn no_caller_finds_fewer_records_than_it_was_told_of(rt: HostRuntime) -> Result<(), Fail> {
    let alloc = rt.alloc();
    assert_eq!(rt; watched(&rt, alloc, new_disk(alloc)?)?, (true, 100));
    Ok(())
}

/// So many callers hold a new book so many times each: whether each found as many records as it was told of, and how
/// many commitments are stored.
fn turns<D: Disk + Send + Drop, R: Threads + Wait + Sync>(
    rt: &R,
    alloc: Global,
    disk: D,
    callers: u32,
    times: u32,
) -> Result<(bool, u64), Fail>
    requires { (0 < callers) × (callers ≤ 65) }
{
    let service = service(alloc)?;
    let book = book_on(alloc, disk, AMPLE)?;
    Ok(take_turns(rt, alloc, book, &service, callers, times)?)
}

/// So many callers hold a new book so many times each. A wake-up that is lost leaves some of them asleep for ever.
fn turns_are_taken<R: Threads + Wait + Sync + Abort>(
    rt: &R,
    alloc: Global,
    callers: u32,
    times: u32,
) -> Result<(), Fail>
    requires { (0 < callers) × (callers ≤ 65) }
{
    assert_eq!(rt;
        turns(rt, alloc, new_disk(alloc)?, callers, times)?,
        (true, 0)
    );
    Ok(())
}

#[test]
fn no_wake_up_is_lost_among_sixty_five_callers(rt: HostRuntime) -> Result<(), Fail> {
    turns_are_taken(&rt, rt.alloc(), 65, 1540)
}

#[test]
fn no_wake_up_is_lost_among_four_callers(rt: HostRuntime) -> Result<(), Fail> {
    turns_are_taken(&rt, rt.alloc(), 4, 50_000)
}

/// How a connection with this request ends over a new book, where the calls of its link with these numbers fail. Its
/// link is finished once, after all that it takes.
fn ended<R: Wait + Abort>(
    rt: &R,
    alloc: Global,
    request: &[u8],
    failing: &[u64],
) -> Result<Served, Fail> {
    let noted = noted(rt, alloc, new_disk(alloc)?, request, failing)?;
    assert_eq!(rt; (noted.finishes, noted.taken_then), (1, noted.taken));
    Ok(noted.served)
}

/// Such a connection over a new book.
fn noted<D: Disk + Drop, R: Wait>(
    rt: &R,
    alloc: Global,
    disk: D,
    request: &[u8],
    failing: &[u64],
) -> Result<Noted, Fail> {
    let service = service(alloc)?;
    let book = book_on(alloc, disk, AMPLE)?;
    Ok(serve_noting(rt, alloc, book, &service, request, failing)?)
}

#[test]
fn a_link_is_finished_in_each_ending(rt: HostRuntime) -> Result<(), Fail> {
    let alloc = rt.alloc();
    let stamped = ended(&rt, alloc, REQUEST, &[])?;
    assert!(rt; matches!(stamped, Served::Stamped(_)));
    let query = b"GET /timestamp/00 HTTP/1.1\r\n\r\n";
    assert_eq!(rt; ended(&rt, alloc, query, &[])?, Served::Replied(404));
    assert_eq!(rt; ended(&rt, alloc, b"", &[])?, Served::Closed);
    // The read fails, and then the first write.
    assert_eq!(rt; ended(&rt, alloc, query, &[1])?, Served::LinkFault);
    assert_eq!(rt; ended(&rt, alloc, query, &[2])?, Served::LinkFault);
    Ok(())
}
