//! Many callers of one book, each in a thread of its own.
ghost use Rattle.std.specs.Prelude.{◌≡◌, ◌<◌, ◌≤◌, false};
ghost use Rattle.std.specs.Thread.{IsSync};
ghost use Rattle.ots_shared.specs.Told.{IsPassOf};
ghost use Rattle.ots_shared.specs.declared.limits.TheConstants.{MAX_CALLERS};

use crate::service::connections::{Told, close, serve_one, share};
use crate::service::watching::watch;
use ots_calendar::{Book, Receipt};
use ots_connection::{Served, Service};
use ots_disk::Disk;
use ots_shared::{Pass, Shared};
use std::alloc::{AllocError, Global};
use std::sync::Wait;
use std::thread::{Threads, join};

/// What is left when all are done: how many of them were stamped, whether the commitment of each
/// receipt stands at its index, how many commitments are stored, and how many tickets wait.
#[derive(Clone, Copy)]
pub struct Ends {
    pub stamped: usize,
    pub all_stand: bool,
    pub commits: u64,
    pub waiting: u64,
}

/// What each caller does.
#[derive(Clone, Copy)]
enum Task {
    /// It serves a connection.
    Serve,
    /// It holds the book so many times, and looks each time whether there are as many records as it was told of.
    Watch(u32),
}

/// What callers did: the receipts of those that were stamped, and whether none found fewer records than it was told of.
#[derive(Drop)]
struct Done {
    receipts: Vec<Receipt>,
    as_told: bool,
}

/// One caller serves a connection.
fn serve<D: Disk, R: Wait>(
    rt: &R,
    alloc: Global,
    shared: &Shared<D>,
    mut pass: Pass,
    service: &Service,
) -> (Pass, Done)
    requires own { IsPassOf shared.now pass }
    requires free { pass.holding ≡ false }
    ensures seat { (result.0.seat ≡ pass.seat) × (result.0.holding ≡ false) }
{
    let told = serve_one(rt, alloc, shared, &mut pass, service);
    (pass, stamped(alloc, told))
}

/// The receipt of a connection, where it was stamped and there is memory for it.
fn stamped(alloc: Global, told: Result<Told, AllocError>) -> Done {
    let mut receipts = Vec::new(alloc);
    if let Ok(
        Told {
            served: Served::Stamped(receipt),
            taken: _,
        },
    ) = told
    {
        let _ = receipts.push(receipt);
    }
    Done {
        receipts,
        as_told: true,
    }
}

/// One caller does its task.
fn perform<D: Disk, R: Wait>(
    rt: &R,
    alloc: Global,
    shared: &Shared<D>,
    pass: Pass,
    service: &Service,
    task: Task,
) -> (Pass, Done)
    requires own { IsPassOf shared.now pass }
    requires free { pass.holding ≡ false }
    ensures seat { (result.0.seat ≡ pass.seat) × (result.0.holding ≡ false) }
{
    match task {
        Task::Serve => serve(rt, alloc, shared, pass, service),
        Task::Watch(times) => {
            let (pass, as_told) = watch(rt, shared, pass, times);
            let receipts = Vec::new(alloc);
            (pass, Done { receipts, as_told })
        }
    }
}

/// What some callers did, and others.
fn both(one: Done, others: Done) -> Done {
    let mut receipts = others.receipts;
    for receipt in &one.receipts {
        let _ = receipts.push(*receipt);
    }
    Done {
        receipts,
        as_told: one.as_told && others.as_told,
    }
}

/// One caller, and `more` in threads of their own, do their task.
fn crew<D: Disk + Send, R: Threads + Wait + Sync>(
    rt: &R,
    alloc: Global,
    shared: &Shared<D>,
    pass: Pass,
    service: &Service,
    each: Task,
    more: u32,
) -> (Pass, Done)
    requires own { IsPassOf shared.now pass }
    requires free { pass.holding ≡ false }
    requires enough { more < pass.seat.share }
    ensures seat { (result.0.seat ≡ pass.seat) × (result.0.holding ≡ false) }
{
    if more == 0 {
        return perform(rt, alloc, shared, pass, service, each);
    }
    let fewer = more - 1;
    let (one, rest) = shared.split(pass);
    let ((one, done), (rest, others)) = join(
        rt,
        || -> (Pass, Done)
            requires { IsPassOf shared.now one × (one.holding ≡ false) }
            ensures { (result.0.seat ≡ one.seat) × (result.0.holding ≡ false) }
        { perform(rt, alloc, shared, one, service, each) },
        || -> (Pass, Done)
            requires { IsSync R.row × IsPassOf shared.now rest × (rest.holding ≡ false) × (fewer < rest.seat.share) }
            ensures { (result.0.seat ≡ rest.seat) × (result.0.holding ≡ false) }
        { crew(rt, alloc, shared, rest, service, each, fewer) },
    );
    (shared.join(rest, one), both(done, others))
}

/// Whether the commitment of each receipt stands at its index.
fn all_stand<D: Disk>(book: &Book<D>, receipts: &[Receipt]) -> bool {
    for receipt in receipts {
        let index = receipt.index;
        if index >= book.store().commits() || book.store().commit(index) != receipt.commitment {
            return false;
        }
    }
    true
}

/// So many callers serve one connection each, in threads of their own.
pub fn serve_all<D: Disk + Send + Drop, R: Threads + Wait + Sync>(
    rt: &R,
    alloc: Global,
    book: Book<D>,
    service: &Service,
    callers: u32,
) -> Result<Ends, AllocError>
    requires some { 0 < callers }
    requires most { callers ≤ MAX_CALLERS }
{
    let (shared, pass) = share(alloc, book, callers)?;
    let (pass, done) = crew(rt, alloc, &shared, pass, service, Task::Serve, callers - 1);
    let book = shared.close(pass);
    Ok(ends_of(&book, &done.receipts))
}

/// What is left in a book, where these were stamped.
fn ends_of<D: Disk>(book: &Book<D>, receipts: &[Receipt]) -> Ends {
    Ends {
        stamped: receipts.len(),
        all_stand: all_stand(book, receipts),
        commits: book.store().commits(),
        waiting: book.waiting(),
    }
}

/// So many callers hold a book so many times each, in threads of their own: whether none ever found fewer records than
/// it was told of, and how many commitments are stored.
pub fn take_turns<D: Disk + Send + Drop, R: Threads + Wait + Sync>(
    rt: &R,
    alloc: Global,
    book: Book<D>,
    service: &Service,
    callers: u32,
    times: u32,
) -> Result<(bool, u64), AllocError>
    requires some { 0 < callers }
    requires most { callers ≤ MAX_CALLERS }
{
    let (shared, pass) = share(alloc, book, callers)?;
    let each = Task::Watch(times);
    let (pass, done) = crew(rt, alloc, &shared, pass, service, each, callers - 1);
    let (commits, _) = close(shared, pass);
    Ok((done.as_told, commits))
}
