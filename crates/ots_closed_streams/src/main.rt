//! The four programs started without standard output, and then without any standard stream: nothing
//! that they print gets into a file or a socket, and what was stored stays. The status is the number of
//! the first check that fails, from 1, and 0 where all hold.
//!
//! What a process opens gets the lowest descriptor that is free. So where output alone is closed the
//! first file would take its descriptor, and where all are closed the first socket after a journal.
#![tactic(auto)]

use ots_file::{FileDisk, SystemFile};
use ots_journal::{Journal, MAX_JOURNAL};
use std::alloc::AllocError;
use std::fs;
use std::process::ExitCode;
use std::sync::Wait;
use std::thread::Threads;

const WRITE_FAULT: u8 = 7;

fn main(rt: HostRuntime) -> ExitCode {
    let _ = libc::close(1);
    let failed = match first_failed(&rt, &rt) {
        Ok(failed) => failed,
        Err(AllocError) => u8::MAX,
    };
    ExitCode::from(failed)
}

fn first_failed(
    rt: &HostRuntime,
    threads: &(impl Threads + Wait + Sync),
) -> Result<u8, AllocError> {
    // Each journal has one record. `tip` and `batch` print once theirs is stored, the mirror when its
    // journal is open, `serve` and the gateway before they serve.
    if !stores(rt, threads, "list.journal list", 1)? {
        return Ok(1);
    }
    if !stores(rt, threads, "tip.journal tip", 2)? {
        return Ok(2);
    }
    let words = "batch.journal batch --key key --uri http://127.0.0.1:1 digests";
    if !stores(rt, threads, words, 2)? {
        return Ok(3);
    }
    if client(rt, "info in.ots")? != WRITE_FAULT {
        return Ok(4);
    }
    // The line of a calendar is printed before a proof is made.
    let words = "stamp --calendars http://127.0.0.1:1 --min 1 digests";
    if client(rt, words)? != WRITE_FAULT || fs::read(rt, "digests.ots").is_ok() {
        return Ok(5);
    }
    let words = "upgrade --calendars http://127.0.0.1:1 in.ots upgraded.ots";
    if client(rt, words)? != WRITE_FAULT || fs::read(rt, "upgraded.ots").is_ok() {
        return Ok(6);
    }
    // It prints nothing.
    if client(rt, "canon in.ots canon.ots")? != 0 || !are_same(rt, "in.ots", "canon.ots") {
        return Ok(7);
    }
    if mirror(rt, "list.journal http://127.0.0.1:1 --rounds 1")? != WRITE_FAULT
        || count(rt, String::from_str(rt.alloc(), "list.journal")?) != Some(1)
    {
        return Ok(8);
    }
    for descriptor in [0, 2] {
        let _ = libc::close(descriptor);
    }
    let words = "serve.journal serve --key key --uri http://127.0.0.1:1 --port 47799";
    if !stores(rt, threads, words, 1)? {
        return Ok(9);
    }
    let words = "--calendars http://127.0.0.1:1 --min 1 --port 47798 --round 1 --accept 1";
    if gateway(rt, threads, words)? != WRITE_FAULT {
        return Ok(10);
    }
    Ok(0)
}

/// Whether the calendar can't print on these words, and leaves a journal of this number of records.
fn stores(
    rt: &HostRuntime,
    threads: &(impl Threads + Wait + Sync),
    words: &str,
    records: u64,
) -> Result<bool, AllocError> {
    let words = split(rt, words)?;
    let status = ots_calendar_program::run_words(rt, threads, rt.alloc(), &words);
    let name = match words.first() {
        Some(word) => String::from_str(rt.alloc(), word)?,
        None => String::new(rt.alloc()),
    };
    Ok(status.number() == WRITE_FAULT && count(rt, name) == Some(records))
}

/// How many records a journal has, if it opens.
fn count(rt: &HostRuntime, name: String) -> Option<u64> {
    let disk = FileDisk::new(SystemFile::new(rt, name));
    match Journal::open(rt.alloc(), disk, MAX_JOURNAL) {
        Ok(journal) => Some(journal.count()),
        Err(_) => None,
    }
}

/// What the client ends with.
fn client(rt: &HostRuntime, words: &str) -> Result<u8, AllocError> {
    let words = split(rt, words)?;
    Ok(ots_client_program::run_words(rt, rt.alloc(), &words).number())
}

/// What the mirror ends with.
fn mirror(rt: &HostRuntime, words: &str) -> Result<u8, AllocError> {
    let words = split(rt, words)?;
    Ok(ots_mirror_program::run_words(rt, rt.alloc(), &words).number())
}

/// What the gateway ends with.
fn gateway(rt: &HostRuntime, wait: &impl Wait, words: &str) -> Result<u8, AllocError> {
    let words = split(rt, words)?;
    Ok(ots_gateway_program::run_words(rt, wait, rt.alloc(), &words).number())
}

fn split(rt: &HostRuntime, words: &str) -> Result<Vec<String>, AllocError> {
    let mut list = Vec::new(rt.alloc());
    for word in words.split(' ') {
        list.push(String::from_str(rt.alloc(), word)?)?;
    }
    Ok(list)
}

fn are_same(rt: &HostRuntime, first: &str, second: &str) -> bool {
    match (fs::read(rt, first), fs::read(rt, second)) {
        (Ok(first), Ok(second)) => first.as_slice() == second.as_slice(),
        _ => false,
    }
}
