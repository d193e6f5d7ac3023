//! What the program `otsd` does: it makes the real objects, calls `run_calendar`, and ends with its
//! status's number. The programs over it are one line each, so that what one stored run shows of
//! this body holds of the other too.
#![tactic(auto)]

use ots_calendar_commands::{DaemonStatus, run_calendar};
use ots_file::{FileDisk, SystemFile};
use ots_io::{DirShelf, RngNonces, StdSink, SystemClock, TcpAccepter};
use ots_program_words::{first_word, read_words};
use ots_standard_streams::{StandardOutput, StandardStreams};
use rand::rngs::SysRng;
use std::alloc::{AllocError, Global};
use std::io;
use std::process::ExitCode;
use std::sync::Wait;
use std::thread::Threads;

/// Runs the calendar on the words after the program's name, and answers the number of its status as
/// an exit code. Connections are served in threads of `threads`, which is the same runtime as `main`
/// has it: only there can it start any.
pub fn run_program(rt: &HostRuntime, threads: &(impl Threads + Wait + Sync)) -> ExitCode {
    let status = match read_words(rt, rt.alloc()) {
        Ok(words) => run_words(rt, threads, rt.alloc(), &words),
        Err(AllocError) => DaemonStatus::OutOfMemory,
    };
    ExitCode::from(status.number())
}

/// Runs the calendar on these words, over the file that the first of them names, the files, standard
/// output, the system's sockets, clock and random source. `WriteFault` also where the standard
/// descriptors can't be kept from files and sockets: then nothing is done.
pub fn run_words(
    rt: &HostRuntime,
    threads: &(impl Threads + Wait + Sync),
    alloc: Global,
    words: &[String],
) -> DaemonStatus {
    match StandardStreams::keep(rt) {
        Ok(_streams) => run(rt, threads, alloc, words).unwrap_or(DaemonStatus::OutOfMemory),
        Err(_) => DaemonStatus::WriteFault,
    }
}

/// Runs the calendar over the real objects.
fn run(
    rt: &HostRuntime,
    threads: &(impl Threads + Wait + Sync),
    alloc: Global,
    words: &[String],
) -> Result<DaemonStatus, AllocError> {
    let disk = FileDisk::new(SystemFile::new(rt, first_word(alloc, words)?));
    let mut shelf = DirShelf::new(rt, alloc);
    let mut out = StdSink::new(StandardOutput::new(rt, io::writer(rt)));
    let (status, _returned) = run_calendar(
        threads,
        alloc,
        words,
        disk,
        &mut shelf,
        &mut out,
        TcpAccepter::new(rt, alloc),
        SystemClock::new(rt),
        RngNonces::new(SysRng::new(rt)),
    );
    Ok(status)
}
