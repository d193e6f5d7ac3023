//! What the program `ots` does: it makes the real objects, calls `run_client`, and ends with its
//! status's number. The programs over it are one line each, so that what one stored run shows of
//! this body holds of the other too.
#![tactic(auto)]

use ots_cli::{Status, run_client};
use ots_io::{DirShelf, RngNonces, StdSink, TcpDialer};
use ots_program_words::read_words;
use ots_standard_streams::{StandardOutput, StandardStreams};
use rand::rngs::SysRng;
use std::alloc::{AllocError, Global};
use std::io;
use std::process::ExitCode;

/// Runs the client on the words after the program's name, and answers the number of its status as an
/// exit code.
pub fn run_program(rt: &HostRuntime) -> ExitCode {
    let status = match read_words(rt, rt.alloc()) {
        Ok(words) => run_words(rt, rt.alloc(), &words),
        Err(AllocError) => Status::OutOfMemory,
    };
    ExitCode::from(status.number())
}

/// Runs the client on these words, over the files, standard output, sockets to calendars and the
/// system's random source. `WriteFault` also where the standard descriptors can't be kept from files
/// and sockets: then nothing is done.
pub fn run_words(rt: &HostRuntime, alloc: Global, words: &[String]) -> Status {
    match StandardStreams::keep(rt) {
        Ok(_streams) => run(rt, alloc, words),
        Err(_) => Status::WriteFault,
    }
}

/// Runs the client over the real objects.
fn run(rt: &HostRuntime, alloc: Global, words: &[String]) -> Status {
    let mut shelf = DirShelf::new(rt, alloc);
    let mut out = StdSink::new(StandardOutput::new(rt, io::writer(rt)));
    let mut dialer = TcpDialer::new(rt, alloc);
    let mut nonces = RngNonces::new(SysRng::new(rt));
    run_client(alloc, words, &mut shelf, &mut out, &mut dialer, &mut nonces)
}
