//! What the program `otsarchive` does: it makes the real objects, calls `run_archive`, and ends with its status's
//! number. The program over it is one line. It opens no connection.
#![tactic(auto)]

use ots_archive::{ArchiveStatus, run_archive};
use ots_archive_world::Handed;
use ots_io::{DirShelf, RngNonces, StdSink};
use ots_program_words::read_words;
use ots_standard_streams::{StandardOutput, StandardStreams};
use rand::rngs::SysRng;
use std::alloc::{AllocError, Global};
use std::io;
use std::process::ExitCode;

/// Runs `otsarchive` on the words after the program's name, and answers the number of its status as an exit code.
pub fn run_program(rt: &HostRuntime) -> ExitCode {
    let status = match read_words(rt, rt.alloc()) {
        Ok(words) => run_words(rt, rt.alloc(), &words),
        Err(AllocError) => ArchiveStatus::OutOfMemory,
    };
    ExitCode::from(status.number())
}

/// Runs `otsarchive` on these words, over the files, standard output and the system's random source. `WriteFault` also
/// where the standard descriptors can't be kept from files: then nothing is done.
pub fn run_words(rt: &HostRuntime, alloc: Global, words: &[String]) -> ArchiveStatus {
    match StandardStreams::keep(rt) {
        Ok(_streams) => run(rt, alloc, words),
        Err(_) => ArchiveStatus::WriteFault,
    }
}

/// Runs `otsarchive` over the real objects.
fn run(rt: &HostRuntime, alloc: Global, words: &[String]) -> ArchiveStatus {
    let mut world = Handed {
        shelf: DirShelf::new(rt, alloc),
        out: StdSink::new(StandardOutput::new(rt, io::writer(rt))),
        nonces: RngNonces::new(SysRng::new(rt)),
    };
    run_archive(alloc, words, &mut world)
}
