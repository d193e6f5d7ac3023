//! What the program `otsmirror` does: it makes the real objects, calls `run_mirror`, and ends with its
//! status's number. The program over it is one line.
#![tactic(auto)]

use ots_file::{FileDisk, SystemFile};
use ots_io::{StdSink, TcpDialer};
use ots_mirror::{MirrorStatus, run_mirror};
use ots_program_words::{first_word, read_words};
use ots_standard_streams::{StandardOutput, StandardStreams};
use std::alloc::{AllocError, Global};
use std::io;
use std::process::ExitCode;

/// Runs the mirror on the words after the program's name, and answers the number of its status as an
/// exit code.
pub fn run_program(rt: &HostRuntime) -> ExitCode {
    let status = match read_words(rt, rt.alloc()) {
        Ok(words) => run_words(rt, rt.alloc(), &words),
        Err(AllocError) => MirrorStatus::OutOfMemory,
    };
    ExitCode::from(status.number())
}

/// Runs the mirror on these words, over the file that the first of them names, standard output and
/// sockets to the calendar. `WriteFault` also where the standard descriptors can't be kept from the
/// file and the sockets: then nothing is done.
pub fn run_words(rt: &HostRuntime, alloc: Global, words: &[String]) -> MirrorStatus {
    match StandardStreams::keep(rt) {
        Ok(_streams) => run(rt, alloc, words).unwrap_or(MirrorStatus::OutOfMemory),
        Err(_) => MirrorStatus::WriteFault,
    }
}

/// Runs the mirror over the real objects.
fn run(rt: &HostRuntime, alloc: Global, words: &[String]) -> Result<MirrorStatus, AllocError> {
    let disk = FileDisk::new(SystemFile::new(rt, first_word(alloc, words)?));
    let mut out = StdSink::new(StandardOutput::new(rt, io::writer(rt)));
    let mut dialer = TcpDialer::new(rt, alloc);
    let (status, _disk) = run_mirror(alloc, words, disk, &mut out, &mut dialer);
    Ok(status)
}
