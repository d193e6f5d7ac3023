//! What the program `otsgate` does: it makes the real objects, calls `run_gateway`, and ends with its
//! status's number. The program over it is one line.
#![tactic(auto)]

use ots_gateway_run::run_gateway;
use ots_gateway_words::GateStatus;
use ots_io::{RngNonces, StdSink, TcpAccepter, TcpDialer};
use ots_program_words::read_words;
use ots_standard_streams::{StandardOutput, StandardStreams};
use rand::rngs::SysRng;
use std::alloc::{AllocError, Global};
use std::io;
use std::process::ExitCode;
use std::sync::Wait;

/// Runs the gateway on the words after the program's name, and answers the number of its status as an
/// exit code. It waits by `wait`, which is the same runtime as `main` has it.
pub fn run_program(rt: &HostRuntime, wait: &impl Wait) -> ExitCode {
    let status = match read_words(rt, rt.alloc()) {
        Ok(words) => run_words(rt, wait, rt.alloc(), &words),
        Err(AllocError) => GateStatus::OutOfMemory,
    };
    ExitCode::from(status.number())
}

/// Runs the gateway on these words, over standard output, the system's sockets and its random source.
/// `WriteFault` also where the standard descriptors can't be kept from the sockets: then nothing is
/// done.
pub fn run_words(
    rt: &HostRuntime,
    wait: &impl Wait,
    alloc: Global,
    words: &[String],
) -> GateStatus {
    match StandardStreams::keep(rt) {
        Ok(_streams) => run(rt, wait, alloc, words),
        Err(_) => GateStatus::WriteFault,
    }
}

/// Runs the gateway over the real objects.
fn run(rt: &HostRuntime, wait: &impl Wait, alloc: Global, words: &[String]) -> GateStatus {
    run_gateway(
        wait,
        alloc,
        words,
        &mut TcpAccepter::for_rounds(rt, alloc),
        &mut TcpDialer::for_rounds(rt, alloc),
        &mut RngNonces::new(SysRng::new(rt)),
        &mut StdSink::new(StandardOutput::new(rt, io::writer(rt))),
    )
}
