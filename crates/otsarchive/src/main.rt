//! The archivist's program `otsarchive`.
#![tactic(auto)]

use ots_archive_program::run_program;
use std::process::ExitCode;

fn main(rt: HostRuntime) -> ExitCode {
    run_program(&rt)
}
