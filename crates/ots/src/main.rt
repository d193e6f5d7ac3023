//! The client `ots`.
#![tactic(auto)]

use ots_client_program::run_program;
use std::process::ExitCode;

fn main(rt: HostRuntime) -> ExitCode {
    run_program(&rt)
}
