//! The mirror `otsmirror`.
#![tactic(auto)]

use ots_mirror_program::run_program;
use std::process::ExitCode;

fn main(rt: HostRuntime) -> ExitCode {
    run_program(&rt)
}
