//! The client `ots` once more, whose stored run is refused: it shows that the status is passed on.
#![tactic(auto)]

use ots_client_program::run_program;
use std::process::ExitCode;

fn main(rt: HostRuntime) -> ExitCode {
    run_program(&rt)
}
