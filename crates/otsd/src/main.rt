//! The calendar `otsd`.
#![tactic(auto)]

use ots_calendar_program::run_program;
use std::process::ExitCode;

fn main(rt: HostRuntime) -> ExitCode {
    run_program(&rt, &rt)
}
