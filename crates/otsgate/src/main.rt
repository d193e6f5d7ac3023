//! The aggregation gateway `otsgate`.
#![tactic(auto)]

use ots_gateway_program::run_program;
use std::process::ExitCode;

fn main(rt: HostRuntime) -> ExitCode {
    run_program(&rt, &rt)
}
