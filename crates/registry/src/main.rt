//! The registry's program: `once` serves one connection, whose bytes come on standard input and go to standard output,
//! from a directory of link files.
//! `reg_run::run_plain` promises what is written and which status is told; here it is handed the real devices: the
//! directory of `--root`, the standard streams, the system's clock.
//! Requests and replies are HTTP/1.1 (RFC 9112), as in the OCI Distribution Specification 1.1.
#![tactic(auto)]

mod devices;
mod program;

use std::process::ExitCode;

fn main(rt: HostRuntime) -> ExitCode {
    ExitCode::from(program::run(&rt))
}
