//! `pathd`, a path segment server for the core ASes of a SCION network.
//!
//! What the words of its command line ask for is done by `cli_program`; here are the program's
//! input, output and status alone.
#![tactic(auto)]

use cli_program::carry_out;
use std::fs::File;
use std::net::{TcpListener, TcpStream};
use std::process::ExitCode;

fn main(rt: HostRuntime) -> ExitCode {
    // The prover takes the handles of a runtime from the types that `main` names.
    let none: (Option<File>, Option<TcpListener>, Option<TcpStream>) = (None, None, None);
    let status = carry_out(&rt, rt.stdin(), rt.stdout());
    drop(none);
    ExitCode::from(status)
}
