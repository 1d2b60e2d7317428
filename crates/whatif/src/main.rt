//! The program: runs the script that standard input gives on a new workbook, after one that its command-line arguments
//! may name, and writes the replies to standard output.
#![tactic(auto)]

mod own;
mod program;
mod tell;

use std::process::ExitCode;

fn main(rt: HostRuntime) -> ExitCode {
    ExitCode::from(program::run(&rt))
}
