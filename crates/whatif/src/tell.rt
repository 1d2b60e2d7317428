//! What is told of faults, and with which exit status.

use crate::own::is_proved;
use std::fs::Files;
use std::io;
use std::io::{Eprint, ErrorKind, Print};
use wi_cli::{Exit, OptionsFault, RunFault, fault_status, options_status};

/// The exit status where a word can't be read, as after words that are no options.
const USAGE: u8 = 2;

/// What to do about a fault.
fn advice(fault: &RunFault) -> &'static str {
    match fault {
        RunFault::Memory => "ask for fewer values by --keep, or make memory free",
        RunFault::Read => "give a file that may be read",
        RunFault::Write => "look where standard output goes",
        RunFault::ScriptLimit => {
            "cut it between commands into scripts of at most 1,000,000 lines, one for --load and the next as standard input"
        }
    }
}

/// Tells how a run ended, where it ended by a fault.
pub fn tell_exit<R: Eprint>(rt: &R, exit: Exit) -> u8 {
    if let Err(fault) = exit.outcome {
        let _ = eprintln!(rt; "whatif: {fault}; {}", advice(&fault));
    }
    exit.status
}

/// Tells why a file can't be opened.
pub fn tell_unopened<R: Eprint>(rt: &R, path: &str, error: &io::Error) -> u8 {
    let fault = RunFault::Read;
    let _ = eprintln!(rt;
        "whatif: {path} can't be opened, {error}; {}",
        advice(&fault)
    );
    fault_status(&fault)
}

/// Tells that a path is a folder's.
pub fn tell_folder<R: Eprint>(rt: &R, path: &str) -> u8 {
    let fault = RunFault::Read;
    let _ = eprintln!(rt; "whatif: {path} is a folder; {}", advice(&fault));
    fault_status(&fault)
}

/// Tells whether the program is proved, behind its version.
fn tell_proof<R: AllocGlobal + Files + Print>(rt: &R) -> io::Result<()> {
    match is_proved(rt) {
        Some(true) => println!(rt; "proved"),
        Some(false) => println!(rt; "not proved"),
        None => Ok(()),
    }
}

/// Tells why words are no options, or help.
pub fn tell_fault<R: AllocGlobal + Files + Print + Eprint>(rt: &R, fault: &OptionsFault) -> u8 {
    let _ = match fault {
        OptionsFault::Help(text) | OptionsFault::Usage(text) => text.print(rt),
        OptionsFault::Version(text) => text.print(rt).and_then(|()| tell_proof(rt)),
        OptionsFault::Memory => eprintln!(rt; "whatif: {fault}; {}", advice(&RunFault::Memory)),
    };
    options_status(fault)
}

/// Tells why the words can't be read.
pub fn tell_unread<R: AllocGlobal + Files + Print + Eprint>(rt: &R, error: &io::Error) -> u8 {
    if error.kind() == ErrorKind::OutOfMemory {
        return tell_fault(rt, &OptionsFault::Memory);
    }
    let _ = eprintln!(rt;
        "whatif: a word is no UTF-8; name the file in UTF-8, or give it as standard input"
    );
    USAGE
}
