//! What the program's own file says of it.

use std::fs;
use std::fs::Files;

/// Where the system shows the file of the program that runs.
const OWN_FILE: &str = "/proc/self/exe";

/// How the toolchain's note begins that names the logic in which a program is proved. Hexadecimal digits follow.
const PROVED: &[u8] = b"rattle logic=";

/// Whether a part of the file, between bytes 0, is that note.
fn is_note(part: &[u8]) -> bool {
    match part.strip_prefix(PROVED) {
        Some(digits) => !digits.is_empty() && digits.iter().all(|digit| digit.is_ascii_hexdigit()),
        None => false,
    }
}

/// Whether the program's file names the logic in which it is proved; not known where it can't be read.
pub fn is_proved<R: AllocGlobal + Files>(rt: &R) -> Option<bool> {
    let file = fs::read(rt, OWN_FILE).ok()?;
    Some(file.split(|byte| *byte == 0).any(is_note))
}
