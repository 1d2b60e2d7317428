//! A case as standard input spells it.

use crate::byte_spelling::{number, parts, push_spelled};
use std::alloc::{AllocError, Global};
use std::io::Write;
use std::{io, mem};
use wi_store::Limits;

/// A script, and what it is run on.
#[derive(Drop)]
pub struct Case {
    pub title: String,
    /// The parts of the script that end with a count.
    pub counted: Vec<Vec<u8>>,
    /// The script, or what of it follows the last count.
    pub script: Vec<u8>,
    pub limits: Limits,
    /// Whether the number of restarts is told.
    pub restarts: bool,
}

impl Case {
    /// A case with an empty script.
    pub fn new(alloc: Global, title: &str) -> Result<Case, AllocError> {
        Ok(Case {
            title: String::from_str(alloc, title)?,
            counted: Vec::new(alloc),
            script: Vec::new(alloc),
            limits: Limits::standard(),
            restarts: false,
        })
    }

    /// Takes a line of the case.
    pub fn take(&mut self, alloc: Global, line: &str) -> io::Result<()> {
        match line.split_once(' ') {
            Some(("@bytes", text)) => push_spelled(text, &mut self.script)?,
            Some(("@rows", text)) => push_rows(text, &mut self.script)?,
            Some(("@cells", count)) => self.limits.cells = number(count)?,
            Some(("@edits", count)) => self.limits.edits = number(count)?,
            _ => self.take_word(alloc, line)?,
        }
        Ok(())
    }

    /// Takes a line that is a word of its own, or a line of the script.
    fn take_word(&mut self, alloc: Global, line: &str) -> io::Result<()> {
        match line {
            "@count" => {
                let part = mem::replace(&mut self.script, Vec::new(alloc));
                self.counted.push(part)?;
            }
            "@restarts" => self.restarts = true,
            _ => {
                self.script.extend_from_slice(line.as_bytes())?;
                self.script.push(b'\n')?;
            }
        }
        Ok(())
    }
}

/// Appends a line for each of some numbers: `2..4 set A# =[.A#-1]` for A2 to A4.
fn push_rows(text: &str, script: &mut Vec<u8>) -> io::Result<()> {
    let (numbers, line) = parts(text, " ")?;
    let (first, last) = parts(numbers, "..")?;
    for row in number(first)?..=number(last)? {
        push_row(line, row, script)?;
    }
    Ok(())
}

fn push_row(line: &str, row: u64, script: &mut Vec<u8>) -> io::Result<()> {
    let mut pieces = line.split('#');
    if let Some(front) = pieces.next() {
        script.extend_from_slice(front.as_bytes())?;
    }
    for piece in pieces {
        let (number, rest) = numbered(piece, row);
        write!(script, "{number}{rest}")?;
    }
    script.push(b'\n')?;
    Ok(())
}

/// The number that stands in the place of # in a row's line, and what follows it.
fn numbered(text: &str, row: u64) -> (u64, &str) {
    if let Some(rest) = text.strip_prefix("-1") {
        (row.saturating_sub(1), rest)
    } else if let Some(rest) = text.strip_prefix("+1") {
        (row.saturating_add(1), rest)
    } else {
        (row, text)
    }
}
