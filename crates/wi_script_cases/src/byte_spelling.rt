//! How cases spell bytes that can't stand in a line.

use std::io;

/// What a case that can't be read gives.
pub fn misspelled() -> io::Error {
    io::ErrorKind::InvalidData.into()
}

/// The number that decimal digits spell.
pub fn number(digits: &str) -> io::Result<u64> {
    digits.parse::<u64>().ok().ok_or_else(misspelled)
}

/// The two parts of a text, before and behind a mark.
pub fn parts<'a>(text: &'a str, mark: &str) -> io::Result<(&'a str, &'a str)> {
    text.split_once(mark).ok_or_else(misspelled)
}

/// Appends the bytes that a text spells: `\n`, `\r` and `\x` with two hexadecimal digits are a byte each, and all else
/// is itself.
pub fn push_spelled(text: &str, bytes: &mut Vec<u8>) -> io::Result<()> {
    let mut pieces = text.split('\\');
    if let Some(front) = pieces.next() {
        bytes.extend_from_slice(front.as_bytes())?;
    }
    for piece in pieces {
        push_escape(piece, bytes)?;
    }
    Ok(())
}

/// Appends the byte that stands behind a backslash, and what follows it.
fn push_escape(text: &str, bytes: &mut Vec<u8>) -> io::Result<()> {
    let (byte, rest) = unescaped(text).ok_or_else(misspelled)?;
    bytes.push(byte)?;
    bytes.extend_from_slice(rest.as_bytes())?;
    Ok(())
}

/// The byte that stands behind a backslash, and what follows it.
fn unescaped(text: &str) -> Option<(u8, &str)> {
    match text.split_at_checked(1)? {
        ("n", rest) => Some((b'\n', rest)),
        ("r", rest) => Some((b'\r', rest)),
        ("x", rest) => hexadecimal(rest),
        _ => None,
    }
}

/// The byte that two digits spell, and what follows them.
fn hexadecimal(text: &str) -> Option<(u8, &str)> {
    let (digits, rest) = text.split_at_checked(2)?;
    Some((u8::from_str_radix(digits, 16).ok()?, rest))
}
