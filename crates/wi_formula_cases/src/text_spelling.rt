//! How cases spell texts: `{3*ab}` stands for `ababab`, and `{a0}` for the character of that hexadecimal number.

use std::alloc::Global;

/// A text without the quotes that it stands in.
pub fn unquoted(operand: &str) -> Option<&str> {
    operand.strip_prefix("\"")?.strip_suffix("\"")
}

/// The character of a hexadecimal number.
fn character(digits: &str) -> Option<char> {
    char::from_u32(u32::from_str_radix(digits, 16).ok()?)
}

/// Appends a text so many times.
fn push_repeated(count: &str, repeated: &str, text: &mut String) -> Option<()> {
    for _ in 0..count.parse::<u32>().ok()? {
        text.push_str(repeated).ok()?;
    }
    Some(())
}

/// Appends what stands in braces stands for.
fn push_short(short: &str, text: &mut String) -> Option<()> {
    match short.split_once('*') {
        Some((count, repeated)) => push_repeated(count, repeated, text),
        None => text.push(character(short)?).ok(),
    }
}

/// Appends what a piece of a part stands for, which began with a brace where it has one that closes.
fn push_piece(piece: &str, text: &mut String) -> Option<()> {
    let Some((short, rest)) = piece.split_once('}') else {
        return text.push_str(piece).ok();
    };
    push_short(short, text)?;
    text.push_str(rest).ok()
}

/// Appends the text that a part of a case stands for.
fn push_spelled(part: &str, text: &mut String) -> Option<()> {
    for piece in part.split('{') {
        push_piece(piece, text)?;
    }
    Some(())
}

/// The text that a part of a case stands for.
pub fn spelled(alloc: Global, part: &str) -> Option<String> {
    let mut text = String::new(alloc);
    push_spelled(part, &mut text)?;
    Some(text)
}
