//! The cells that references name.

ghost use Rattle.std.specs.Prelude.{◌≡◌, ◌≤◌, length};
ghost use Rattle.wi_lexer.specs.Inner.Cell as spec;

use crate::runs::{byte, digits_len, letters_len};

/// A cell as a formula writes it: the letters of its column, of either case, and the digits of its row.
#[derive(Clone, Copy)]
pub struct CellText<'a> {
    /// Whether a `$` stands before the letters.
    pub column_is_absolute: bool,
    pub letters: &'a [u8],
    /// Whether a `$` stands before the digits.
    pub row_is_absolute: bool,
    pub digits: &'a [u8],
}

/// Whether a `$` stands first, and what follows it.
fn after_dollar(text: &[u8]) -> (bool, &[u8])
    ensures absolute { result.0 ≡ spec.begins_with_dollar text.now }
    ensures rest { result.1.now ≡ spec.after_dollar text.now }
{
    if byte(text, 0) == b'$' {
        return (true, &text[1..]);
    }
    (false, text)
}

/// The text cut into the parts of a cell, which it may not be.
pub(crate) fn cut(text: &[u8]) -> CellText<'_>
    ensures { spec.parts result ≡ spec.cut text.now }
{
    let (column_is_absolute, column) = after_dollar(text);
    let (letters, row) = column.split_at(letters_len(column));
    let (row_is_absolute, digits) = after_dollar(row);
    CellText {
        column_is_absolute,
        letters,
        row_is_absolute,
        digits,
    }
}

/// How long a `$` at the front is.
fn dollar_len(text: &[u8]) -> usize
    ensures value { result ≡ spec.dollar_len text.now }
    ensures within { result ≤ length text.now }
{
    if byte(text, 0) == b'$' { 1 } else { 0 }
}

#[tactic(auto, unfolding(crate::specs::Inner::Cell::column_len))]
fn column_len(text: &[u8]) -> usize
    ensures value { result ≡ spec.column_len text.now }
    ensures within { result ≤ length text.now }
{
    let dollar = dollar_len(text);
    let letters = letters_len(&text[dollar..]);
    if letters > 0 { dollar + letters } else { 0 }
}

#[tactic(auto, unfolding(crate::specs::Inner::Cell::row_len))]
fn row_len(text: &[u8]) -> usize
    ensures value { result ≡ spec.row_len text.now }
    ensures within { result ≤ length text.now }
{
    let dollar = dollar_len(text);
    let row = &text[dollar..];
    if byte(row, 0) <= b'0' {
        return 0;
    }
    let digits = digits_len(row);
    if digits > 0 { dollar + digits } else { 0 }
}

/// The length of the cell at the front, or 0 where none stands there.
#[tactic(auto, unfolding(crate::specs::Inner::Cell::cell_len))]
pub(crate) fn cell_len(text: &[u8]) -> usize
    ensures value { result ≡ spec.cell_len text.now }
    ensures within { result ≤ length text.now }
{
    let column = column_len(text);
    if column == 0 {
        return 0;
    }
    let row = row_len(&text[column..]);
    if row > 0 { column + row } else { 0 }
}
