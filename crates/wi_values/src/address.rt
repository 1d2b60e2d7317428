//! A cell's address.

ghost use Rattle.std.specs.Prelude.{◌≡◌, ◌+◌, ◌<◌, ◌≤◌, ◌↔◌, ◌++◌, ℕ, IsSome, IfSome, OnOk, OnErr, min, length, decimal, string_bytes, string_len, string_capacity};
ghost use Rattle.std.specs.Char.{is_ascii_alphabetic};
ghost use Rattle.std.specs.List.{prefix_len};
ghost use Rattle.std.specs.Str.{all_ascii_digits};
ghost use Rattle.std.specs.Str.Parse.{digits_value};
ghost use Rattle.wi_values.specs.Address.{columns, rows, place, row_of, column_of, letters_value, letters_within, column_letters, address_text, is_row_number};
ghost use Rattle.wi_values.specs.AddressReading.{address_at, read_address};

use itoa::Buffer;
use std::alloc::AllocError;
use std::marker::Model;
use thiserror::Error;

/// How many columns a sheet has: A to XFD.
pub const COLUMNS: u32 = 16_384;

/// How many rows a sheet has.
pub const ROWS: u32 = 1_048_576;

/// Why a text is no address.
#[derive(Clone, Copy, PartialEq, Eq, Debug, Error)]
pub enum AddressFault {
    #[error("no letters and digits of an address")]
    Shape,
    #[error("a cell outside the sheet")]
    Outside,
}

/// A cell's address, seen as its place in row-major order. The default is the first, A1.
#[derive(Clone, Copy, PartialEq, Eq, PartialOrd, Ord, Hash, Debug, Default)]
pub struct Address {
    place: u64,
}

impl Model for Address {
    ghost use Rattle.std.specs.Prelude.{ℕ, ◌<◌, ◌*◌};
    ghost use Rattle.wi_values.specs.Address.{columns, rows};

    ghost Value = { ℕ };

    ghost view = { λ a. a.place };

    ghost invariant = { λ a. a.place < rows * columns };

    ghost inverse = { λ n. record { place = n } };
}

impl Address {
    /// The cell at a row and a column, both counted from 0; none outside the sheet.
    pub fn new(row: u32, column: u32) -> Option<Address>
        ensures within { IsSome result ↔ ((row < rows) × (column < columns)) }
        ensures place { IfSome result (λ a. a ≡ place row column) }
    {
        if row < ROWS && column < COLUMNS {
            Some(Address::at(row, column))
        } else {
            None
        }
    }

    /// The cell at a row and a column of the sheet, both counted from 0.
    pub fn at(row: u32, column: u32) -> Address
        requires row_within { row < rows }
        requires column_within { column < columns }
        ensures { result ≡ place row column }
    {
        Address {
            place: u64::from(row) * u64::from(COLUMNS) + u64::from(column),
        }
    }

    /// The row, counted from 0.
    pub fn row(self) -> u32
        ensures value { result ≡ row_of self }
        ensures within { result < rows }
    {
        (self.place / u64::from(COLUMNS)) as u32
    }

    /// The column, counted from 0.
    pub fn column(self) -> u32
        ensures value { result ≡ column_of self }
        ensures within { result < columns }
    {
        (self.place % u64::from(COLUMNS)) as u32
    }

    /// The cell with these column letters, of either case, and this row number, which is counted from 1; none outside
    /// the sheet. There may be any number of letters and digits.
    #[tactic(auto, unfolding(crate::specs::AddressReading::address_at))]
    pub fn from_parts(letters: &[u8], digits: &[u8]) -> Option<Address>
        ensures { result ≡ address_at letters.now digits.now }
    {
        let row = row_number(digits);
        let column = column_number(letters);
        if row == 0 || column == 0 {
            return None;
        }
        Address::new(row - 1, column - 1)
    }

    /// The cell that a text such as `B12` names: letters of either case, then digits, the first not `0`.
    #[tactic(auto, unfolding(crate::specs::AddressReading::read_address))]
    pub fn read(bytes: &[u8]) -> Result<Address, AddressFault>
        ensures { result ≡ read_address bytes.now }
    {
        let (letters, digits) = bytes.split_at(letters_len(bytes));
        if letters.is_empty() || !is_row_number(digits) {
            return Err(AddressFault::Shape);
        }
        Address::from_parts(letters, digits).ok_or(AddressFault::Outside)
    }

    /// Appends the text, as `B12`. On an error the text is as before.
    #[tactic(auto, unfolding(crate::specs::Address::address_text))]
    pub fn push_text(self, text: &mut String) -> Result<(), AllocError>
        ensures ok { OnOk result
            (string_bytes text.new ≡ string_bytes text.old ++ address_text self) }
        ensures err { OnErr result (string_bytes text.new ≡ string_bytes text.old) }
    {
        let mut buffer = Buffer::new();
        let row = buffer.format(self.row() + 1);
        text.reserve(3 + row.len())?;
        push_letters(3, self.column() + 1, text);
        text.push_str(row)
    }

    /// Appends the letters of the column, as `B`. On an error the text is as before.
    pub fn push_column(self, text: &mut String) -> Result<(), AllocError>
        ensures ok { OnOk result
            (string_bytes text.new ≡ string_bytes text.old ++ column_letters (column_of self)) }
        ensures err { OnErr result (string_bytes text.new ≡ string_bytes text.old) }
    {
        text.reserve(3)?;
        push_letters(3, self.column() + 1, text);
        Ok(())
    }

    /// Appends the number of the row, counted from 1. On an error the text is as before.
    pub fn push_row(self, text: &mut String) -> Result<(), AllocError>
        ensures ok { OnOk result
            (string_bytes text.new ≡ string_bytes text.old ++ decimal (row_of self + 1)) }
        ensures err { OnErr result (string_bytes text.new ≡ string_bytes text.old) }
    {
        let mut buffer = Buffer::new();
        text.push_str(buffer.format(self.row() + 1))
    }
}

/// How many letters the bytes begin with.
fn letters_len(bytes: &[u8]) -> usize
    ensures value { result ≡ prefix_len is_ascii_alphabetic bytes.now }
    ensures within { result ≤ length bytes.now }
{
    for (i, c) in bytes.iter().enumerate() {
        if !c.is_ascii_alphabetic() {
            return i;
        }
    }
    bytes.len()
}

/// Whether these are digits, one at least, and the first is not `0`.
fn is_row_number(digits: &[u8]) -> bool
    ensures { result ≡ is_row_number digits.now }
{
    !digits.is_empty() && are_digits(digits) && digits[0] != b'0'
}

fn are_digits(bytes: &[u8]) -> bool
    ensures { result ≡ all_ascii_digits bytes.now }
{
    bytes.iter().all(|c| c.is_ascii_digit())
}

/// The number of a column, counted from 1, or one too large for a sheet.
fn column_number(letters: &[u8]) -> u32
    ensures { result ≡ min (letters_value letters.now) (columns + 1) }
{
    let mut number = 0;
    for letter in letters {
        let digit = u32::from(letter.to_ascii_uppercase().saturating_sub(b'A' - 1));
        number = (number * 26 + digit).min(COLUMNS + 1);
    }
    number
}

/// The number of a row, counted from 1, or one too large for a sheet. A letter counts as in base 36, and any other
/// byte that is no digit as 36.
fn row_number(digits: &[u8]) -> u32
    ensures { result ≡ min (digits_value 10 digits.now) (rows + 1) }
{
    let mut number = 0;
    for c in digits {
        let digit = char::from(*c).to_digit(36).unwrap_or(36);
        number = (number * 10 + digit).min(ROWS + 1);
    }
    number
}

/// Appends the letters of the column with this number, counted from 1, at most so many.
fn push_letters(most: u32, number: u32, text: &mut String)
    requires { string_len text.old + most ≤ string_capacity text.old }
    ensures bytes { string_bytes text.new ≡ string_bytes text.old ++ letters_within most number }
    ensures len { string_len text.new ≤ string_len text.old + most }
    ensures capacity { string_capacity text.old ≤ string_capacity text.new }
{
    if most == 0 || number == 0 {
        return;
    }
    push_letters(most - 1, (number - 1) / 26, text);
    let last = ((number - 1) % 26) as u8;
    text.push(char::from(b'A' + last)).unwrap();
}
