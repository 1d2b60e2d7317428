//! The line of the command `csv`, as it is read. It asks for data lines also where it isn't UTF-8.

ghost use Rattle.std.specs.Prelude.{◌≡◌, true, min, Some, None, if◌then◌else◌, IfSome};
ghost use Rattle.std.specs.Str.{all_ascii_digits};
ghost use Rattle.std.specs.Str.Parse.{digits_value};
ghost use Rattle.wi_cli.specs.Inner.Script.{read_lines, csv_operands, csv_named, csv_text};
ghost use Rattle.wi_cli.specs.Inner.Data.{IsCsv};

use crate::lines::MAX_LINES;
use crate::words::{is_all_spaces, split_bytes};
use wi_values::{Address, AddressFault};

/// A line that asks for data lines.
#[derive(Clone, Copy)]
pub struct CsvLine {
    pub force: bool,
    /// Whether the line is UTF-8.
    pub is_text: bool,
    pub at: Result<Address, AddressFault>,
    /// How many data lines it asks for.
    pub lines: u32,
}

/// The number that these bytes write, at most one more than the greatest number of lines; none where one is no digit.
fn number_of(digits: &[u8]) -> Option<u32>
    ensures { result ≡ if all_ascii_digits digits.now
        then Some (min (digits_value 10 digits.now) 1000001) else None }
{
    let mut number = 0;
    for c in digits {
        let digit = char::from(*c).to_digit(10)?;
        number = (number * 10 + digit).min(MAX_LINES + 1);
    }
    Some(number)
}

/// The number of lines: 1 to 7 digits, and at most 1,000,000.
fn read_lines(word: &[u8]) -> Option<u32>
    ensures { result ≡ read_lines word.now }
{
    if word.is_empty() || word.len() > 7 {
        return None;
    }
    let lines = number_of(word)?;
    if lines <= MAX_LINES {
        Some(lines)
    } else {
        None
    }
}

/// `ADDR LINES`.
pub(crate) fn read_csv(force: bool, operands: &[u8]) -> Option<CsvLine>
    ensures read { IsCsv (csv_operands force operands.now) result }
    ensures text { IfSome result (λ csv. csv.is_text ≡ true) }
{
    let (address, others) = split_bytes(operands);
    let (lines, more) = split_bytes(others);
    if !is_all_spaces(more) {
        return None;
    }
    let lines = read_lines(lines)?;
    Some(CsvLine {
        force,
        is_text: true,
        at: Address::read(address),
        lines,
    })
}

/// The edit of this name, where it is `csv`.
fn read_csv_named(force: bool, name: &[u8], operands: &[u8]) -> Option<CsvLine>
    ensures { IsCsv (csv_named force name.now operands.now) result }
{
    if name == b"csv".as_slice() {
        read_csv(force, operands)
    } else {
        None
    }
}

/// Bytes that need not be UTF-8, in which `force` may stand before `csv`.
pub(crate) fn read_csv_bytes(bytes: &[u8]) -> Option<CsvLine>
    ensures { IsCsv (csv_text bytes.now) result }
{
    let (name, operands) = split_bytes(bytes);
    if name == b"force".as_slice() {
        let (name, operands) = split_bytes(operands);
        read_csv_named(true, name, operands)
    } else {
        read_csv_named(false, name, operands)
    }
}
