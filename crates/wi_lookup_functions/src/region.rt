//! Rows and columns of a rectangle.

ghost use Rattle.std.specs.Prelude.{◌≡◌, ◌+◌, ◌<◌, IfOk};
ghost use Rattle.wi_values.specs.Address.{column_of, height, place, row_of, width};
ghost use Rattle.wi_standard_functions.specs.Lookup.{position_among};
ghost use Rattle.wi_lookup_functions.specs.Inner.Lines.{first_column, first_row, is_line, steps};

use wi_values::{Address, ErrorKind, Rect};

/// The place, from 0, of the k-th of so many.
pub(crate) fn place_among(count: u32, k: i128) -> Result<u32, ErrorKind>
    ensures place { result ≡ position_among count k }
    ensures within { IfOk result (λ i. i < count) }
{
    if k < 1 {
        return Err(ErrorKind::BadValue);
    }
    if k.unsigned_abs() > u128::from(count) {
        return Err(ErrorKind::BadReference);
    }
    Ok((k.unsigned_abs() - 1) as u32)
}

/// The cell at a row and a column, both counted from 0.
pub(crate) fn cell_at(area: Rect, row: u32, column: u32) -> Address
    requires row_within { row < height area }
    requires column_within { column < width area }
    ensures { result ≡ place (row_of area.first + row) (column_of area.first + column) }
{
    Address::at(area.first().row() + row, area.first().column() + column)
}

/// Its first column. It has a row at least.
pub(crate) fn first_column(area: Rect) -> Rect
    ensures column { result ≡ first_column area }
    ensures some { 0 < height area }
{
    let _ = area.height();
    let (first, last) = (area.first(), area.last());
    Rect::new(first, Address::at(last.row(), first.column()))
}

/// Its first row. It has a column at least.
pub(crate) fn first_row(area: Rect) -> Rect
    ensures row { result ≡ first_row area }
    ensures some { 0 < width area }
{
    let _ = area.width();
    let (first, last) = (area.first(), area.last());
    Rect::new(first, Address::at(first.row(), last.column()))
}

/// How many steps a cell is after the first, in a rectangle of one row or one column.
pub(crate) fn steps(line: Rect, cell: Address) -> u32
    ensures { result ≡ steps line cell }
{
    let rows = cell.row().saturating_sub(line.first().row());
    let columns = cell.column().saturating_sub(line.first().column());
    rows + columns
}

/// Whether it is one row or one column.
pub(crate) fn is_line(area: Rect) -> bool
    ensures { result ≡ is_line area }
{
    area.height() == 1 || area.width() == 1
}
