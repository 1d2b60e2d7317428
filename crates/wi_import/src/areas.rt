//! The rectangles of records.

ghost use Rattle.std.specs.Prelude.{◌≡◌, false, IfOk};
ghost use Rattle.std.specs.List.{list_any};
ghost use Rattle.wi_values.specs.Address.{row_of, column_of};
ghost use Rattle.wi_import.specs.Fields.{fields_of, fields_from, areas_from};
ghost use Rattle.wi_import.specs.Inner.Reading.{is_outside};
ghost use Rattle.wi_import.specs.Inner.Records.{bytes_of, all_bytes, area_of_record};

use std::alloc::{AllocError, Global};
use wi_values::{Address, Rect};

/// The rectangles of these records, the first from this cell on. No field is for a cell outside the sheet.
/// Room for one of each record, and no more, is made before the first.
pub(crate) fn areas(
    alloc: Global,
    at: Address,
    records: &[Vec<Vec<u8>>],
) -> Result<Vec<Rect>, AllocError>
    requires { list_any is_outside (fields_from (row_of at) (column_of at) (all_bytes records.now))
        ≡ false }
    ensures { IfOk result
        (λ areas. areas.items ≡ areas_from (row_of at) (column_of at) (all_bytes records.now)) }
{
    let mut areas = Vec::with_capacity(alloc, records.len())?;
    for (i, fields) in records.iter().enumerate() {
        if let Some(area) = area(at.row() as usize + i, at.column() as usize, fields) {
            areas.push(area)?;
        }
    }
    Ok(areas)
}

/// The cells of the record in this row, from a column on, where it has fields.
fn area(row: usize, column: usize, fields: &[Vec<u8>]) -> Option<Rect>
    requires { list_any is_outside (fields_of row column (bytes_of fields.now)) ≡ false }
    ensures { result ≡ area_of_record row column (bytes_of fields.now) }
{
    if fields.is_empty() {
        return None;
    }
    let first = Address::at(row as u32, column as u32);
    let last = Address::at(row as u32, (column + fields.len() - 1) as u32);
    Some(Rect::new(first, last))
}
