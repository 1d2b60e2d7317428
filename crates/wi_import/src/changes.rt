//! What cells get.

ghost use Rattle.std.specs.Prelude.{◌≡◌, ◌++◌, false, map, IfOk, OnOk};
ghost use Rattle.std.specs.List.{list_any};
ghost use Rattle.wi_values.specs.Address.{row_of, column_of};
ghost use Rattle.wi_import.specs.Fields.{fields_of, fields_from};
ghost use Rattle.wi_import.specs.Inner.Reading.{is_bad, is_too_long, content_of, change_of};
ghost use Rattle.wi_import.specs.Inner.Records.{bytes_of, all_bytes, is_faulty};

use std::alloc::{AllocError, Global};
use std::str;
use wi_parser::{Content, NewContent};
use wi_values::{Address, FieldFault, Value, field_value};

/// What the cell of each field of these records gets, the first field being for this cell. No field has a fault.
/// Room for all of them, and no more, is made before the first.
pub(crate) fn changes(
    alloc: Global,
    at: Address,
    records: &[Vec<Vec<u8>>],
) -> Result<Vec<NewContent>, AllocError>
    requires { list_any is_faulty (fields_from (row_of at) (column_of at) (all_bytes records.now))
        ≡ false }
    ensures { IfOk result (λ changes. changes.items
        ≡ map change_of (fields_from (row_of at) (column_of at) (all_bytes records.now))) }
{
    let mut changes = Vec::with_capacity(alloc, field_count(records))?;
    for (i, fields) in records.iter().enumerate() {
        push_record(
            alloc,
            at.row() as usize + i,
            at.column() as usize,
            fields,
            &mut changes,
        )?;
    }
    Ok(changes)
}

/// How many fields these records have.
fn field_count(records: &[Vec<Vec<u8>>]) -> usize {
    let mut count: usize = 0;
    for fields in records {
        count = count.saturating_add(fields.len());
    }
    count
}

/// Appends what the cells of a record get, which is in this row, from a column on. On an error a part may be there.
fn push_record(
    alloc: Global,
    row: usize,
    column: usize,
    fields: &[Vec<u8>],
    changes: &mut Vec<NewContent>,
) -> Result<(), AllocError>
    requires { list_any is_faulty (fields_of row column (bytes_of fields.now)) ≡ false }
    ensures { OnOk result (changes.new.items
        ≡ changes.old.items ++ map change_of (fields_of row column (bytes_of fields.now))) }
{
    for (j, field) in fields.iter().enumerate() {
        let cell = Address::at(row as u32, (column + j) as u32);
        changes.push((cell, content(alloc, field)?))?;
    }
    Ok(())
}

/// What the cell of a field gets.
fn content(alloc: Global, field: &[u8]) -> Result<Option<Content>, AllocError>
    requires text { is_bad field.now ≡ false }
    requires short { is_too_long field.now ≡ false }
    ensures { IfOk result (λ content. content ≡ content_of field.now) }
{
    let text = str::from_utf8(field).unwrap();
    match field_value(alloc, text) {
        Ok(Value::Empty) => Ok(None),
        Ok(value) => Ok(Some(Content::Constant(value))),
        Err(FieldFault::TooLong) => unreachable!(),
        Err(FieldFault::Memory) => Err(AllocError),
    }
}
