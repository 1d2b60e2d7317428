//! The records of a CSV text.

ghost use Rattle.std.specs.Prelude.{◌≡◌, ◌++◌, ◌∷◌, [], map, IfOk, OnOk, IsOkAnd};
ghost use Rattle.csv.specs.Records.{fields_of};
ghost use Rattle.wi_csv.specs.Records.{recs};

use crate::fault::CsvFault;
use csv::{ByteRecord, Error as CsvError, ReaderBuilder};
use std::alloc::{AllocError, Global};

/// The records of a text, each a list of its fields: commas between fields, double quotes around those that need them.
/// A byte order mark at its front is taken off, an empty line is no record, lengths may differ, and nothing is trimmed.
/// No text is refused for what it holds; `Read` comes only where `csv` refuses for another cause than memory. The
/// contract speaks of the records alone, and promises nothing on an error. The work grows with the text.
pub fn records(alloc: Global, bytes: &[u8]) -> Result<Vec<Vec<Vec<u8>>>, CsvFault>
    ensures { IfOk result
        (λ rows. map (λ fields. map (λ f. f.items) fields.items) rows.items ≡ recs bytes.now) }
{
    let reader = ReaderBuilder::new()
        .has_headers(false)
        .flexible(true)
        .from_reader(alloc, bytes);
    let mut rows = Vec::new(alloc);
    for row in reader.into_byte_records() {
        push_copy(alloc, row, &mut rows)?;
    }
    Ok(rows)
}

/// Appends a copy of the record, where one was read.
fn push_copy(
    alloc: Global,
    read: Result<ByteRecord, CsvError>,
    rows: &mut Vec<Vec<Vec<u8>>>,
) -> Result<(), CsvFault>
    ensures { OnOk result (IsOkAnd read (λ row.
        map (λ fields. map (λ f. f.items) fields.items) rows.new.items
        ≡ map (λ fields. map (λ f. f.items) fields.items) rows.old.items ++ fields_of row ∷ [])) }
{
    rows.push(copied_fields(alloc, &read?)?)?;
    Ok(())
}

/// A copy of the fields of a record.
fn copied_fields(alloc: Global, row: &ByteRecord) -> Result<Vec<Vec<u8>>, AllocError>
    ensures { IfOk result (λ fields. map (λ f. f.items) fields.items ≡ fields_of row.now) }
{
    let mut fields = Vec::new(alloc);
    for field in row {
        fields.push(Vec::from_slice(alloc, field)?)?;
    }
    Ok(fields)
}
