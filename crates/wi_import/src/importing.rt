//! An import of CSV text.

ghost use Rattle.std.specs.Prelude.{◌≡◌, ◌≢◌, IfOk, IfErr};
ghost use Rattle.wi_import.specs.Fields.{fields_at, record_areas_at};
ghost use Rattle.wi_import.specs.Imports.{AreChanges, IsFault};
ghost use Rattle.wi_import.specs.declared.fault.ImportFault.TheVariants.{Memory};

use crate::areas::areas;
use crate::changes::changes;
use crate::checking::first_fault;
use crate::fault::ImportFault;
use crate::imported::Import;
use std::alloc::Global;
use wi_csv::records;
use wi_values::Address;

/// What an import of a CSV text puts into which cells, the first field of its first record into this cell: each record
/// into a row, each field into the next column. A field is taken for a number or a truth value where it spells one, and
/// else for a text, also where it looks like a formula; an empty one takes its cell's content away. A cell for which
/// there is no field isn't named. The work grows with the text.
pub fn import(alloc: Global, at: Address, text: &[u8]) -> Result<Import, ImportFault>
    ensures changes { IfOk result (λ i. AreChanges (fields_at at text.now) i.changes.items) }
    ensures named { IfOk result (λ i. i.named.items ≡ record_areas_at at text.now) }
    ensures fault { IfErr result (λ fault. fault ≢ Memory → IsFault (fields_at at text.now) fault) }
{
    let records = records(alloc, text)?;
    if let Some(fault) = first_fault(at, &records) {
        return Err(fault);
    }
    let changes = changes(alloc, at, &records)?;
    let named = areas(alloc, at, &records)?;
    Ok(Import { changes, named })
}
