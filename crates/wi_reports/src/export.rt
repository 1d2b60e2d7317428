//! Records after a line that tells how many lines they are.

ghost use Rattle.std.specs.Prelude.{◌≡◌, ◌++◌, OnOk, OnErr};
ghost use Rattle.std.specs.Io.{StartsWith};
ghost use Rattle.wi_values.specs.Replacements.{IsInOrder};
ghost use Rattle.wi_sheet.specs.Shown.{shown};
ghost use Rattle.wi_reports.specs.Rows.{rows_shown, export_of};
ghost use Rattle.wi_reports.specs.Looks.{Costs, rows_cases};
ghost use Rattle.wi_reports.specs.Inner.Parts.{lines_in};

use crate::rows::push_rows;
use itoa::Buffer;
use std::alloc::{AllocError, Global};
use wi_propagate::Calculator;
use wi_values::{Rect, Replacement};

/// Appends the records of `push_rows` behind a line that tells how many lines they are. On an error the bytes are as
/// before. It costs what `push_rows` does, one question to the calculator for each cell, and is linear in the length of
/// the records beside.
pub fn push_export<C: Calculator>(
    alloc: Global,
    calculator: &mut C,
    replacements: &[Replacement],
    area: Rect,
    out: &mut Vec<u8>,
) -> Result<(), AllocError>
    requires { IsInOrder replacements.now }
    ensures ok { let value = shown (C.stored calculator.old).sheet replacements.now in
        let records = rows_shown value area in
        OnOk result (out.new.items ≡ out.old.items ++ export_of records) }
    ensures err { OnErr result (out.new.items ≡ out.old.items) }
    ensures same { C.stored calculator.new ≡ C.stored calculator.old }
    ensures cost { let sheet = (C.stored calculator.old).sheet in
        Costs sheet (rows_cases sheet replacements.now area)
        (C.evaluated calculator.old, C.restarted calculator.old)
        (C.evaluated calculator.new, C.restarted calculator.new) }
{
    let mut records = Vec::new(alloc);
    push_rows(alloc, calculator, replacements, area, &mut records)?;
    let before = out.len();
    let pushed = push_all(&records, out);
    if pushed.is_err() {
        out.truncate(before);
    }
    pushed
}

/// Appends records behind a line that tells how many lines they are. On an error a part of them may be there.
fn push_all(records: &[u8], out: &mut Vec<u8>) -> Result<(), AllocError>
    ensures ok { OnOk result (out.new.items ≡ out.old.items ++ export_of records.now) }
    ensures kept { StartsWith out.new.items out.old.items }
{
    let mut buffer = Buffer::new();
    let count = buffer.format(lines_in(records));
    out.extend_from_slice(b"lines ")?;
    out.extend_from_slice(count.as_bytes())?;
    out.push(b'\n')?;
    out.extend_from_slice(records)
}

/// How many LF bytes there are.
fn lines_in(bytes: &[u8]) -> usize
    ensures { result ≡ lines_in bytes.now }
{
    bytes.iter().filter(|byte| **byte == b'\n').count()
}
