//! What has changed since a picture, and a record for each change.

ghost use Rattle.std.specs.Prelude.{◌≡◌, ◌≢◌, ◌++◌, [], IfOk, OnOk, OnErr};
ghost use Rattle.std.specs.Io.{StartsWith};
ghost use Rattle.wi_values.specs.Replacements.{IsInOrder};
ghost use Rattle.wi_sheet.specs.Shown as show;
ghost use Rattle.wi_sessions.specs.Pictures.Laws.{changes_among};
ghost use Rattle.wi_reports.specs.Looks.{Costs, cells_cases};
ghost use Rattle.wi_reports.specs.Changes.{kind_text, change_records};
ghost use Rattle.wi_reports.specs.Inner.Parts.{change_record};

use crate::asking::value_under;
use crate::texts::address_text;
use std::alloc::{AllocError, Global};
use wi_csv::push_record;
use wi_propagate::Calculator;
use wi_sessions::{Change, Picture};
use wi_values::{Address, Replacement, Value};

/// Those of some cells whose value under replacements isn't the picture's, each with its value, in the order in which
/// they are given. The replacements stand in the order of their addresses, one for each. The calculator is asked once
/// for each cell, and for nothing else.
pub fn find_changes<C: Calculator>(
    alloc: Global,
    calculator: &mut C,
    replacements: &[Replacement],
    picture: &Picture,
    cells: &[Address],
) -> Result<Vec<Change>, AllocError>
    requires { IsInOrder replacements.now }
    ensures found { let shown = show.shown (C.stored calculator.old).sheet replacements.now in
        IfOk result (λ found. found.items ≡ changes_among cells.now picture.now shown) }
    ensures same { C.stored calculator.new ≡ C.stored calculator.old }
    ensures quiet { cells.now ≡ []
        → (C.evaluated calculator.new ≡ C.evaluated calculator.old)
        × (C.restarted calculator.new ≡ C.restarted calculator.old) }

    // No more is evaluated than what these cells demand, also where memory runs out.
    ensures cost { let sheet = (C.stored calculator.old).sheet in
        Costs sheet (cells_cases sheet replacements.now cells.now)
        (C.evaluated calculator.old, C.restarted calculator.old)
        (C.evaluated calculator.new, C.restarted calculator.new) }
{
    let mut found = Vec::new(alloc);
    for at in cells {
        let value = value_under(calculator, replacements, *at)?;
        if !picture.has(*at, &value) {
            found.push((*at, value))?;
        }
    }
    Ok(found)
}

/// Appends the records of changes, in their order: the address, the letter of the value's kind, and the text that it
/// shows. On an error the bytes are as before. The work grows with the length of the records; without changes no memory
/// is taken.
pub fn push_changes(alloc: Global, changes: &[Change], out: &mut Vec<u8>) -> Result<(), AllocError>
    ensures ok { OnOk result (out.new.items ≡ out.old.items ++ change_records changes.now) }
    ensures err { OnErr result (out.new.items ≡ out.old.items) }
    ensures some { OnErr result (changes.now ≢ []) }
{
    let before = out.len();
    let pushed = push_all(alloc, changes, out);
    if pushed.is_err() {
        out.truncate(before);
    }
    pushed
}

/// Appends the records of changes. On an error a part of them may be there.
fn push_all(alloc: Global, changes: &[Change], out: &mut Vec<u8>) -> Result<(), AllocError>
    ensures ok { OnOk result (out.new.items ≡ out.old.items ++ change_records changes.now) }
    ensures kept { StartsWith out.new.items out.old.items }
    ensures some { OnErr result (changes.now ≢ []) }
{
    for change in changes {
        push_change(alloc, change, out)?;
    }
    Ok(())
}

/// Appends the record of a change. On an error the bytes are as before.
fn push_change(alloc: Global, change: &Change, out: &mut Vec<u8>) -> Result<(), AllocError>
    ensures ok { OnOk result (out.new.items ≡ out.old.items ++ change_record change.now) }
    ensures kept { StartsWith out.new.items out.old.items }
{
    let (at, value) = change;
    let address = address_text(alloc, *at)?;
    let text = value.shown(alloc)?;
    push_record(&[address.as_str(), kind_text(value), text.as_str()], out)
}

/// The letter of a value's kind.
fn kind_text(value: &Value) -> &'static str
    ensures { result.now ≡ kind_text value.now }
{
    match value {
        Value::Empty => "-",
        Value::Number(_) => "N",
        Value::Text(_) => "T",
        Value::Logical(_) => "L",
        Value::Fault(_) => "E",
    }
}
