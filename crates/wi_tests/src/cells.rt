//! Cells, rectangles and contents by their texts.

use std::alloc::Global;
use std::process::Abort;
use wi_parser::{Content, ParseFault};
use wi_values::{Address, Rect, Value};

/// Contents for cells, or none.
pub type Changes = Vec<(Address, Option<Content>)>;

/// The cell with this name.
pub fn cell(rt: &impl Abort, name: &str) -> Address {
    Address::read(name.as_bytes()).expect(rt, name)
}

/// The rectangle with this name.
pub fn area(rt: &impl Abort, name: &str) -> Rect {
    Rect::read(name.as_bytes()).expect(rt, name)
}

/// The cells with these names.
pub fn cells(rt: &impl Abort, alloc: Global, names: &str) -> Vec<Address> {
    let mut cells = Vec::new(alloc);
    for name in names.split_whitespace() {
        cells.push(cell(rt, name)).expect(rt, name);
    }
    cells
}

/// The content that a text stands for: a dash for none, the empty text for the constant Empty.
fn content(alloc: Global, text: &str) -> Result<Option<Content>, ParseFault> {
    match text {
        "-" => Ok(None),
        "" => Ok(Some(Content::Constant(Value::Empty))),
        _ => Ok(Some(Content::read(alloc, text)?)),
    }
}

fn push_change(alloc: Global, at: Address, text: &str, changes: &mut Changes) -> Option<()> {
    let content = content(alloc, text).ok()?;
    changes.push((at, content)).ok()
}

fn push_changes(rt: &impl Abort, alloc: Global, texts: &str, changes: &mut Changes) -> Option<()> {
    for change in texts.split(',') {
        if let Some((name, text)) = change.trim_start().split_once(' ') {
            push_change(alloc, cell(rt, name), text, changes)?;
        }
    }
    Some(())
}

/// Changes, one after another, where there is memory: `A1 5` puts what the text stands for into a cell, `A1 -` takes
/// its content away.
pub fn changes(rt: &impl Abort, alloc: Global, texts: &str) -> Option<Changes> {
    let mut changes = Vec::new(alloc);
    match push_changes(rt, alloc, texts, &mut changes) {
        Some(()) => Some(changes),
        None => {
            drop(changes);
            None
        }
    }
}
