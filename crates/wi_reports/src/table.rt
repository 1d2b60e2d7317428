//! A data table: the value of a formula cell for each cell of a column, or of a column and a row, in the place of
//! inputs.

ghost use Rattle.std.specs.Prelude.{◌≡◌, ◌++◌, ◌∷◌, ◌&&◌, ℕ, true, [], map, nat_le, OnOk, OnErr, string_bytes};
ghost use Rattle.std.specs.List.{flat_map};
ghost use Rattle.std.specs.Io.{StartsWith};
ghost use Rattle.wi_values.specs.Address.{row_of, cells_of, cells_of_row, is_column};
ghost use Rattle.wi_values.specs.Replacements.{IsInOrder};
ghost use Rattle.wi_csv.specs.Row.{row};
ghost use Rattle.wi_reports.specs.Rows.{text_under};
ghost use Rattle.wi_reports.specs.Inner.Shape as shape;
ghost use Rattle.wi_reports.specs.Table as spec;
ghost use Rattle.wi_sheet.specs.TableEntry.{entry_demanded};
ghost use Rattle.wi_reports.specs.Looks.{Costs, cells_cases, entries_cases, beside_cases, table_cases};
ghost use Rattle.wi_reports.specs.Inner.Parts.{pairs_at, table_row};

use crate::asking::entry_under;
use crate::texts::{push_text_of, push_text_under, push_texts};
use std::alloc::{AllocError, Global};
use std::marker::Model;
use wi_csv::push_record;
use wi_propagate::Calculator;
use wi_values::{Address, Rect, Replacement};

/// What a data table is made of.
#[derive(Clone, Copy)]
pub struct DataTable {
    /// The cell whose value stands in each entry, as it is with the inputs replaced.
    pub formula_cell: Address,
    /// The cell whose place those of the column take.
    pub input: Address,
    /// The cells whose values take the input's place, one below the other.
    pub column: Rect,
    /// A second input, where there are two.
    pub second: Option<SecondInput>,
}

/// A second input of a data table, seen as a pair with the cells whose values take its place.
#[derive(Clone, Copy)]
pub struct SecondInput {
    input: Address,
    /// These cells stand side by side.
    row: Rect,
}

impl Model for SecondInput {
    ghost use Rattle.std.specs.Prelude.{ℕ};
    ghost use Rattle.wi_values.specs.Address.{Area};

    ghost Value = { ℕ × Area };

    ghost view = { λ s. (s.input, s.row) };

    ghost inverse = { λ p. record { input = p.0; row = p.1 } };
}

impl SecondInput {
    /// The second input of a pair, which has its cell and the cells whose values take its place; none where there is no
    /// pair.
    pub fn from_pair(pair: Option<(Address, Rect)>) -> Option<SecondInput>
        ensures { result ≡ pair }
    {
        let (input, row) = pair?;
        Some(SecondInput { input, row })
    }
}

impl DataTable {
    /// Whether the column is one, and the row too, where there is one.
    pub fn is_shaped(&self) -> bool
        ensures { result ≡ (is_column self.now.column && shape.has_row self.now.second) }
    {
        self.column.is_column() && self.has_row()
    }

    /// Whether there are at most so many entries. The head and the texts of the column don't count.
    pub fn is_within(&self, most: u64) -> bool
        ensures { result ≡ nat_le (shape.entries self.now.column self.now.second) most }
    {
        match self.column.size().checked_mul(self.width()) {
            Some(entries) => entries <= most,
            None => false,
        }
    }

    /// Whether the cells for a second input stand in one row, where there is one.
    fn has_row(&self) -> bool
        ensures { result ≡ shape.has_row self.now.second }
    {
        match self.second {
            None => true,
            Some(second) => second.row.is_row(),
        }
    }

    /// How many entries stand beside a cell of the column.
    fn width(&self) -> u64
        ensures { result ≡ shape.width self.now.second }
    {
        match self.second {
            None => 1,
            Some(second) => second.row.size(),
        }
    }
}

/// Appends the records of a data table under replacements, which stand in the order of their addresses, one for each:
/// one for each cell of the column, its text and the entries beside it, under a head with the texts of the row where
/// there is one. On an error the bytes are as before. The calculator is asked once for each cell of the column and of
/// the row, and once for each entry; beside that the work grows with the length of the records.
pub fn push_table<C: Calculator>(
    alloc: Global,
    calculator: &mut C,
    replacements: &[Replacement],
    table: &DataTable,
    out: &mut Vec<u8>,
) -> Result<(), AllocError>
    requires order { IsInOrder replacements.now }
    requires shaped { (is_column table.now.column && shape.has_row table.now.second) ≡ true }
    ensures ok { let sheet = (C.stored calculator.old).sheet in
        let records = spec.table_of sheet replacements.now table.now.formula_cell
        table.now.input table.now.column table.now.second in
        OnOk result (out.new.items ≡ out.old.items ++ records) }
    ensures err { OnErr result (out.new.items ≡ out.old.items) }
    ensures same { C.stored calculator.new ≡ C.stored calculator.old }
    ensures cost { let sheet = (C.stored calculator.old).sheet in
        Costs sheet (table_cases sheet replacements.now table.now.formula_cell table.now.input
        table.now.column table.now.second)
        (C.evaluated calculator.old, C.restarted calculator.old)
        (C.evaluated calculator.new, C.restarted calculator.new) }
{
    let before = out.len();
    let pushed = push_all(alloc, calculator, replacements, table, out);
    if pushed.is_err() {
        out.truncate(before);
    }
    pushed
}

/// Appends the records of a table. On an error a part of them may be there.
fn push_all<C: Calculator>(
    alloc: Global,
    calculator: &mut C,
    replacements: &[Replacement],
    table: &DataTable,
    out: &mut Vec<u8>,
) -> Result<(), AllocError>
    requires order { IsInOrder replacements.now }
    requires shaped { (is_column table.now.column && shape.has_row table.now.second) ≡ true }
    ensures ok { let sheet = (C.stored calculator.old).sheet in
        let records = spec.table_of sheet replacements.now table.now.formula_cell
        table.now.input table.now.column table.now.second in
        OnOk result (out.new.items ≡ out.old.items ++ records) }
    ensures kept { StartsWith out.new.items out.old.items }
    ensures same { C.stored calculator.new ≡ C.stored calculator.old }
    ensures cost { let sheet = (C.stored calculator.old).sheet in
        Costs sheet (table_cases sheet replacements.now table.now.formula_cell table.now.input
        table.now.column table.now.second)
        (C.evaluated calculator.old, C.restarted calculator.old)
        (C.evaluated calculator.new, C.restarted calculator.new) }
{
    if let Some(second) = table.second {
        push_head(alloc, calculator, replacements, second.row, out)?;
    }
    push_rows(alloc, calculator, replacements, table, out)
}

/// Appends the record above a table of two inputs: an empty field, and the texts of the row. On an error the bytes are
/// as before.
fn push_head<C: Calculator>(
    alloc: Global,
    calculator: &mut C,
    replacements: &[Replacement],
    cells: Rect,
    out: &mut Vec<u8>,
) -> Result<(), AllocError>
    requires { IsInOrder replacements.now }
    ensures ok { let text = text_under (C.stored calculator.old).sheet replacements.now in
        OnOk result (out.new.items
        ≡ out.old.items ++ row ([] ∷ map text (cells_of_row (row_of cells.first) cells))) }
    ensures kept { StartsWith out.new.items out.old.items }
    ensures same { C.stored calculator.new ≡ C.stored calculator.old }
    ensures cost { let sheet = (C.stored calculator.old).sheet in
        Costs sheet (cells_cases sheet replacements.now (cells_of_row (row_of cells.first) cells))
        (C.evaluated calculator.old, C.restarted calculator.old)
        (C.evaluated calculator.new, C.restarted calculator.new) }
{
    let row = cells.first().row();
    let mut texts = Vec::new(alloc);
    texts.push(String::new(alloc))?;
    push_texts(alloc, calculator, replacements, row, cells, &mut texts)?;
    push_record(&texts, out)
}

/// Appends the records of all cells of the column. On an error a part of them may be there.
fn push_rows<C: Calculator>(
    alloc: Global,
    calculator: &mut C,
    replacements: &[Replacement],
    table: &DataTable,
    out: &mut Vec<u8>,
) -> Result<(), AllocError>
    requires order { IsInOrder replacements.now }
    requires column { is_column table.now.column ≡ true }
    requires row { shape.has_row table.now.second ≡ true }
    ensures ok { let sheet = (C.stored calculator.old).sheet in
        let row = table_row sheet replacements.now table.now.formula_cell table.now.input
        table.now.second in
        OnOk result (out.new.items ≡ out.old.items ++ flat_map row (cells_of table.now.column)) }
    ensures kept { StartsWith out.new.items out.old.items }
    ensures same { C.stored calculator.new ≡ C.stored calculator.old }
    ensures cost { let sheet = (C.stored calculator.old).sheet in
        let cases = beside_cases sheet replacements.now table.now.formula_cell table.now.input
        table.now.second in
        Costs sheet (flat_map cases (cells_of table.now.column))
        (C.evaluated calculator.old, C.restarted calculator.old)
        (C.evaluated calculator.new, C.restarted calculator.new) }
{
    let column = table.column.first().column();
    let first = table.column.first().row();
    for row in first..table.column.last().row() + 1 {
        push_row(
            alloc,
            calculator,
            replacements,
            table,
            Address::at(row, column),
            out,
        )?;
    }
    Ok(())
}

/// Appends the record of a cell of the column: its text, and the entries beside it. On an error the bytes are as
/// before.
fn push_row<C: Calculator>(
    alloc: Global,
    calculator: &mut C,
    replacements: &[Replacement],
    table: &DataTable,
    x: Address,
    out: &mut Vec<u8>,
) -> Result<(), AllocError>
    requires order { IsInOrder replacements.now }
    requires row { shape.has_row table.now.second ≡ true }
    ensures ok { let sheet = (C.stored calculator.old).sheet in
        OnOk result (out.new.items ≡ out.old.items
        ++ table_row sheet replacements.now table.now.formula_cell table.now.input table.now.second
        x) }
    ensures kept { StartsWith out.new.items out.old.items }
    ensures same { C.stored calculator.new ≡ C.stored calculator.old }
    ensures cost { let sheet = (C.stored calculator.old).sheet in
        Costs sheet (beside_cases sheet replacements.now table.now.formula_cell table.now.input
        table.now.second x)
        (C.evaluated calculator.old, C.restarted calculator.old)
        (C.evaluated calculator.new, C.restarted calculator.new) }
{
    let mut texts = Vec::new(alloc);
    push_text_under(alloc, calculator, replacements, x, &mut texts)?;
    push_entries(alloc, calculator, replacements, table, x, &mut texts)?;
    push_record(&texts, out)
}

/// Appends the texts of the entries beside a cell of the column.
fn push_entries<C: Calculator>(
    alloc: Global,
    calculator: &mut C,
    replacements: &[Replacement],
    table: &DataTable,
    x: Address,
    texts: &mut Vec<String>,
) -> Result<(), AllocError>
    requires order { IsInOrder replacements.now }
    requires row { shape.has_row table.now.second ≡ true }
    ensures texts { let sheet = (C.stored calculator.old).sheet in
        let entries = spec.entries_beside sheet replacements.now table.now.formula_cell
        table.now.input table.now.second x in
        OnOk result (map string_bytes texts.new.items
        ≡ map string_bytes texts.old.items ++ entries) }
    ensures same { C.stored calculator.new ≡ C.stored calculator.old }
    ensures cost { let sheet = (C.stored calculator.old).sheet in
        Costs sheet (entries_cases sheet replacements.now table.now.formula_cell table.now.input
        table.now.second x)
        (C.evaluated calculator.old, C.restarted calculator.old)
        (C.evaluated calculator.new, C.restarted calculator.new) }
{
    match table.second {
        None => {
            let pairs = [(table.input, x)];
            push_entry(
                alloc,
                calculator,
                replacements,
                table.formula_cell,
                &pairs,
                texts,
            )
        }
        Some(second) => {
            let given = TableRow {
                formula_cell: table.formula_cell,
                input: table.input,
                x,
                second: second.input,
            };
            push_row_entries(alloc, calculator, replacements, &given, second.row, texts)
        }
    }
}

/// What the entries beside a cell of the column have in common, where there are two inputs.
#[derive(Drop)]
struct TableRow {
    formula_cell: Address,
    input: Address,
    /// The cell of the column, whose value takes the input's place.
    x: Address,
    second: Address,
}

/// Appends the texts of the entries beside a cell of the column, for each cell of a row.
fn push_row_entries<C: Calculator>(
    alloc: Global,
    calculator: &mut C,
    replacements: &[Replacement],
    given: &TableRow,
    cells: Rect,
    texts: &mut Vec<String>,
) -> Result<(), AllocError>
    requires { IsInOrder replacements.now }
    ensures texts { let sheet = (C.stored calculator.old).sheet in
        let text = λ (y : ℕ). spec.entry_text sheet replacements.now given.now.formula_cell
        (pairs_at given.now.input given.now.x given.now.second y) in
        OnOk result (map string_bytes texts.new.items
        ≡ map string_bytes texts.old.items ++ map text (cells_of_row (row_of cells.first) cells)) }
    ensures same { C.stored calculator.new ≡ C.stored calculator.old }
    ensures cost { let sheet = (C.stored calculator.old).sheet in
        let cases = λ (y : ℕ). entry_demanded sheet replacements.now given.now.formula_cell
        (pairs_at given.now.input given.now.x given.now.second y) in
        Costs sheet (flat_map cases (cells_of_row (row_of cells.first) cells))
        (C.evaluated calculator.old, C.restarted calculator.old)
        (C.evaluated calculator.new, C.restarted calculator.new) }
{
    let row = cells.first().row();
    let first = cells.first().column();
    for column in first..cells.last().column() + 1 {
        let y = Address::at(row, column);
        push_entry_at(alloc, calculator, replacements, given, y, texts)?;
    }
    Ok(())
}

/// Appends the text of the entry for a cell of the column and one of the row.
fn push_entry_at<C: Calculator>(
    alloc: Global,
    calculator: &mut C,
    replacements: &[Replacement],
    given: &TableRow,
    y: Address,
    texts: &mut Vec<String>,
) -> Result<(), AllocError>
    requires { IsInOrder replacements.now }
    ensures text { let sheet = (C.stored calculator.old).sheet in
        let text = spec.entry_text sheet replacements.now given.now.formula_cell
        (pairs_at given.now.input given.now.x given.now.second y) in
        OnOk result (map string_bytes texts.new.items
        ≡ map string_bytes texts.old.items ++ text ∷ []) }
    ensures same { C.stored calculator.new ≡ C.stored calculator.old }
    ensures cost { let sheet = (C.stored calculator.old).sheet in
        Costs sheet (entry_demanded sheet replacements.now given.now.formula_cell
        (pairs_at given.now.input given.now.x given.now.second y))
        (C.evaluated calculator.old, C.restarted calculator.old)
        (C.evaluated calculator.new, C.restarted calculator.new) }
{
    let pairs = [(given.input, given.x), (given.second, y)];
    push_entry(
        alloc,
        calculator,
        replacements,
        given.formula_cell,
        &pairs,
        texts,
    )
}

/// Appends the text of an entry, for pairs of an input and the cell whose value takes its place.
fn push_entry<C: Calculator>(
    alloc: Global,
    calculator: &mut C,
    replacements: &[Replacement],
    formula_cell: Address,
    pairs: &[(Address, Address)],
    texts: &mut Vec<String>,
) -> Result<(), AllocError>
    requires { IsInOrder replacements.now }
    ensures text { let text = spec.entry_text
        (C.stored calculator.old).sheet replacements.now formula_cell pairs.now in
        OnOk result (map string_bytes texts.new.items
        ≡ map string_bytes texts.old.items ++ text ∷ []) }
    ensures same { C.stored calculator.new ≡ C.stored calculator.old }
    ensures cost { let sheet = (C.stored calculator.old).sheet in
        Costs sheet (entry_demanded sheet replacements.now formula_cell pairs.now)
        (C.evaluated calculator.old, C.restarted calculator.old)
        (C.evaluated calculator.new, C.restarted calculator.new) }
{
    let value = entry_under(calculator, replacements, formula_cell, pairs)?;
    push_text_of(alloc, &value, texts)
}
