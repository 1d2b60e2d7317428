//! A workbook.

ghost use Rattle.std.specs.Prelude.{◌≡◌, ◌∷◌, ℕ, List, [], option_map, IfOk};
ghost use Rattle.std.specs.Option.{option_copied};
ghost use Rattle.wi_values.specs.Address.{cells_of};
ghost use Rattle.wi_values.specs.Name.{bytes_of};
ghost use Rattle.wi_sessions.specs.Roster.{SameCells};
ghost use Rattle.wi_scenarios.specs.State.{state_over};
ghost use Rattle.wi_scenarios.specs.Commands.Command as command;
ghost use Rattle.wi_scenarios.specs.Commands.Operands.{cell, corners, second_input};
ghost use Rattle.wi_scenarios.specs.Commands.Step.{IsStep};
ghost use Rattle.wi_scenarios.specs.Pending.{SameForOthers, occupied_in, occupied_cells, asked_by_show, asked_by_compare, asked_by_table};
ghost use Rattle.wi_scenarios.specs.Inner.Calls.{IsEditBy, IsImport, IsDrop, IsAs, ServesInto, Looks, IsChanges};

use crate::areas::is_table_placed;
use crate::base::base;
use crate::changes::changes;
use crate::clear::clear;
use crate::compare::{Compared, compare};
use crate::csv::import;
use crate::desk::Desk;
use crate::drop::drop;
use crate::export::export;
use crate::fill::fill;
use crate::formula::formula;
use crate::refusal::Refusal;
use crate::scenario::{put, take_away};
use crate::session::{new_desk, session};
use crate::set::set;
use crate::show::show;
use crate::table::table;
use crate::use_scenario::use_scenario;
use std::alloc::{AllocError, Global};
use std::marker::Model;
use wi_propagate::Calculator;
use wi_reports::{DataTable, SecondInput};
use wi_values::{Address, Name, Rect};

/// A sheet, and what is kept beside it: scenarios, sessions and the log of edits. It is seen as the definition's state,
/// the cells that are pending for each session, and the counts that the calculator tells. Between two calls the
/// calculator is light.
#[derive(Drop)]
pub struct Workbook<C: Calculator> {
    calculator: C,
    desk: Desk,
    alloc: Global,
}

impl<C: Calculator> Model for Workbook<C> {
    ghost use Rattle.std.specs.Prelude.{◌≡◌, true};
    ghost use Rattle.wi_scenarios.specs.Pending.{Book};
    ghost use Rattle.wi_scenarios.specs.Inner.Sound.{book_of, IsSound};

    ghost Value = { Book };

    ghost use Rattle.wi_parser.specs.contracts.content.Content as content;
    ghost use Rattle.wi_values.specs.contracts.value.Value as value;
    ghost use Rattle.wi_values.specs.contracts.replacement.Replacement as replacement;
    ghost use Rattle.std.specs.Coded.{codes};

    ghost coded = { Prim.hlevel
        (codes, content.the_row.coded, value.the_row.coded, replacement.the_row.coded) };

    ghost view = { λ w. book_of
        (C.stored w.calculator) (C.evaluated w.calculator) (C.restarted w.calculator) w.desk };

    ghost invariant = { λ w. IsSound C.marked (C.stored w.calculator) w.desk
        × (C.is_light w.calculator ≡ true) };
}

/// The texts of names.
fn as_text<'a>(name: Option<Name<'a>>) -> Option<&'a str>
    ensures { option_copied result ≡ option_map bytes_of name.entry }
{
    match name {
        Some(name) => Some(name.as_str()),
        None => None,
    }
}

impl<C: Calculator> Workbook<C> {
    /// A workbook over a calculator, whose sheet it takes over, with the one session `main`, for which the occupied
    /// cells are pending. The calculator is dropped if memory runs out. The work grows with the occupied cells.
    pub fn new(alloc: Global, mut calculator: C) -> Result<Workbook<C>, AllocError>
    where
        C: Drop,
        ensures state { IfOk result (λ w. w.state ≡ state_over (C.stored calculator)) }
        ensures pending { IfOk result (λ w. (cells : List ℕ) × (w.pending ≡ cells ∷ [])
            × SameCells cells (occupied_cells (C.stored calculator).sheet)) }
        ensures counts { IfOk result (λ w. (w.evaluated ≡ C.evaluated calculator)
            × (w.restarted ≡ C.restarted calculator)) }
    {
        calculator.lighten();
        let desk = new_desk(alloc, &calculator)?;
        Ok(Workbook {
            calculator,
            desk,
            alloc,
        })
    }

    /// The calculator that it uses.
    pub fn calculator(&self) -> &C
        ensures stored { C.stored result.now ≡ self.now.state.stored }
        ensures evaluated { C.evaluated result.now ≡ self.now.evaluated }
        ensures restarted { C.restarted result.now ≡ self.now.restarted }
    {
        &self.calculator
    }

    /// Puts a content into a cell. An empty one is refused as `BadCommand`. An edit of a cell that another session has
    /// edited since the current one was last shown what has changed is refused as `Stale`, but not where it is forced.
    ///
    /// The work of this and of the other edits grows with the formulas that read the edited cells; for each session,
    /// with those dependents that aren't pending for all sessions; and with all dependents where several cells read
    /// something new, or a cycle may be closed or opened. The memory for a session grows with the cells that aren't
    /// pending for it.
    pub fn set(&mut self, at: Address, content: &str, force: bool) -> Result<(), Refusal>
        ensures { IsEditBy C.marked (at ∷ []) (command.Set force (cell at) content.now)
            result self.old self.new }
    {
        let done = set(
            self.alloc,
            &mut self.calculator,
            &mut self.desk,
            at,
            content,
            force,
        );
        self.calculator.lighten();
        done
    }

    /// Empties the cells of a rectangle of any size. `force` is as of `set`. The work grows with its occupied cells;
    /// for each a search passes cells that stand beside it, in no more rows than the rectangle has columns.
    pub fn clear(&mut self, area: Rect, force: bool) -> Result<(), Refusal>
        ensures { IsEditBy C.marked (occupied_in self.old.state.stored.sheet area)
            (command.Clear force (corners area)) result self.old self.new }
    {
        let done = clear(
            self.alloc,
            &mut self.calculator,
            &mut self.desk,
            area,
            force,
        );
        self.calculator.lighten();
        done
    }

    /// Copies a cell's content to each cell of a rectangle, also where that cell lies in it. The relative parts of a
    /// formula's references move by the distance; where one would leave the sheet, the whole command is refused. From
    /// an empty cell the rectangle is emptied. `force` is as of `set`. The work grows with the cells of the rectangle.
    pub fn fill(&mut self, from: Address, area: Rect, force: bool) -> Result<(), Refusal>
        ensures { IsEditBy C.marked (cells_of area) (command.Fill force (cell from) (corners area))
            result self.old self.new }
    {
        let done = fill(
            self.alloc,
            &mut self.calculator,
            &mut self.desk,
            from,
            area,
            force,
        );
        self.calculator.lighten();
        done
    }

    /// Puts the fields of a CSV text into cells by the rule of imported fields: field j of record i goes i - 1 below
    /// and j - 1 right of the cell. An empty field empties its cell; cells without a field stay. It is one edit, done
    /// whole or not at all. `force` is as of `set`. The work grows with the text.
    pub fn import(&mut self, at: Address, text: &[u8], force: bool) -> Result<(), Refusal>
        ensures { IsImport C.marked force at text.now result self.old self.new }
    {
        let done = import(
            self.alloc,
            &mut self.calculator,
            &mut self.desk,
            at,
            text,
            force,
        );
        self.calculator.lighten();
        done
    }

    /// Puts a replacement into a scenario, which is made if need be, by the rule of imported fields; an empty content
    /// takes the scenario's own replacement away. The work grows with the count of scenarios and with the scenario's
    /// own replacements. For each session all that its scenario puts in is listed twice, as it was and as it will be,
    /// whichever scenario that is; where the two differ, the work grows with what depends on the cell.
    pub fn scenario_set(
        &mut self,
        name: Name<'_>,
        at: Address,
        content: &str,
    ) -> Result<(), Refusal>
        ensures { IsEditBy C.marked []
            (command.Scenario (bytes_of name.entry) (cell at) content.now)
            result self.old self.new }
    {
        put(
            self.alloc,
            &self.calculator,
            &mut self.desk,
            name.as_str(),
            at,
            content,
        )
    }

    /// Takes a scenario's own replacement away, if there is one; the scenario stays. It costs what `scenario_set` does:
    /// the work grows with the count of scenarios, the scenario's own replacements, all that the sessions' scenarios
    /// put in, and what depends on the cell.
    pub fn scenario_clear(&mut self, name: Name<'_>, at: Address) -> Result<(), Refusal>
        ensures { IsEditBy C.marked [] (command.Scenario (bytes_of name.entry) (cell at) [])
            result self.old self.new }
    {
        take_away(
            self.alloc,
            &self.calculator,
            &mut self.desk,
            name.as_str(),
            at,
        )
    }

    /// Bases a scenario on another, whose replacements it then puts in too unless it has its own, or on none. It costs
    /// what `scenario_set` does: the work grows with the count of scenarios, the scenario's own replacements, all that
    /// the sessions' scenarios put in, and what depends on the cells whose replacement changes.
    pub fn scenario_base(&mut self, name: Name<'_>, other: Option<Name<'_>>) -> Result<(), Refusal>
        ensures { IsEditBy C.marked []
            (command.Base (bytes_of name.entry) (option_map bytes_of other.entry))
            result self.old self.new }
    {
        base(
            self.alloc,
            &self.calculator,
            &mut self.desk,
            name.as_str(),
            as_text(other),
        )
    }

    /// Removes a scenario that no session uses, and on which none is based. Takes no memory. The work grows with the
    /// counts of scenarios and sessions.
    pub fn scenario_drop(&mut self, name: Name<'_>) -> Result<(), Refusal>
        ensures { IsDrop (bytes_of name.entry) result self.old self.new }
    {
        drop(&self.calculator, &mut self.desk, name.as_str())
    }

    /// The current session uses a scenario, or the sheet as it stands. The work grows with all that the old and the new
    /// scenario put in, and with what depends on the cells whose replacement changes.
    pub fn use_scenario(&mut self, name: Option<Name<'_>>) -> Result<(), Refusal>
        ensures edit { IsEditBy C.marked [] (command.Use (option_map bytes_of name.entry))
            result self.old self.new }
        ensures others { SameForOthers self.old.state.current self.old.pending self.new.pending }
    {
        use_scenario(self.alloc, &self.calculator, &mut self.desk, as_text(name))
    }

    /// Makes a session current, a new one if need be, which uses the sheet as it stands and was shown nothing. Takes no
    /// memory where the session is there; for a new one the work grows with the occupied cells.
    pub fn session(&mut self, name: Name<'_>) -> Result<(), Refusal>
        ensures { IsAs (bytes_of name.entry) result self.old self.new }
    {
        session(self.alloc, &self.calculator, &mut self.desk, name.as_str())
    }

    /// Appends the texts that a rectangle's cells show to the current session, a record for each row. The calculator is
    /// asked once for each cell; beside that the work grows with what the session's scenario puts in and with the
    /// length of the records.
    pub fn show(&mut self, area: Rect, out: &mut Vec<u8>) -> Result<(), Refusal>
        ensures { Looks (command.Show (corners area)) (asked_by_show self.old.state area)
            result self.old self.new out.old.items out.new.items }
    {
        let done = show(self.alloc, &mut self.calculator, &self.desk, area, out);
        self.calculator.lighten();
        done
    }

    /// Appends the records of `show`, after a line that tells how many lines they are: `lines`, a space and the count
    /// of their LF bytes. It costs what `show` does, and is linear in the length of the records beside.
    pub fn export(&mut self, area: Rect, out: &mut Vec<u8>) -> Result<(), Refusal>
        ensures { Looks (command.Export (corners area)) (asked_by_show self.old.state area)
            result self.old self.new out.old.items out.new.items }
    {
        let done = export(self.alloc, &mut self.calculator, &self.desk, area, out);
        self.calculator.lighten();
        done
    }

    /// Appends a record for each cell whose value isn't what the current session was last shown: address, kind and
    /// shown text. The session has been shown them then. Only its pending cells are looked at; where there are none, no
    /// memory is taken. The calculator is asked once for each of them; beside that the work grows with what the
    /// session's scenario puts in, with the length of the records, and with the changes, some look-ups in the session's
    /// snapshot for each.
    pub fn changes(&mut self, out: &mut Vec<u8>) -> Result<(), Refusal>
        ensures { IsChanges result self.old self.new out.old.items out.new.items }
    {
        let done = changes(self.alloc, &mut self.calculator, &mut self.desk, out);
        self.calculator.lighten();
        done
    }

    /// Appends a record for each cell of a rectangle whose values under two scenarios differ: address, both texts, and
    /// the text of the second less the first where both are numbers. No name is the sheet as it stands. The calculator
    /// is asked twice for each cell; beside that the work grows with what both scenarios put in and with the length of
    /// the two texts of each cell.
    pub fn compare(
        &mut self,
        first: Option<Name<'_>>,
        second: Option<Name<'_>>,
        area: Rect,
        out: &mut Vec<u8>,
    ) -> Result<(), Refusal>
        ensures { let one = option_map bytes_of first.entry in
            let other = option_map bytes_of second.entry in
            Looks (command.Compare one other (corners area))
            (asked_by_compare self.old.state one other area)
            result self.old self.new out.old.items out.new.items }
    {
        let compared = Compared {
            first: as_text(first),
            second: as_text(second),
        };
        let done = compare(
            self.alloc,
            &mut self.calculator,
            &self.desk,
            &compared,
            area,
            out,
        );
        self.calculator.lighten();
        done
    }

    /// Appends the records of a table: for each cell X of a column its shown text, and what the formula cell shows if
    /// the input had the value of X. With a second input, and a row of cells, one entry for each cell Y of the row,
    /// beside X, if the second input had the value of Y too; above them stands a record with an empty field and the
    /// shown texts of the row. A column or a row that is none is refused as `BadCommand`. Each entry costs as much as
    /// the formulas that depend on the inputs, as far as the formula cell reads them.
    pub fn table(
        &mut self,
        formula_cell: Address,
        input: Address,
        column: Rect,
        second: Option<(Address, Rect)>,
        out: &mut Vec<u8>,
    ) -> Result<(), Refusal>
        ensures { Looks (command.Table (cell formula_cell) (cell input) (corners column)
            (second_input second))
            (asked_by_table self.old.state formula_cell input column second)
            result self.old self.new out.old.items out.new.items }
    {
        is_table_placed(formula_cell, input, column, &second);
        let asked = DataTable {
            formula_cell,
            input,
            column,
            second: SecondInput::from_pair(second),
        };
        let done = table(self.alloc, &mut self.calculator, &self.desk, &asked, out);
        self.calculator.lighten();
        done
    }

    /// Gives back the memory of all that the calculator can find again. Takes none. The work grows with what goes;
    /// later questions find it again.
    pub fn forget(&mut self)
        ensures { self.new ≡ self.old }
    {
        self.calculator.forget();
        self.calculator.lighten();
    }

    /// Appends a record: a cell's address and its content, which is a formula as printed, a text after an apostrophe,
    /// another constant as shown, and empty where there is none. One look-up in the sheet; beside that the work grows
    /// with the length of the record.
    pub fn formula_text(&self, at: Address, out: &mut Vec<u8>) -> Result<(), Refusal>
        ensures { ServesInto (IsStep self.now.state (command.Formula (cell at))) result
            self.now.state self.now.state out.old.items out.new.items }
    {
        formula(self.alloc, &self.calculator, at, out)
    }
}
