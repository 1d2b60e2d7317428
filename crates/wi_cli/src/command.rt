//! The commands that lines spell.

use wi_values::{Address, Name, Rect};

/// A command with its operands. No name is the sheet as it stands.
#[derive(Clone, Copy)]
pub enum Command<'a> {
    Set {
        force: bool,
        at: Address,
        content: &'a str,
    },
    Clear {
        force: bool,
        area: Rect,
    },
    Fill {
        force: bool,
        from: Address,
        area: Rect,
    },
    Scenario {
        name: Name<'a>,
        at: Address,
        content: &'a str,
    },
    Drop {
        name: Name<'a>,
    },
    Base {
        name: Name<'a>,
        other: Option<Name<'a>>,
    },
    Use {
        name: Option<Name<'a>>,
    },
    As {
        name: Name<'a>,
    },
    Show {
        area: Rect,
    },
    Export {
        area: Rect,
    },
    Changes,
    Compare {
        first: Option<Name<'a>>,
        second: Option<Name<'a>>,
        area: Rect,
    },
    Table {
        formula_cell: Address,
        input: Address,
        column: Rect,
    },
    TableOfTwo {
        formula_cell: Address,
        input: Address,
        column: Rect,
        second: Address,
        row: Rect,
    },
    Formula {
        at: Address,
    },
}
