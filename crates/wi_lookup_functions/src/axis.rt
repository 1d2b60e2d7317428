//! The lines of a rectangle, which are its rows or its columns.

ghost use Rattle.std.specs.Prelude.{◌≡◌, ◌<◌};
ghost use Rattle.wi_lookup_functions.specs.Inner.Axis.{cell_along, first_cells, line_count, line_width};

use crate::region::{cell_at, first_column, first_row};
use wi_values::{Address, Rect};

/// What the lines of a rectangle are.
#[derive(Clone, Copy)]
pub(crate) enum Axis {
    Rows,
    Columns,
}

impl Axis {
    /// How many cells each line has.
    pub(crate) fn width(self, area: Rect) -> u32
        ensures { result ≡ line_width self area }
    {
        match self {
            Axis::Rows => area.width(),
            Axis::Columns => area.height(),
        }
    }

    /// The first cells of the lines, of which there is one at least.
    pub(crate) fn first_cells(self, area: Rect) -> Rect
        ensures cells { result ≡ first_cells self area }
        ensures some { 0 < line_count self area }
    {
        match self {
            Axis::Rows => first_column(area),
            Axis::Columns => first_row(area),
        }
    }

    /// A cell by its line and its place in that, both counted from 0.
    pub(crate) fn cell_at(self, area: Rect, line: u32, place: u32) -> Address
        requires line_within { line < line_count self area }
        requires place_within { place < line_width self area }
        ensures { result ≡ cell_along self area line place }
    {
        match self {
            Axis::Rows => cell_at(area, line, place),
            Axis::Columns => cell_at(area, place, line),
        }
    }
}
