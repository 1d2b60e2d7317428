//! An edit that isn't put in yet.

use crate::cell_set::CellSet;
use crate::rooms::{Brought, Rooms};
use wi_parser::NewContent;
use wi_ranges::RangeIndex;

/// What an edit brings, beside the graph before it.
#[derive(Drop)]
pub(crate) struct GraphEdit<'a> {
    pub(crate) rooms: &'a Rooms,
    pub(crate) readers: &'a RangeIndex,
    /// The circular cells.
    pub(crate) cyclic: &'a CellSet,
    /// What cells are to read, in row-major order. One that goes on reading what it reads isn't named.
    pub(crate) next: &'a [Brought],
    /// The edited cells with what they get.
    pub(crate) changes: &'a [NewContent],
}
