//! Which cells are found together with one that a formula lacks.
//!
//! A formula is evaluated anew each time that it lacks a value. A fold over a thousand formulas would be begun a
//! thousand times if one of them were found each time; and of a table from which INDEX reads one cell the others aren't
//! wanted. So how many are found goes by what was wanted of the same rectangle before. A cell is found alone, and where
//! the next one that is wanted follows, in its row, its column or the whole rectangle, twice as many are found each
//! time, if there are so many. A cell that is read alone is found with those for which each evaluation asks that an
//! error doesn't end.

ghost use Rattle.std.specs.Prelude.{◌≡◌, ℕ, true, nat_lt, if◌then◌else◌, IfOk, IfSome, IfNone};
ghost use Rattle.wi_values.specs.Address.{is_one_of, is_within_one, size_of};
ghost use Rattle.wi_parser.specs.Sheet.{content_of, has_formula};
ghost use Rattle.wi_sheet.specs.Demand.{reads_here};
ghost use Rattle.wi_engine.specs.Inner.Scans.{AreTogether, IsScanTo, IsSmallestWith, is_next};
ghost use Rattle.wi_engine.specs.Inner.Sure.{AreSureWith};

use crate::beside::with_sure_cells;
use crate::frame::Frame;
use crate::lacking::{next_lacking_in, with_next_lacking};
use crate::scan::{Scan, Way, part};
use std::alloc::{AllocError, Global};
use wi_store::Store;
use wi_values::{Address, Rect};

/// Cells that are to be found together.
#[derive(Drop)]
pub struct Batch {
    pub cells: Vec<Address>,
    /// The scan that they take. None where the first is a rectangle of its own.
    pub scan: Option<Scan>,
}

/// The cells that are to be found together with one that a frame's formula lacks, that one among them. They lie in the
/// smallest of the formula's rectangles that hold it, or are those of `with_sure_cells` where that is the cell alone.
/// The work grows with the count of the formula's rectangles, and as that of `next_lacking_in` and of
/// `with_next_lacking`, or of `with_sure_cells`.
pub(crate) fn together(
    alloc: Global,
    store: &Store,
    frame: &Frame,
    at: Address,
) -> Result<Batch, AllocError>
    requires read { reads_here frame.now.formula.now at ≡ true }
    requires formula { has_formula (content_of store.now.sheet at) ≡ true }
    ensures read { IfOk result (λ b. (d : ℕ) → is_one_of b.cells.items d ≡ true
        → (reads_here frame.now.formula.now d ≡ true)
        × (has_formula (content_of store.now.sheet d) ≡ true)) }
    ensures wanted { IfOk result (λ b. is_one_of b.cells.items at ≡ true) }
    ensures following { IfOk result (λ b. IfSome b.scan (λ c.
        AreTogether store.now.sheet frame.now frame.now.formula.now at c b.cells.items)) }
    ensures sure { IfOk result (λ b. IfNone b.scan (
        AreSureWith store.now.sheet frame.now frame.now.formula.now at b.cells.items)) }
{
    let rectangle = smallest_with(frame.formula.rectangles(), at);
    if rectangle.size() <= 1 {
        let sure = with_sure_cells(alloc, store, frame, at)?;
        return Ok(Batch {
            cells: sure,
            scan: None,
        });
    }
    let scan = scan_to(store, frame, rectangle, at);
    let area = part(rectangle, scan.way, at);
    let cells = with_next_lacking(alloc, store, frame, area, at, scan.count)?;
    let last = *cells.last().unwrap_or(&at);
    Ok(Batch {
        cells,
        scan: Some(Scan { last, ..scan }),
    })
}

/// The scan through a rectangle with one more cell that is wanted.
fn scan_to(store: &Store, frame: &Frame, rectangle: Rect, at: Address) -> Scan
    ensures rectangle { result.rectangle ≡ rectangle }
    ensures count { IsScanTo store.now.sheet frame.now at result }
{
    match frame.scan_through(rectangle) {
        None => Scan::begun(rectangle, at),
        Some(scan) => match way_on(store, frame, &scan, at) {
            Some(way) => scan.led_on(way),
            None => scan.broken(),
        },
    }
}

/// The way in which a cell follows the last one of a scan.
fn way_on(store: &Store, frame: &Frame, scan: &Scan, at: Address) -> Option<Way>
    ensures { IfSome result (λ way. is_next store.now.sheet frame.now scan.now way at ≡ true) }
{
    if leads_to(store, frame, scan, Way::Row, at) {
        return Some(Way::Row);
    }
    if leads_to(store, frame, scan, Way::Column, at) {
        return Some(Way::Column);
    }
    if leads_to(store, frame, scan, Way::Whole, at) {
        return Some(Way::Whole);
    }
    None
}

/// Whether a scan goes on to a cell in this way.
fn leads_to(store: &Store, frame: &Frame, scan: &Scan, way: Way, at: Address) -> bool
    ensures { result ≡ true → is_next store.now.sheet frame.now scan.now way at ≡ true }
{
    scan.way.may_become(way) && is_next(store, frame, scan, way, at)
}

/// Whether a cell is the next one that is lacking after the last one of a scan, in the part of its rectangle through
/// which this way leads.
fn is_next(store: &Store, frame: &Frame, scan: &Scan, way: Way, at: Address) -> bool
    ensures { result ≡ is_next store.now.sheet frame.now scan.now way at }
{
    let area = part(scan.rectangle, way, at);
    if !area.contains(scan.last) || at <= scan.last {
        return false;
    }
    match next_lacking_in(store, frame, area, scan.last) {
        Some(next) => next == at,
        None => false,
    }
}

/// The one of rectangles that holds a cell and has the fewest cells, the first where more have as few. The work grows
/// with their count.
pub(crate) fn smallest_with(rectangles: &[Rect], at: Address) -> Rect
    requires { is_within_one rectangles.now at ≡ true }
    ensures { IsSmallestWith rectangles.now at result }
{
    let mut smallest = None;
    for rectangle in rectangles {
        if rectangle.contains(at) {
            smallest = Some(match smallest {
                Some(kept) => smaller(kept, *rectangle),
                None => *rectangle,
            });
        }
    }
    let Some(smallest) = smallest else {
        unreachable!()
    };
    smallest
}

/// The one of two rectangles with fewer cells, the first where they have as many.
fn smaller(first: Rect, second: Rect) -> Rect
    ensures { result ≡ if nat_lt (size_of second) (size_of first) then second else first }
{
    if second.size() < first.size() {
        second
    } else {
        first
    }
}
