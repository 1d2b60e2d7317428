//! Which cells of a rectangle a formula wanted one after another, and in which direction they go on.

ghost use Rattle.std.specs.Prelude.{◌≡◌, ◌≤◌, ◌*◌, ◌⊎◌, nat_lt, if◌then◌else◌};
ghost use Rattle.wi_engine.specs.Inner.Scans.{leaves_line, max_breaks, part, twice_as_many};

use wi_values::{Address, Rect};

/// How often a scan may break off before more than one cell is found there. A formula may look up some cells here and
/// there. One that wants many cells apart, as SUMIF does at the places where its criterion is met, is then begun anew
/// no more often than the logarithm of their count.
const MAX_BREAKS: usize = 8;

/// The direction in which the cells that are wanted go on: along a row, down a column, or through the whole rectangle.
#[derive(Clone, Copy)]
pub enum Way {
    /// The one cell that was wanted.
    Alone,
    Row,
    Column,
    Whole,
}

impl Way {
    /// Whether a scan of this way may go on in another: in the same, or in a wider one.
    pub(crate) fn may_become(self, way: Way) -> bool {
        match self {
            Way::Alone => !matches!(way, Way::Alone),
            Way::Row => matches!(way, Way::Row | Way::Whole),
            Way::Column => matches!(way, Way::Column | Way::Whole),
            Way::Whole => matches!(way, Way::Whole),
        }
    }

    /// Whether a scan leaves a line of the rectangle for those beside it, where it goes on in another way.
    fn leaves_line(self, way: Way) -> bool
        ensures { result ≡ leaves_line self way }
    {
        matches!(self, Way::Row | Way::Column) && matches!(way, Way::Whole)
    }
}

/// What a formula wanted of a rectangle, as far as that tells what it will want.
#[derive(Clone, Copy)]
pub struct Scan {
    pub rectangle: Rect,
    pub way: Way,
    /// The last cell that was found.
    pub last: Address,
    /// How many cells are found together, if there are so many.
    pub count: usize,
    /// How often a cell was wanted that didn't follow the last one.
    pub breaks: usize,
}

impl Scan {
    /// The scan that begins at a cell.
    pub(crate) fn begun(rectangle: Rect, at: Address) -> Scan
        ensures rectangle { result.rectangle ≡ rectangle }
        ensures count { result.count ≤ 1 }
    {
        Scan {
            rectangle,
            way: Way::Alone,
            last: at,
            count: 1,
            breaks: 0,
        }
    }

    /// The scan where the cell that is wanted follows in this way: twice as many cells are found. Where it leaves a row
    /// or a column it may be that no more of the next one is wanted, so it begins with one cell again.
    pub(crate) fn led_on(self, way: Way) -> Scan
        ensures rectangle { result.rectangle ≡ self.rectangle }
        ensures way { result.way ≡ way }
        ensures count { (result.count ≤ 1) ⊎ (result.count ≤ 2 * self.count) }
        ensures grows { result.count
            ≡ (if leaves_line self.way way then 1 else twice_as_many self.count) }
    {
        let count = if self.way.leaves_line(way) {
            1
        } else {
            self.count.saturating_mul(2)
        };
        Scan { way, count, ..self }
    }

    /// The scan where the cell that is wanted doesn't follow.
    pub(crate) fn broken(self) -> Scan
        ensures rectangle { result.rectangle ≡ self.rectangle }
        ensures count { (result.count ≤ 1)
            ⊎ ((max_breaks ≤ self.breaks) × (result.count ≤ 2 * self.count)) }
        ensures grows { result.count
            ≡ (if nat_lt self.breaks max_breaks then 1 else twice_as_many self.count) }
    {
        if self.breaks < MAX_BREAKS {
            Scan {
                way: Way::Alone,
                count: 1,
                breaks: self.breaks + 1,
                ..self
            }
        } else {
            Scan {
                way: Way::Whole,
                count: self.count.saturating_mul(2),
                ..self
            }
        }
    }
}

/// The part of a rectangle through which a way leads from a cell.
pub(crate) fn part(rectangle: Rect, way: Way, at: Address) -> Rect
    ensures { result ≡ part rectangle way at }
{
    let (first, last) = (rectangle.first(), rectangle.last());
    match way {
        Way::Alone => Rect::of(at),
        Way::Row => Rect::new(
            Address::at(at.row(), first.column()),
            Address::at(at.row(), last.column()),
        ),
        Way::Column => Rect::new(
            Address::at(first.row(), at.column()),
            Address::at(last.row(), at.column()),
        ),
        Way::Whole => rectangle,
    }
}
