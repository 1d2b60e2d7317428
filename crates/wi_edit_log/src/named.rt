//! The rectangles that one edit named.

ghost use Rattle.std.specs.Prelude.{◌≡◌, ◌∷◌, [], true, IfOk};
ghost use Rattle.wi_edit_log.specs.Inner.First.{IsFirst, in_each};
ghost use Rattle.wi_edit_log.specs.Inner.Narrow.{are_narrow};
ghost use Rattle.wi_edit_log.specs.Inner.Rising.{are_rising};

use crate::rising::are_rising;
use crate::search::first_between;
use std::alloc::AllocError;
use std::marker::Model;
use wi_values::{Address, Rect};

/// A narrow rectangle has at most so many cells. Edits of such are noted cell by cell.
const FEW: u64 = 32;

/// The rectangles that an edit names, seen as their list as it was given.
#[derive(Drop)]
pub struct Named {
    areas: Repr,
}

/// Rectangles of which there are more than one, or none. They stand behind a box, so that an edit of one rectangle
/// takes little.
#[derive(Drop)]
struct Several {
    areas: Vec<Rect>,
}

/// Rectangles as they are kept.
#[derive(Drop)]
enum Repr {
    /// One takes no memory of its own.
    One([Rect; 1]),
    /// Each lies below the one before.
    Rising(Box<Several>),
    /// They stand in any order.
    Any(Box<Several>),
}

impl Model for Named {
    ghost use Rattle.std.specs.Prelude.{List};
    ghost use Rattle.wi_values.specs.Address.{Area};

    ghost Value = { List Area };

    ghost use Rattle.wi_edit_log.specs.Inner.Named.{areas_in, IsTold};

    ghost view = { λ n. areas_in n.areas };

    ghost invariant = { λ n. IsTold n.areas };
}

impl Named {
    /// One rectangle. Takes no memory.
    pub fn one(area: Rect) -> Named
        ensures { result ≡ area ∷ [] }
    {
        Named {
            areas: Repr::One([area]),
        }
    }

    /// The rectangles as they are given. The work grows with their count. Of more than one, or none, it takes a block
    /// of memory beside their list.
    pub fn new(cells: Vec<Rect>) -> Result<Named, AllocError>
        ensures { IfOk result (λ n. n ≡ cells.items) }
    {
        if cells.len() == 1 {
            return Ok(Named::one(cells[0]));
        }
        let rise = are_rising(&cells);
        let alloc = *cells.allocator();
        let several = Box::new(alloc, Several { areas: cells })?;
        if rise {
            return Ok(Named {
                areas: Repr::Rising(several),
            });
        }
        Ok(Named {
            areas: Repr::Any(several),
        })
    }

    /// The rectangles.
    pub fn areas(&self) -> &[Rect]
        ensures { result.now ≡ self.now }
    {
        match &self.areas {
            Repr::One(areas) => areas,
            Repr::Rising(several) => &several.areas,
            Repr::Any(several) => &several.areas,
        }
    }

    /// The first cell that they share with others, which may be told to rise. For each rectangle of the shorter list
    /// the work grows with the longer's length; where that rises, with its logarithm and with how many of its
    /// rectangles meet the rows of this one.
    pub(crate) fn first_shared(&self, others: &[Rect], others_rise: bool) -> Option<Address>
        requires { others_rise ≡ true → are_rising others.now ≡ true }
        ensures { IsFirst (in_each self.now others.now) result }
    {
        match &self.areas {
            Repr::One(areas) => first_between(areas, false, others, others_rise),
            Repr::Rising(several) => first_between(&several.areas, true, others, others_rise),
            Repr::Any(several) => first_between(&several.areas, false, others, others_rise),
        }
    }
}

/// Whether each rectangle has few cells.
pub(crate) fn are_narrow(areas: &[Rect]) -> bool
    ensures { result ≡ are_narrow areas.now }
{
    areas.iter().all(|area| area.size() <= FEW)
}
