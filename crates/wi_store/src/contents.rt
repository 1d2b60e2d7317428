//! The contents of a rectangle, one after another.

ghost use Rattle.std.specs.Prelude.{◌≡◌, filter, Some, None};
ghost use Rattle.wi_store.specs.Store.{is_ahead};
ghost use Rattle.wi_tiles.specs.Rooms.{AreBetweenEdits};
ghost use Rattle.wi_store.specs.Inner.Rooms.{sheet_in};

use crate::room::Room;
use crate::rooms::Rooms;
use std::marker::Model;
use wi_parser::Content;
use wi_tiles::Within;
use wi_values::{Address, Rect};

/// The contents of a rectangle that are still to come with their cells, in row-major order.
#[derive(Drop)]
pub struct Contents<'a> {
    rooms: Within<'a, Room>,
}

impl<'a> Model for Contents<'a> {
    ghost use Rattle.wi_parser.specs.Sheet.{Sheet};

    ghost Value = { Sheet };

    ghost use Rattle.std.specs.Coded.{codes};
    ghost use Rattle.wi_parser.specs.contracts.content.Content as content;

    ghost coded = { Prim.hlevel (codes, content.the_row.coded) };

    ghost use Rattle.wi_store.specs.Inner.Rooms.{sheet_in, HaveContents};

    ghost view = { λ c. sheet_in c.rooms };

    ghost invariant = { λ c. HaveContents c.rooms };
}

impl<'a> Contents<'a> {
    /// All contents.
    pub(crate) fn all(rooms: &'a Rooms) -> Contents<'a>
        requires { AreBetweenEdits None rooms.now.entries }
        ensures { result ≡ sheet_in rooms.now.entries }
    {
        Contents {
            rooms: rooms.iter(),
        }
    }

    /// The contents of the rectangle at a cell or after it.
    pub(crate) fn new(rooms: &'a Rooms, area: Rect, from: Address) -> Contents<'a>
        requires { AreBetweenEdits None rooms.now.entries }
        ensures { result ≡ filter
            (λ e. is_ahead area (Some from) e.0) (sheet_in rooms.now.entries) }
    {
        Contents {
            rooms: rooms.within(area, from),
        }
    }
}

impl<'a> Iterator for Contents<'a> {
    ghost use Rattle.std.specs.Prelude.{length};
    ghost use Rattle.std.specs.Iterator.{at_most};
    ghost use Rattle.std.specs.Map.Iter.{TakesFirst};
    ghost use Rattle.wi_store.specs.Inner.Rooms.{occupied};

    type Item = (Address, &'a Content);

    ghost next_gives = { TakesFirst occupied };

    ghost remaining = { λ s. at_most (length s) };

    /// A step among the bits of a tile of 16 rows by 4 columns for each content, and one search for each 16 rows; and
    /// where more than one of their tiles lie in the rectangle, one step more for each tile of each row.
    #[inline(always)]
    fn next(&mut self) -> Option<(Address, &'a Content)> {
        match self.rooms.next() {
            Some((cell, room)) => match room.content() {
                Some(content) => Some((cell, content)),
                None => unreachable!(),
            },
            None => None,
        }
    }
}
