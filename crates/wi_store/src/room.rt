//! A room for what stands in one cell.

ghost use Rattle.std.specs.Prelude.{◌≡◌, IfOk};
ghost use Rattle.std.specs.Option.{option_copied};
ghost use Rattle.wi_store.specs.Store.{without_empty};

use std::alloc::{AllocError, Global};
use std::marker::Model;
use wi_parser::Content;
use wi_tiles::MayBeVacant;
use wi_values::Value;

/// A room, seen as its content, or none if it is vacant.
#[derive(Drop)]
pub(crate) struct Room {
    /// Behind a box, since a tile has rooms to spare.
    boxed: Option<Box<Content>>,
}

impl Model for Room {
    ghost use Rattle.std.specs.Prelude.{Option};
    ghost use Rattle.wi_parser.specs.declared.content.Content.{Content as Contents};

    ghost Value = { Option Contents };

    ghost use Rattle.std.specs.Coded.{codes};
    ghost use Rattle.wi_parser.specs.contracts.content.Content as content;

    ghost coded = { Prim.hlevel (codes, content.the_row.coded) };

    ghost use Rattle.std.specs.Prelude.{option_map};

    ghost view = { λ r. option_map (λ b. b.value) r.boxed };
}

impl Room {
    /// A room with a content, or a vacant one; the constant Empty is no content. Takes the memory of a content.
    pub(crate) fn new(alloc: Global, content: Option<Content>) -> Result<Room, AllocError>
        ensures { IfOk result (λ r. r ≡ without_empty content) }
    {
        match content {
            None => Ok(Room::vacant()),
            Some(Content::Constant(Value::Empty)) => Ok(Room::vacant()),
            Some(content) => Ok(Room {
                boxed: Some(Box::new(alloc, content)?),
            }),
        }
    }

    /// What stands in it.
    pub(crate) fn content(&self) -> Option<&Content>
        ensures { option_copied result ≡ self.now }
    {
        match &self.boxed {
            Some(content) => Some(&**content),
            None => None,
        }
    }
}

impl MayBeVacant for Room {
    ghost use Rattle.std.specs.Prelude.{None};
    ghost use Rattle.std.specs.Option.{is_some};
    ghost use Rattle.wi_tiles.specs.Rooms.{tells_none};

    ghost vacant = { None };

    ghost is_taken = { is_some };

    fn vacant() -> Room {
        Room { boxed: None }
    }

    fn is_taken(&self) -> bool {
        self.boxed.is_some()
    }

    ghost tells = { tells_none };
}
