//! The pieces of pairs: a pair stands in the index at each of its blocks.

ghost use Rattle.std.specs.Prelude.{◌+◌, ◌^◌, ◌≤◌};
ghost use Rattle.wi_values.specs.Address.{rows};
ghost use Rattle.wi_ranges.specs.Blocks.{blocks_in};
ghost use Rattle.wi_ranges.specs.Inner.Index.{PutsPieces, TakesPieces};

use crate::block::Block;
use crate::pair::Numbered;
use std::alloc::AllocError;
use std::collections::BTreeSet;

pub(crate) type Pieces = BTreeSet<(Block, Numbered)>;

/// Puts a pair in at each of its blocks within a block. Takes memory only for those where it is new; if that runs out,
/// it may be in at some of them.
pub(crate) fn add_pieces(
    pieces: &mut Pieces,
    numbered: &Numbered,
    block: &Block,
) -> Result<(), AllocError>
    requires { block.now.first + 2 ^ block.now.level ≤ rows }
    ensures { PutsPieces (blocks_in numbered.now.pair block.now) numbered.now result
        pieces.old.keys pieces.new.keys }
{
    if block.lies_within(&numbered.pair) {
        pieces.insert((*block, *numbered))?;
    } else if block.level > 0 && block.meets(&numbered.pair) {
        add_pieces(pieces, numbered, &block.upper())?;
        add_pieces(pieces, numbered, &block.lower())?;
    }
    Ok(())
}

/// Takes a pair out at each of its blocks within a block.
pub(crate) fn take_out(pieces: &mut Pieces, numbered: &Numbered, block: &Block)
    requires { block.now.first + 2 ^ block.now.level ≤ rows }
    ensures { TakesPieces (blocks_in numbered.now.pair block.now) numbered.now
        pieces.old.keys pieces.new.keys }
{
    if block.lies_within(&numbered.pair) {
        let _ = pieces.remove(&(*block, *numbered));
    } else if block.level > 0 && block.meets(&numbered.pair) {
        take_out(pieces, numbered, &block.upper());
        take_out(pieces, numbered, &block.lower());
    }
}
