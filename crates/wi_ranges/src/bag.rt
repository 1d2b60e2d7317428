//! Pairs put in and taken out at their blocks, equal ones by their numbers.

ghost use Rattle.std.specs.Prelude.{◌≡◌, true};
ghost use Rattle.wi_ranges.specs.Blocks.{blocks_of};
ghost use Rattle.wi_ranges.specs.Bag.{HasOneLess, count_of};
ghost use Rattle.wi_ranges.specs.Inner.Index.{AddsNumbered, AddsPair, AreWhole, MayAdd, bag_of, is_among, is_at_block};

use crate::block::Block;
use crate::pair::{Numbered, RangePair};
use crate::pieces::{Pieces, add_pieces, take_out};
use std::alloc::AllocError;

/// Whether a piece is one of a pair at a block.
fn is_of(piece: &(Block, Numbered), pair: &RangePair, block: &Block) -> bool
    ensures { result ≡ is_at_block block.now pair.now piece.now }
{
    piece.0 == *block && piece.1.pair == *pair
}

/// How many there are of a pair: one more than the number of its last piece at one of its blocks.
fn count_at(pieces: &Pieces, pair: &RangePair, block: &Block) -> u64
    requires whole { AreWhole pieces.now.keys }
    requires among { is_among block.now (blocks_of pair.now) ≡ true }
    ensures { result ≡ count_of (bag_of pieces.now.keys) pair.now }
{
    let end = Numbered {
        pair: *pair,
        number: u64::MAX,
    };
    match pieces.range(..=(*block, end)).next_back() {
        Some(last) => {
            if !is_of(last, pair, block) {
                return 0;
            }
            let number = last.1.number;
            // Each equal pair has a block, so they are no more than the pieces in memory.
            prove!(number < pieces.len() as u64);
            number + 1
        }
        None => 0,
    }
}

/// Adds a pair by its number among equal ones, and answers whether there was none of this number. On an error all is as
/// before.
fn add_numbered(
    pieces: &mut Pieces,
    numbered: &Numbered,
    around: &Block,
) -> Result<bool, AllocError>
    requires { MayAdd numbered.now around.now pieces.old.keys }
    ensures { AddsNumbered numbered.now result pieces.old.keys pieces.new.keys }
{
    let before = pieces.len();
    match add_pieces(pieces, numbered, around) {
        Ok(()) => Ok(before < pieces.len()),
        Err(refused) => {
            take_out(pieces, numbered, around);
            Err(refused)
        }
    }
}

/// Adds a pair. On an error all is as before.
pub(crate) fn add_pair(pieces: &mut Pieces, pair: &RangePair) -> Result<(), AllocError>
    requires { AreWhole pieces.old.keys }
    ensures { AddsPair pair.now result pieces.old.keys pieces.new.keys }
{
    let around = Block::around(pair);
    let first = Numbered {
        pair: *pair,
        number: 0,
    };
    // Most pairs have no equal one, so equal ones are counted only where there is a first.
    if add_numbered(pieces, &first, &around)? {
        return Ok(());
    }
    let next = Numbered {
        pair: *pair,
        number: count_at(pieces, pair, &around.first_of(pair)),
    };
    add_numbered(pieces, &next, &around)?;
    Ok(())
}

/// Takes away the last of the pairs that are equal to one, if there is one.
pub(crate) fn remove_pair(pieces: &mut Pieces, pair: &RangePair)
    requires { AreWhole pieces.old.keys }
    ensures less { HasOneLess pair.now (bag_of pieces.old.keys) (bag_of pieces.new.keys) }
    ensures whole { AreWhole pieces.new.keys }
{
    let around = Block::around(pair);
    let count = count_at(pieces, pair, &around.first_of(pair));
    if count > 0 {
        let last = Numbered {
            pair: *pair,
            number: count - 1,
        };
        take_out(pieces, &last, &around);
    }
}
