//! The dependents of a cell: the cells that read it.

ghost use Rattle.std.specs.Prelude.{◌≡◌, ◌<◌, ◌+◌, ◌^◌, ◌≤◌, ◌||◌, ◌∷◌, ◌↔◌, ℕ, [], IsTrue, OnOk};
ghost use Rattle.std.specs.Ordering.{nat_cmp};
ghost use Rattle.std.specs.List.{list_any};
ghost use Rattle.std.specs.BTreeSet.{contains};
ghost use Rattle.wi_values.specs.Address.{row_of, rows};
ghost use Rattle.wi_ranges.specs.Blocks.{blocks_with};
ghost use Rattle.wi_ranges.specs.Inner.Index.{reads_at, AreUpTo, IsReadAt};

use crate::block::Block;
use crate::pair::Numbered;
use crate::pieces::Pieces;
use crate::rising_set::RisingSet;
use std::alloc::AllocError;
use wi_values::Address;

/// The greatest level of a block at which a piece stands, or 0 where there is none.
fn highest_level(pieces: &Pieces) -> u32
    ensures { AreUpTo result pieces.now.keys }
{
    match pieces.last() {
        Some((block, _)) => block.level,
        None => 0,
    }
}

/// The block that holds a row, of the highest level at which a piece stands. At those above it nothing stands.
pub(crate) fn highest_block(pieces: &Pieces, row: u32) -> Block
    ensures within { result.first + 2 ^ result.level ≤ rows }
    ensures all { (a r : ℕ)
        → list_any (reads_at (blocks_with row result.level result.first) a r) pieces.now.keys
        ≡ list_any (reads_at (blocks_with row 20 0) a r) pieces.now.keys }
{
    let level = highest_level(pieces);
    let mut block = Block::sheet();
    while level < block.level {
        block = block.half_with(row);
    }
    block
}

/// Adds the readers of a cell that stand at a block. If memory runs out, some of them may be added. No end of the block
/// is sought among the pieces: one way down is all.
fn add_readers(
    pieces: &Pieces,
    at: Address,
    block: &Block,
    readers: &mut RisingSet,
) -> Result<(), AllocError>
    ensures { OnOk result ((r : ℕ) → contains nat_cmp readers.new r
        ≡ (contains nat_cmp readers.old r
        || list_any (reads_at (block.now ∷ []) at r) pieces.now.keys)) }
{
    let from = (*block, Numbered::lowest());
    for (place, numbered) in pieces.range(from..) {
        if place != block {
            break;
        }
        if numbered.pair.has(at) {
            readers.insert(numbered.pair.reader)?;
        }
    }
    Ok(())
}

/// Adds the readers of a cell that stand at a block that holds the row, or at one of the halves, quarters and so on
/// that do. If memory runs out, some of them may be added.
fn add_all_readers(
    pieces: &Pieces,
    at: Address,
    row: u32,
    block: &Block,
    readers: &mut RisingSet,
) -> Result<(), AllocError>
    requires { block.now.first + 2 ^ block.now.level ≤ rows }
    ensures { OnOk result ((r : ℕ) → contains nat_cmp readers.new r
        ≡ (contains nat_cmp readers.old r || list_any
        (reads_at (blocks_with row block.now.level block.now.first) at r) pieces.now.keys)) }
{
    add_readers(pieces, at, block, readers)?;
    if block.level > 0 {
        add_all_readers(pieces, at, row, &block.half_with(row), readers)?;
    }
    Ok(())
}

/// Adds the readers of a cell that stand at the blocks that hold its row. If memory runs out, some of them may be
/// added.
pub(crate) fn add_readers_of(
    pieces: &Pieces,
    at: Address,
    readers: &mut RisingSet,
) -> Result<(), AllocError>
    ensures found { OnOk result ((r : ℕ) → contains nat_cmp readers.new r
        ≡ (contains nat_cmp readers.old r
        || list_any (reads_at (blocks_with (row_of at) 20 0) at r) pieces.now.keys)) }
    ensures row { row_of at < rows }
{
    let row = at.row();
    if pieces.is_empty() {
        return Ok(());
    }
    let block = highest_block(pieces, row);
    add_all_readers(pieces, at, row, &block, readers)
}

/// Whether a cell has a reader that stands at a block.
fn has_readers_at(pieces: &Pieces, at: Address, block: &Block) -> bool
    ensures { IsTrue result ↔ IsReadAt (block.now ∷ []) at pieces.now.keys }
{
    let from = (*block, Numbered::lowest());
    for (place, numbered) in pieces.range(from..) {
        if place != block {
            break;
        }
        if numbered.pair.has(at) {
            return true;
        }
    }
    false
}

/// Whether a cell has a reader that stands at a block that holds the row, or at one of the halves, quarters and so on
/// that do.
fn has_readers_within(pieces: &Pieces, at: Address, row: u32, block: &Block) -> bool
    requires { block.now.first + 2 ^ block.now.level ≤ rows }
    ensures { IsTrue result
        ↔ IsReadAt (blocks_with row block.now.level block.now.first) at pieces.now.keys }
{
    if has_readers_at(pieces, at, block) {
        return true;
    }
    if block.level > 0 {
        return has_readers_within(pieces, at, row, &block.half_with(row));
    }
    false
}

/// Whether a cell has a reader that stands at a block that holds its row.
pub(crate) fn has_readers_in(pieces: &Pieces, at: Address) -> bool
    ensures read { IsTrue result ↔ IsReadAt (blocks_with (row_of at) 20 0) at pieces.now.keys }
    ensures row { row_of at < rows }
{
    let row = at.row();
    if pieces.is_empty() {
        return false;
    }
    let block = highest_block(pieces, row);
    has_readers_within(pieces, at, row, &block)
}
