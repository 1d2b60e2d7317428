//! The readers of a cell by the rectangles that have it, but for rectangles of which they were told before.

ghost use Rattle.std.specs.Prelude.{◌≡◌, ◌||◌, ◌&&◌, ◌∷◌, ◌^◌, ◌+◌, ◌≤◌, ◌<◌, ℕ, [], not, true, false, filter, IsTrue, IfOk, OnOk};
ghost use Rattle.std.specs.List.{list_any};
ghost use Rattle.std.specs.Ordering.{nat_cmp};
ghost use Rattle.std.specs.BTreeSet.{contains};
ghost use Rattle.wi_values.specs.Address.{is_within, row_of, rows};
ghost use Rattle.wi_ranges.specs.Bag.{pair_area};
ghost use Rattle.wi_ranges.specs.Blocks.{blocks_with};
ghost use Rattle.wi_ranges.specs.declared.pair.RangePair.{RangePair as Pair};
ghost use Rattle.wi_ranges.specs.Inner.Index.{has_piece, Piece};
ghost use Rattle.wi_ranges.specs.Inner.Telling.{has_area, is_gone, is_same_area, reads_for, stands_for, untold, was_told, Tells, TellsReaders};

use crate::block::Block;
use crate::pair::{Numbered, RangePair};
use crate::pieces::Pieces;
use crate::readers::highest_block;
use crate::rising_set::RisingSet;
use std::alloc::{AllocError, Global};
use std::collections::BTreeMap;
use wi_values::Address;

/// A pair for each rectangle that is left, by the blocks that were looked at.
pub(crate) type Left = BTreeMap<Block, Vec<RangePair>>;

/// A pair for each rectangle that stands at a block.
fn areas_at(alloc: Global, pieces: &Pieces, block: &Block) -> Result<Vec<RangePair>, AllocError>
    ensures { IfOk result (λ areas. (q : Piece) → has_piece pieces.now.keys q ≡ true
        → is_gone block.now areas.items q ≡ false) }
{
    let mut areas = Vec::new(alloc);
    add_areas(pieces, block, &mut areas)?;
    Ok(areas)
}

/// Adds a pair for each rectangle that stands at a block to some.
fn add_areas(pieces: &Pieces, block: &Block, areas: &mut Vec<RangePair>) -> Result<(), AllocError>
    ensures { OnOk result ((q : Piece) → has_piece pieces.now.keys q ≡ true
        → is_gone block.now areas.new.items q ≡ false) }
{
    let from = (*block, Numbered::lowest());
    for (place, numbered) in pieces.range(from..) {
        if place != block {
            break;
        }
        add_area(areas, &numbered.pair)?;
    }
    Ok(())
}

/// Puts a pair at the end of some, unless the last is of the same rectangle.
fn add_area(areas: &mut Vec<RangePair>, pair: &RangePair) -> Result<(), AllocError>
    ensures stays { OnOk result ((p : Pair) → has_area areas.old.items p ≡ true
        → has_area areas.new.items p ≡ true) }
    ensures there { OnOk result ((p : Pair) → is_same_area pair.now p ≡ true
        → has_area areas.new.items p ≡ true) }
{
    if !ends_with(areas, pair) {
        areas.push(*pair)?;
    }
    Ok(())
}

/// Whether the last of some pairs is of the same rectangle as another.
fn ends_with(areas: &[RangePair], pair: &RangePair) -> bool
    ensures { IsTrue result → (p : Pair) → is_same_area pair.now p ≡ true
        → has_area areas.now p ≡ true }
{
    match areas.last() {
        Some(last) => last.has_area_of(pair),
        None => false,
    }
}

/// Adds the readers of a pair's rectangle that stand at a block. If memory runs out, some of them may be added.
fn add_readers_for(
    pieces: &Pieces,
    block: &Block,
    area: &RangePair,
    readers: &mut RisingSet,
) -> Result<(), AllocError>
    ensures { OnOk result ((r : ℕ) → contains nat_cmp readers.new r
        ≡ (contains nat_cmp readers.old r
        || list_any (reads_for block.now area.now r) pieces.now.keys)) }
{
    let from = (*block, area.first_numbered());
    for (place, numbered) in pieces.range(from..) {
        if !stands_for(place, &numbered.pair, block, area) {
            break;
        }
        readers.insert(numbered.pair.reader)?;
    }
    Ok(())
}

/// Whether a pair at a place stands at a block, and is of the same rectangle as another.
fn stands_for(place: &Block, pair: &RangePair, block: &Block, area: &RangePair) -> bool
    ensures { (n : ℕ) → result ≡ stands_for block.now area.now
        (place.now, record { pair = pair.now; number = n }) }
{
    place == block && pair.has_area_of(area)
}

/// Whether one of the rectangles has a cell.
fn any_has(areas: &[RangePair], at: Address) -> bool
    ensures { result ≡ list_any (λ p. is_within (pair_area p) at) areas.now }
{
    areas.iter().any(|area| area.has(at))
}

/// Those of the rectangles that don't have a cell.
fn apart(alloc: Global, areas: &[RangePair], at: Address) -> Result<Vec<RangePair>, AllocError>
    ensures { IfOk result (λ list. list.items
        ≡ filter (λ p. not (is_within (pair_area p) at)) areas.now) }
{
    areas
        .iter()
        .filter(|area| !area.has(at))
        .copied()
        .collect(alloc)
}

/// Adds the readers of a pair's rectangle that stand at a block, if it has a cell. If memory runs out, some of them may
/// be added.
fn add_readers_if_met(
    pieces: &Pieces,
    at: Address,
    block: &Block,
    area: &RangePair,
    readers: &mut RisingSet,
) -> Result<(), AllocError>
    ensures { OnOk result ((r : ℕ) → contains nat_cmp readers.new r
        ≡ (contains nat_cmp readers.old r || (is_within (pair_area area.now) at
        && list_any (reads_for block.now area.now r) pieces.now.keys))) }
{
    if !area.has(at) {
        return Ok(());
    }
    add_readers_for(pieces, block, area, readers)
}

/// Adds the readers of those of some rectangles at a block that have a cell. If memory runs out, some of them may be
/// added.
fn add_readers_of_met(
    pieces: &Pieces,
    at: Address,
    block: &Block,
    areas: &[RangePair],
    readers: &mut RisingSet,
) -> Result<(), AllocError>
    ensures { OnOk result (Tells pieces.now.keys (block.now ∷ []) at
        (is_gone block.now areas.now) (is_gone block.now areas.now) readers.old readers.new) }
{
    for area in areas {
        add_readers_if_met(pieces, at, block, area, readers)?;
    }
    Ok(())
}

/// Adds the readers of a cell by the rectangles that are left at a block, and takes these rectangles away.
fn tell_left(
    alloc: Global,
    pieces: &Pieces,
    at: Address,
    block: &Block,
    left: &mut Vec<RangePair>,
    readers: &mut RisingSet,
) -> Result<(), AllocError>
    ensures { OnOk result (Tells pieces.now.keys (block.now ∷ []) at
        (is_gone block.now left.old.items) (is_gone block.now left.new.items)
        readers.old readers.new) }
{
    if !any_has(left, at) {
        return Ok(());
    }
    add_readers_of_met(pieces, at, block, left, readers)?;
    let rest = apart(alloc, left, at)?;
    *left = rest;
    Ok(())
}

/// Adds the readers of a cell that stand at a block that wasn't looked at yet, and answers which rectangles are left
/// there.
fn tell_first(
    alloc: Global,
    pieces: &Pieces,
    at: Address,
    block: &Block,
    readers: &mut RisingSet,
) -> Result<Vec<RangePair>, AllocError>
    ensures { IfOk result (λ left. Tells pieces.now.keys (block.now ∷ []) at
        untold (is_gone block.now left.items) readers.old readers.new) }
{
    let mut areas = areas_at(alloc, pieces, block)?;
    tell_left(alloc, pieces, at, block, &mut areas, readers)?;
    Ok(areas)
}

/// Adds the readers of a cell that stand at a block, but for those of rectangles that aren't left there.
fn tell_at(
    alloc: Global,
    pieces: &Pieces,
    at: Address,
    block: &Block,
    left: &mut Left,
    readers: &mut RisingSet,
) -> Result<(), AllocError>
    ensures { OnOk result (Tells pieces.now.keys (block.now ∷ []) at
        (was_told left.old) (was_told left.new) readers.old readers.new) }
{
    if let Some(areas) = left.get_mut(block) {
        return tell_left(alloc, pieces, at, block, areas, readers);
    }
    let areas = tell_first(alloc, pieces, at, block, readers)?;
    left.insert(*block, areas)?;
    Ok(())
}

/// Adds such readers at a block that holds the row, and at those of the halves, quarters and so on that do.
fn tell_all(
    alloc: Global,
    pieces: &Pieces,
    at: Address,
    row: u32,
    block: &Block,
    left: &mut Left,
    readers: &mut RisingSet,
) -> Result<(), AllocError>
    requires { block.now.first + 2 ^ block.now.level ≤ rows }
    ensures { OnOk result (Tells pieces.now.keys
        (blocks_with row block.now.level block.now.first) at
        (was_told left.old) (was_told left.new) readers.old readers.new) }
{
    tell_at(alloc, pieces, at, block, left, readers)?;
    if block.level > 0 {
        tell_all(alloc, pieces, at, row, &block.half_with(row), left, readers)?;
    }
    Ok(())
}

/// Adds the readers of a cell by the rectangles that have it, but for those of rectangles that aren't left. If memory
/// runs out, some of them may be added.
pub(crate) fn tell_readers(
    alloc: Global,
    pieces: &Pieces,
    at: Address,
    left: &mut Left,
    readers: &mut RisingSet,
) -> Result<(), AllocError>
    ensures told { OnOk result (TellsReaders pieces.now.keys (blocks_with (row_of at) 20 0) at
        (was_told left.old) (was_told left.new) readers.old readers.new) }
    ensures row { row_of at < rows }
{
    let row = at.row();
    if pieces.is_empty() {
        return Ok(());
    }
    let block = highest_block(pieces, row);
    tell_all(alloc, pieces, at, row, &block, left, readers)
}
