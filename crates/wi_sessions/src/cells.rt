//! Cells with a bit for each session for which they are pending or have room only. Bits of rooms stand in a list beside
//! them too: as that is emptied the cells are pending, with no search and no memory.

ghost use Rattle.std.specs.Prelude.{◌≡◌, ◌≢◌, true, ◌==◌, ◌<◌, ◌*◌, ℕ, Some, None, MatchResult, OnOk, ◌++◌, ◌∷◌, ◌||◌, ◌&&◌, filter, [], OnErr};
ghost use Rattle.std.specs.Option.{is_some};
ghost use Rattle.std.specs.List.Sorted.{IsStrictlyIncreasing};
ghost use Rattle.std.specs.Ordering.{nat_cmp};
ghost use Rattle.std.specs.Map.{lookup};
ghost use Rattle.std.specs.BTreeMap.{is_at};
ghost use Rattle.wi_tiles.specs.Entries.{IsOrdered};
ghost use Rattle.wi_values.specs.Address.{is_one_of};
ghost use Rattle.wi_sessions.specs.Inner.Cells.{has_bit, is_in, is_staged, cells_with, at_cells, SamePending, HasMade, HasCleared, MakesRooms};

use crate::bits::{common, has, is_bare, joined, without};
use std::alloc::{AllocError, Global};
use wi_tiles::CellMap;
use wi_values::{Address, rise};

/// All cells that are pending for a session or have room only, each with the bits of these sessions.
pub(crate) type Words = CellMap<u64>;

/// A cell, and the bits of sessions for which it has room only.
pub(crate) type StagedBits = (Address, u64);

/// The bits of a cell, if it stands there.
pub(crate) fn found(words: &Words, at: Address) -> Option<u64>
    ensures { result ≡ lookup (is_at (nat_cmp at)) words.now.entries }
{
    words.get(at).copied()
}

/// The bits of a cell.
fn word_of(words: &Words, at: Address) -> u64
    ensures { (i : ℕ) → has_bit i result ≡ is_in words.now.entries i at }
{
    match found(words, at) {
        Some(word) => word,
        None => 0,
    }
}

/// Makes room for a cell that has bits.
fn stage_there(
    words: &mut Words,
    staged: &mut Vec<StagedBits>,
    at: Address,
    bits: u64,
) -> Result<(), AllocError>
    requires order { IsOrdered nat_cmp words.old }
    requires there { is_some (lookup (is_at (nat_cmp at)) words.old.entries) ≡ true }
    ensures order { IsOrdered nat_cmp words.new }
    ensures rooms { MakesRooms (λ c. at == c) bits result
        words.old.entries staged.old.items words.new.entries staged.new.items }
{
    let word = found(words, at).unwrap();
    let more = without(bits, word);
    if is_bare(more) {
        return Ok(());
    }
    staged.reserve(1)?;
    let _ = words.replace(at, joined(word, more));
    staged.push((at, more)).unwrap();
    Ok(())
}

/// Makes room for a cell in the lists of these sessions.
fn stage_one(
    words: &mut Words,
    staged: &mut Vec<StagedBits>,
    at: Address,
    bits: u64,
) -> Result<(), AllocError>
    requires { IsOrdered nat_cmp words.old }
    ensures order { IsOrdered nat_cmp words.new }
    ensures rooms { MakesRooms (λ c. at == c) bits result
        words.old.entries staged.old.items words.new.entries staged.new.items }
{
    staged.reserve(1)?;
    let is_new = words.put_new(at, bits)?;
    if !is_new {
        return stage_there(words, staged, at, bits);
    }
    staged.push((at, bits)).unwrap();
    Ok(())
}

/// Makes room for cells in the lists of these sessions. If memory runs out, there is room for a part of them.
#[inline(always)]
pub(crate) fn stage_each(
    words: &mut Words,
    staged: &mut Vec<StagedBits>,
    cells: &[Address],
    bits: u64,
) -> Result<(), AllocError>
    requires { IsOrdered nat_cmp words.old }
    ensures order { IsOrdered nat_cmp words.new }
    ensures rooms { MakesRooms (is_one_of cells.now) bits result
        words.old.entries staged.old.items words.new.entries staged.new.items }
{
    for at in cells {
        stage_one(words, staged, *at, bits)?;
    }
    Ok(())
}

/// Makes room for cells in the lists of these sessions. If memory runs out, all rooms go, those that were there too.
pub(crate) fn stage(
    words: &mut Words,
    staged: &mut Vec<StagedBits>,
    cells: &[Address],
    bits: u64,
) -> Result<(), AllocError>
    requires { IsOrdered nat_cmp words.old }
    ensures order { IsOrdered nat_cmp words.new }
    ensures pending { SamePending words.old.entries staged.old.items
        words.new.entries staged.new.items }
    ensures room { OnOk result (HasMade (at_cells cells.now bits)
        words.old.entries staged.old.items words.new.entries staged.new.items) }
    ensures refused { OnErr result (staged.new.items ≡ []) }
{
    match stage_each(words, staged, cells, bits) {
        Ok(()) => Ok(()),
        Err(error) => {
            cancel(words, staged);
            Err(error)
        }
    }
}

/// Takes bits of a cell away.
fn clear_one(words: &mut Words, at: Address, bits: u64)
    requires { IsOrdered nat_cmp words.old }
    ensures order { IsOrdered nat_cmp words.new }
    ensures less { HasCleared (λ i c. at == c && has_bit i bits)
        words.old.entries words.new.entries }
{
    match found(words, at) {
        Some(word) => clear_there(words, at, word, bits),
        None => {}
    }
}

/// Takes bits of a cell that has these bits away. A cell without bits goes.
fn clear_there(words: &mut Words, at: Address, word: u64, bits: u64)
    requires order { IsOrdered nat_cmp words.old }
    requires there { lookup (is_at (nat_cmp at)) words.old.entries ≡ Some word }
    ensures order { IsOrdered nat_cmp words.new }
    ensures less { HasCleared (λ i c. at == c && has_bit i bits)
        words.old.entries words.new.entries }
{
    let left = without(word, bits);
    if is_bare(left) {
        let _ = words.remove(at);
    } else {
        let _ = words.replace(at, left);
    }
}

/// Takes bits of cells away.
pub(crate) fn clear_each(words: &mut Words, cells: &[Address], bits: u64)
    requires { IsOrdered nat_cmp words.old }
    ensures order { IsOrdered nat_cmp words.new }
    ensures less { HasCleared (at_cells cells.now bits) words.old.entries words.new.entries }
{
    for at in cells {
        clear_one(words, *at, bits);
    }
}

/// The rooms of a session go. They stay listed, which tells nothing where its bit is gone.
pub(crate) fn drop_rooms(words: &mut Words, staged: &[StagedBits], bit: u64)
    requires { IsOrdered nat_cmp words.old }
    ensures order { IsOrdered nat_cmp words.new }
    ensures less { HasCleared (λ i c. is_staged staged.now i c && has_bit i bit)
        words.old.entries words.new.entries }
{
    for (at, bits) in staged {
        clear_one(words, *at, common(*bits, bit));
    }
}

/// Takes the bits of rooms away.
fn clear_staged(words: &mut Words, staged: &[StagedBits])
    requires { IsOrdered nat_cmp words.old }
    ensures order { IsOrdered nat_cmp words.new }
    ensures less { HasCleared (is_staged staged.now) words.old.entries words.new.entries }
{
    for (at, bits) in staged {
        clear_one(words, *at, *bits);
    }
}

/// All rooms go.
pub(crate) fn cancel(words: &mut Words, staged: &mut Vec<StagedBits>)
    requires { IsOrdered nat_cmp words.old }
    ensures order { IsOrdered nat_cmp words.new }
    ensures pending { SamePending words.old.entries staged.old.items
        words.new.entries staged.new.items }
    ensures none { staged.new.items ≡ [] }
{
    clear_staged(words, staged);
    staged.clear();
}

/// The bits of rooms that a cell has. The work grows with the rooms, of which there are none but within an edit.
pub(crate) fn staged_of(staged: &[StagedBits], at: Address) -> u64
    ensures { (i : ℕ) → has_bit i result ≡ is_staged staged.now i at }
{
    let mut bits = 0;
    for (cell, more) in staged {
        bits = with_room(bits, *cell, *more, at);
    }
    bits
}

/// The bits, with those of a room if it is a cell's.
fn with_room(bits: u64, cell: Address, more: u64, at: Address) -> u64
    ensures { (i : ℕ) → has_bit i result ≡ (has_bit i bits || (cell == at && has_bit i more)) }
{
    if cell == at {
        return joined(bits, more);
    }
    bits
}

/// Whether a cell has room only, in the list of a session.
pub(crate) fn is_staged(staged: &[StagedBits], i: usize, at: Address) -> bool
    requires { i < 64 }
    ensures { result ≡ is_staged staged.now i at }
{
    has(staged_of(staged, at), i)
}

/// Whether a session's bit stands at a cell.
fn is_in(words: &Words, i: usize, at: Address) -> bool
    requires { i < 64 }
    ensures { result ≡ is_in words.now.entries i at }
{
    has(word_of(words, at), i)
}

/// Appends a cell if a session's bit stands in its word.
fn push_with(found: &mut Vec<Address>, at: Address, word: u64, i: usize) -> Result<(), AllocError>
    requires { i < 64 }
    ensures { MatchResult result
        (λ done. found.new.items ≡ found.old.items ++ cells_with ((at, word) ∷ []) i)
        (λ error. has_bit i word ≡ true) }
{
    if has(word, i) {
        found.push(at)?;
    }
    Ok(())
}

/// The cells with a session's bit, by a walk through all. Where there are none, it takes no memory.
pub(crate) fn walked(alloc: Global, words: &Words, i: usize) -> Result<Vec<Address>, AllocError>
    requires { i < 64 }
    ensures { MatchResult result (λ found. found.items ≡ cells_with words.now.entries i)
        (λ error. cells_with words.now.entries i ≢ []) }
{
    let mut found = Vec::new(alloc);
    let mut rest = words.iter();
    // A step for each cell and none behind the last, which would go on to the end of the sheet.
    for _ in 0..words.len() {
        let Some(next) = rest.next() else {
            return Ok(found);
        };
        push_with(&mut found, next.0, *next.1, i)?;
    }
    Ok(found)
}

/// Appends those of some cells that have a session's bit. Where there are none, it takes no memory.
pub(crate) fn push_those(
    found: &mut Vec<Address>,
    words: &Words,
    cells: &[Address],
    i: usize,
) -> Result<(), AllocError>
    requires { i < 64 }
    ensures { MatchResult result
        (λ done. found.new.items
        ≡ found.old.items ++ filter (is_in words.now.entries i) cells.now)
        (λ error. filter (is_in words.now.entries i) cells.now ≢ []) }
{
    for at in cells {
        if is_in(words, i, *at) {
            found.push(*at)?;
        }
    }
    Ok(())
}

/// Puts cells into row-major order, each once.
pub(crate) fn put_in_order(cells: &mut Vec<Address>)
    ensures order { IsStrictlyIncreasing cells.new.items }
    ensures same { (c : ℕ) → is_one_of cells.new.items c ≡ is_one_of cells.old.items c }
{
    if !rise(cells) {
        sort(cells);
    }
}

/// Sorts cells into row-major order, and keeps each once.
fn sort(cells: &mut Vec<Address>)
    ensures order { IsStrictlyIncreasing cells.new.items }
    ensures same { (c : ℕ) → is_one_of cells.new.items c ≡ is_one_of cells.old.items c }
{
    cells.sort_unstable();
    cells.dedup();
}
