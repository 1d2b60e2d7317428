//! The tiles of a band, in order of their groups of columns.

ghost use Rattle.std.specs.Prelude.{◌≡◌, ◌<◌, ◌≤◌, ◌*◌, ◌%◌, ℕ, length, true, Some, None, OnOk, OnErr, IfOk, IfErr, option_copied};
ghost use Rattle.std.specs.List.{All, remove};
ghost use Rattle.wi_tiles.specs.Inner.Changes.{IsKept, IsChanged};
ghost use Rattle.wi_tiles.specs.Inner.Lines.{slot};
ghost use Rattle.wi_tiles.specs.Inner.Sorted.{find, key, Rises, IsGap, at_sorted, groups, IsFilled};

use crate::places::{Places, room_for_first};
use crate::tile::Tile;
use std::alloc::{AllocError, Global};
use std::marker::Model;

/// How many keys there may be.
const GROUPS: u64 = 4_096;

/// Tiles in order of their keys, found by the first digit of a path. Each has something.
#[derive(Drop)]
pub(crate) struct Band<V> {
    parts: Vec<(u32, Tile<V>)>,
}

impl<V> Model for Band<V> {
    ghost use Rattle.std.specs.List.{All};
    ghost use Rattle.wi_tiles.specs.Inner.Cells.{Band};
    ghost use Rattle.wi_tiles.specs.Inner.Lines.{slot};
    ghost use Rattle.wi_tiles.specs.Inner.Sorted.{Rises, IsFilled};

    ghost Value = { Band V };

    ghost view = { λ b. b.parts.items };

    ghost invariant = { λ b. Rises b.parts.items × All (IsFilled slot) b.parts.items };
}

impl<V> Band<V> {
    /// The tiles with their keys, in order.
    pub(crate) fn parts(&self) -> &[(u32, Tile<V>)]
        ensures parts { result.now ≡ self.now }
        ensures rises { Rises result.now }
    {
        &self.parts
    }
}

impl<V: Drop> Places<V> for Band<V> {
    ghost use Rattle.std.specs.Prelude.{◌*◌};
    ghost use Rattle.wi_tiles.specs.Inner.Lines.{slot};
    ghost use Rattle.wi_tiles.specs.Inner.Sorted.{at_sorted, groups};

    ghost size = { groups * 64 };

    ghost at = { λ b p. at_sorted slot b p };

    fn vacant(alloc: Global) -> Band<V> {
        Band {
            parts: Vec::new(alloc),
        }
    }

    fn is_vacant(&self) -> bool {
        self.parts.is_empty()
    }

    #[inline(always)]
    fn get(&self, path: u64) -> Option<&V> {
        match part_of(&self.parts, (path % GROUPS) as u32) {
            Some(part) => part.get(path / GROUPS),
            None => None,
        }
    }

    #[inline(always)]
    fn put_new(&mut self, path: u64, value: V, alloc: Global) -> Result<bool, AllocError> {
        let group = (path % GROUPS) as u32;
        match place_of(&self.parts, group) {
            Ok(place) => self.parts[place].1.put_new(path / GROUPS, value, alloc),
            Err(place) => put_part(&mut self.parts, place, path, value, alloc),
        }
    }

    fn replace(&mut self, path: u64, value: V) -> Option<V> {
        match place_of(&self.parts, (path % GROUPS) as u32) {
            Ok(place) => self.parts[place].1.replace(path / GROUPS, value),
            Err(_) => None,
        }
    }

    fn remove(&mut self, path: u64, alloc: Global) -> Option<V> {
        match place_of(&self.parts, (path % GROUPS) as u32) {
            Ok(place) => {
                let value = self.parts[place].1.remove(path / GROUPS, alloc);
                drop_vacant(&mut self.parts, place);
                value
            }
            Err(_) => None,
        }
    }
}

/// Puts in a tile with one value, at the place of its key. If memory runs out, all is as before.
fn put_part<V: Drop>(
    parts: &mut Vec<(u32, Tile<V>)>,
    place: usize,
    path: u64,
    value: V,
    alloc: Global,
) -> Result<bool, AllocError>
    requires rises { Rises parts.old.items }
    requires within { path < groups * 64 }
    requires place { IsGap parts.old.items place (path % groups) }
    ensures rises { Rises parts.new.items }
    ensures filled { All (IsFilled slot) parts.old.items → All (IsFilled slot) parts.new.items }
    ensures new { IfOk result (λ new. new ≡ true) }
    ensures ok { OnOk result (IsChanged (at_sorted slot) parts.old.items parts.new.items path
        (Some value)) }
    ensures err { OnErr result (IsKept (at_sorted slot) parts.old.items parts.new.items) }
{
    let mut part = Tile::vacant(alloc);
    part.put_new(path / GROUPS, value, alloc)?;
    room_for_first(parts)?;
    parts.insert(place, ((path % GROUPS) as u32, part))?;
    Ok(true)
}

/// Takes away a tile that has nothing.
fn drop_vacant<V: Drop>(parts: &mut Vec<(u32, Tile<V>)>, place: usize)
    requires rises { Rises parts.old.items }
    requires within { place < length parts.old.items }
    ensures rises { Rises parts.new.items }
    ensures filled { key parts.old.items place < groups
        → All (IsFilled slot) (remove parts.old.items place)
        → All (IsFilled slot) parts.new.items }
    ensures kept { IsKept (at_sorted slot) parts.old.items parts.new.items }
{
    if parts[place].1.is_vacant() {
        let _ = parts.remove(place);
    }
}

/// Where the part with a key stands, or else where it would.
fn place_of<T>(parts: &[(u32, T)], group: u32) -> Result<usize, usize>
    requires { Rises parts.now }
    ensures ok { IfOk result (λ i. (i < length parts.now) × (key parts.now i ≡ group)) }
    ensures none { IfErr result (λ i. IsGap parts.now i group × (find group parts.now ≡ None)) }
{
    let place = place_from(parts, group);
    if parts.len() <= place {
        return Err(place);
    }
    let part = &parts[place];
    if part.0 != group {
        return Err(place);
    }
    Ok(place)
}

/// The place of the first part with a key or a later one.
#[inline(always)]
pub(crate) fn place_from<T>(parts: &[(u32, T)], group: u32) -> usize
    requires { Rises parts.now }
    ensures bound { result ≤ length parts.now }
    ensures below { (i : ℕ) → i < result → key parts.now i < group }
    ensures above { (i : ℕ) → result ≤ i → i < length parts.now → group ≤ key parts.now i }
{
    let mut low = 0;
    let mut high = parts.len();
    while low < high {
        let middle = low + (high - low) / 2;
        if parts[middle].0 < group {
            low = middle + 1;
        } else {
            high = middle;
        }
    }
    low
}

/// The part with a key.
#[inline(always)]
fn part_of<T>(parts: &[(u32, T)], group: u32) -> Option<&T>
    requires { Rises parts.now }
    ensures { option_copied result ≡ find group parts.now }
{
    let place = place_from(parts, group);
    if parts.len() <= place {
        return None;
    }
    let part = &parts[place];
    if part.0 != group {
        return None;
    }
    Some(&part.1)
}
