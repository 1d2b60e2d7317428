//! Something for each of some of 64 cells.

ghost use Rattle.std.specs.Prelude.{◌≡◌, ◌↔◌, ◌<◌, ◌≤◌, if◌then◌else◌, ℕ, Some, None, IsSome, IsTrue, OnOk, OnErr, is_ok, length, count_ones, option_copied, option_map, slice_index_or, slice_set};
ghost use Rattle.std.specs.Int.{bit_at};
ghost use Rattle.std.specs.List.{insert};
ghost use Rattle.wi_tiles.specs.Inner.Changes.{IsChanged};
ghost use Rattle.wi_tiles.specs.Inner.Lines.{slot};
ghost use Rattle.wi_tiles.specs.Inner.Tile.{rank};
ghost use Rattle.wi_tiles.specs.Inner.Within.{filled};

use crate::places::Places;
use std::alloc::{AllocError, AllocFailed, Global};
use std::marker::Model;
use std::mem;

/// The cells of a tile that have something, by bits, and what they have. It is seen as 64 places.
#[derive(Drop)]
pub(crate) struct Tile<V> {
    bits: u64,
    values: Vec<V>,
}

impl<V> Model for Tile<V> {
    ghost use Rattle.std.specs.Prelude.{List, Option, ◌≡◌, length, count_ones};
    ghost use Rattle.wi_tiles.specs.Inner.Tile.{slots};

    ghost Value = { List (Option V) };

    ghost view = { λ t. slots t.bits t.values.items };

    ghost invariant = { λ t. length t.values.items ≡ count_ones t.bits };
}

impl<V> Tile<V> {
    /// Nothing. Takes no memory.
    fn new(alloc: Global) -> Tile<V>
        ensures { (i : ℕ) → slice_index_or result i None ≡ None }
    {
        Tile {
            bits: 0,
            values: Vec::new(alloc),
        }
    }

    /// Whether no bit has anything.
    fn has_nothing(&self) -> bool
        ensures { IsTrue result ↔ ((i : ℕ) → slice_index_or self.now i None ≡ None) }
    {
        self.bits == 0
    }

    /// What a bit has.
    #[inline(always)]
    fn value(&self, bit: u32) -> Option<&V>
        requires { bit < 64 }
        ensures { option_copied result ≡ slice_index_or self.now bit None }
    {
        if (self.bits >> bit) & 1 == 0 {
            return None;
        }
        let place = rank(self.bits, bit);
        Some(&self.values[place])
    }

    /// The bits of a mask that have something.
    pub(crate) fn bits_of(&self, mask: u64) -> u64
        ensures sound { (i : ℕ) → i < 64 → bit_at result i ≡ 1
            → (bit_at mask i ≡ 1) × IsSome (slice_index_or self.now i None) }
        ensures whole { (i : ℕ) → i < 64 → bit_at mask i ≡ 1
            → IsSome (slice_index_or self.now i None) → bit_at result i ≡ 1 }
    {
        self.bits & mask
    }

    /// How many bits before one have something.
    pub(crate) fn count_before(&self, bit: u32) -> usize
        requires { bit < 64 }
        ensures { result ≡ filled self.now bit }
    {
        rank_of_first(self.bits, bit)
    }

    /// What the bit has before which so many have something.
    pub(crate) fn value_at(&self, place: usize) -> &V
        requires { place < filled self.now 64 }
        ensures { (i : ℕ) → i < 64 → IsSome (slice_index_or self.now i None)
            → filled self.now i ≡ place → slice_index_or self.now i None ≡ Some result.now }
    {
        &self.values[place]
    }

    /// Takes room for 16 values, as many as a column of a tile has, where the four that there was room for at first are
    /// there. If memory runs out, all is as before.
    fn widen(&mut self) -> Result<(), AllocError>
        ensures { self.new ≡ self.old }
    {
        room_for_column(&mut self.values)
    }

    /// Puts a value where nothing stands. If memory runs out, all is as before.
    #[inline(always)]
    fn put_value(&mut self, bit: u32, value: V) -> Result<(), AllocFailed<V>>
        requires within { bit < 64 }
        requires vacant { slice_index_or self.old bit None ≡ None }
        ensures ok { OnOk result (self.new ≡ slice_set self.old bit (Some value)) }
        ensures there { OnOk result (slice_index_or self.new bit None ≡ Some value) }
        ensures err { OnErr result (self.new ≡ self.old) }
    {
        let place = place_of(self.bits, self.values.len(), bit);
        insert_value(&mut self.values, place, value)?;
        self.bits |= 1 << bit;
        Ok(())
    }

    /// Takes away what a bit has. Takes no memory.
    fn remove_value(&mut self, bit: u32) -> Option<V>
        requires { bit < 64 }
        ensures value { result ≡ slice_index_or self.old bit None }
        ensures slots { self.new ≡ slice_set self.old bit None }
    {
        if (self.bits >> bit) & 1 == 0 {
            return None;
        }
        let place = rank(self.bits, bit);
        let value = self.values.remove(place);
        self.bits &= !(1 << bit);
        Some(value)
    }
}

impl<V: Drop> Tile<V> {
    /// Puts a value in the place of what stands, and gives that.
    fn replace_value(&mut self, bit: u32, value: V) -> Option<V>
        requires { bit < 64 }
        ensures value { result ≡ slice_index_or self.old bit None }
        ensures put { IsChanged slot self.old self.new bit
            (option_map (λ _. value) (slice_index_or self.old bit None)) }
    {
        if (self.bits >> bit) & 1 == 0 {
            return None;
        }
        let place = place_of(self.bits, self.values.len(), bit);
        Some(mem::replace(&mut self.values[place], value))
    }
}

impl<V: Drop> Places<V> for Tile<V> {
    ghost use Rattle.std.specs.Prelude.{slice_index_or, None};

    ghost size = { 64 };

    ghost at = { λ s p. slice_index_or s p None };

    fn vacant(alloc: Global) -> Tile<V> {
        Tile::new(alloc)
    }

    fn is_vacant(&self) -> bool {
        self.has_nothing()
    }

    #[inline(always)]
    fn get(&self, place: u64) -> Option<&V> {
        self.value(place as u32)
    }

    #[inline(always)]
    fn put_new(&mut self, place: u64, value: V, _alloc: Global) -> Result<bool, AllocError> {
        if self.value(place as u32).is_some() {
            return Ok(false);
        }
        self.widen()?;
        self.put_value(place as u32, value)?;
        Ok(true)
    }

    fn replace(&mut self, place: u64, value: V) -> Option<V> {
        self.replace_value(place as u32, value)
    }

    fn remove(&mut self, place: u64, _alloc: Global) -> Option<V> {
        self.remove_value(place as u32)
    }
}

/// Takes room for 16 values where there are four, so that they move once.
fn room_for_column<V>(values: &mut Vec<V>) -> Result<(), AllocError>
    ensures { values.new.items ≡ values.old.items }
{
    if values.len() == 4 {
        values.reserve(12)?;
    }
    Ok(())
}

/// Puts a value in at a place, and moves those behind it. If memory runs out, all is as before.
#[inline(always)]
fn insert_value<V>(values: &mut Vec<V>, place: usize, value: V) -> Result<(), AllocFailed<V>>
    requires { place ≤ length values.old.items }
    ensures { values.new.items
        ≡ (if is_ok result then insert values.old.items place value else values.old.items) }
{
    if place == values.len() {
        values.push(value)
    } else {
        values.insert(place, value)
    }
}

/// How many ones stand below a bit, of so many in all. Where none stands behind it, as in a tile that is filled in
/// order, they aren't counted.
fn place_of(bits: u64, count: usize, bit: u32) -> usize
    requires within { bit < 64 }
    requires count { count ≡ count_ones bits }
    ensures { result ≡ rank bits bit }
{
    match bits >> bit {
        0 => count,
        1 => count - 1,
        _ => rank(bits, bit),
    }
}

/// As `rank`, for a bit below which often none stands: then they aren't counted.
#[inline(always)]
fn rank_of_first(bits: u64, bit: u32) -> usize
    requires { bit < 64 }
    ensures { result ≡ rank bits bit }
{
    let ones = ones_below(bits, bit);
    if ones == 0 {
        return 0;
    }
    ones.count_ones() as usize
}

/// The ones below a bit.
fn ones_below(bits: u64, bit: u32) -> u64
    requires { bit < 64 }
    ensures { count_ones result ≡ rank bits bit }
{
    bits & ((1 << bit) - 1)
}

/// How many ones stand below a bit.
fn rank(bits: u64, bit: u32) -> usize
    requires { bit < 64 }
    ensures { result ≡ rank bits bit }
{
    ones_below(bits, bit).count_ones() as usize
}
