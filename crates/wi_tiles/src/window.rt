//! Parts by their index, from a first one on.

ghost use Rattle.std.specs.Prelude.{◌≡◌, ◌↔◌, ◌<◌, ◌≤◌, ◌+◌, ◌-◌, ◌*◌, ◌++◌, ◌∷◌, [], ℕ, List, length, drop, false, Some, None, is_some, not, slice_get, IfSome, IfNone, IsTrue, IfOk, OnOk, OnErr, option_copied, option_map};
ghost use Rattle.std.specs.Option.{option_or};
ghost use Rattle.wi_tiles.specs.Inner.Changes.{IsKept, IsChanged};
ghost use Rattle.wi_tiles.specs.Inner.Parts.{at_part, part_from, at_window, span, Fits, HasSome, EndsFilled, IsTrimmed};

use crate::places::{Places, room_for_first};
use std::alloc::{AllocError, Global};
use std::marker::Model;

/// How many parts there may be.
const SPAN: u64 = 256;

/// Parts found by the first digit of a path. There are none before the first, and none behind the last, so that a lone
/// part costs the same wherever it stands. What has a window keeps it trimmed: its first part and its last have
/// something.
#[derive(Drop)]
pub(crate) struct Window<T> {
    first: usize,
    parts: Vec<T>,
}

impl<T> Model for Window<T> {
    ghost use Rattle.std.specs.Prelude.{ℕ, List};
    ghost use Rattle.wi_tiles.specs.Inner.Parts.{Fits};

    ghost Value = { ℕ × List T };

    ghost view = { λ w. (w.first, w.parts.items) };

    ghost invariant = { λ w. Fits w.first w.parts.items };
}

impl<T> Window<T> {
    /// No parts. Takes no memory.
    pub(crate) fn new(alloc: Global) -> Window<T>
        ensures { result.1 ≡ [] }
    {
        Window {
            first: 0,
            parts: Vec::new(alloc),
        }
    }

    /// Whether there are no parts.
    pub(crate) fn is_empty(&self) -> bool
        ensures none { IsTrue result ↔ (self.now.1 ≡ []) }
        ensures bound { Fits self.now.0 self.now.1 }
    {
        self.parts.is_empty()
    }

    /// The part at an index.
    #[inline(always)]
    pub(crate) fn part(&self, index: usize) -> Option<&T>
        ensures { option_copied result ≡ part_from self.now index }
    {
        match place_in(self.first, &self.parts, index) {
            Some(place) => Some(&self.parts[place]),
            None => None,
        }
    }

    /// What a path has.
    #[inline(always)]
    pub(crate) fn get<V>(&self, path: u64) -> Option<&V>
    where
        T: Places<V>,
        requires { path < span * T.size }
        ensures { option_copied result ≡ at_window T.at self.now path }
    {
        match self.part((path % SPAN) as usize) {
            Some(part) => part.get(path / SPAN),
            None => None,
        }
    }

    /// An index up to which none has a part, where this one has none; it is found without a search.
    pub(crate) fn past_gap(&self, index: usize) -> usize
        requires within { index < span }
        requires bare { part_from self.now index ≡ None }
        ensures later { index < result }
        ensures within { result ≤ span }
        ensures gap { (i : ℕ) → index ≤ i → i < result → part_from self.now i ≡ None }
    {
        if index < self.first { self.first } else { 256 }
    }
}

impl<T: Drop> Window<T> {
    /// Takes all parts away, and keeps the room for them.
    pub(crate) fn clear(&mut self)
        ensures { self.new.1 ≡ [] }
    {
        self.parts.clear();
    }

    /// Puts a value where nothing stands, and answers whether nothing stood. If memory runs out, each path has what it
    /// had.
    pub(crate) fn put_new<V: Drop>(
        &mut self,
        path: u64,
        value: V,
        alloc: Global,
    ) -> Result<bool, AllocError>
    where
        T: Places<V>,
        requires { path < span * T.size }
        ensures new { IfOk result (λ new. new ≡ not (is_some (at_window T.at self.old path))) }
        ensures ok { OnOk result (IsChanged (at_window T.at) self.old self.new path
            (option_or (at_window T.at self.old path) (Some value))) }
        ensures err { OnErr result (IsKept (at_window T.at) self.old self.new) }
        ensures trimmed { IsTrimmed T.at self.old.1 → IsTrimmed T.at self.new.1 }
    {
        match place_in(self.first, &self.parts, (path % SPAN) as usize) {
            Some(place) => self.parts[place].put_new(path / SPAN, value, alloc),
            None => {
                let outcome = put_part(&mut self.first, &mut self.parts, path, value, alloc);
                trim(&mut self.first, &mut self.parts);
                outcome
            }
        }
    }

    /// Puts a value in the place of what stands, and gives that; where nothing stands it does nothing. Takes no memory.
    pub(crate) fn replace<V: Drop>(&mut self, path: u64, value: V) -> Option<V>
    where
        T: Places<V>,
        requires { path < span * T.size }
        ensures value { result ≡ at_window T.at self.old path }
        ensures put { IsChanged (at_window T.at) self.old self.new path
            (option_map (λ _. value) (at_window T.at self.old path)) }
        ensures trimmed { IsTrimmed T.at self.old.1 → IsTrimmed T.at self.new.1 }
    {
        match place_in(self.first, &self.parts, (path % SPAN) as usize) {
            Some(place) => self.parts[place].replace(path / SPAN, value),
            None => None,
        }
    }

    /// Takes away what a path has. Takes no memory.
    pub(crate) fn remove<V>(&mut self, path: u64, alloc: Global) -> Option<V>
    where
        T: Places<V>,
        requires { path < span * T.size }
        ensures value { result ≡ at_window T.at self.old path }
        ensures left { IsChanged (at_window T.at) self.old self.new path None }
        ensures trimmed { IsTrimmed T.at self.old.1 → IsTrimmed T.at self.new.1 }
    {
        match place_in(self.first, &self.parts, (path % SPAN) as usize) {
            Some(place) => {
                let value = self.parts[place].remove(path / SPAN, alloc);
                drop_vacant(&mut self.first, &mut self.parts, place, alloc);
                value
            }
            None => None,
        }
    }
}

/// Where the part with an index stands.
fn place_in<T>(first: usize, parts: &[T], index: usize) -> Option<usize>
    ensures some { IfSome result (λ i. (i < length parts.now)
        × (first ≤ index) × (i ≡ index - first)) }
    ensures none { IfNone result (part_from (first, parts.now) index ≡ None) }
{
    if index < first {
        return None;
    }
    let place = index - first;
    if parts.len() <= place {
        return None;
    }
    Some(place)
}

/// Puts a value where its part may not stand yet. If memory runs out, each path has what it had.
#[inline(never)]
fn put_part<V: Drop, T: Places<V> + Drop>(
    first: &mut usize,
    parts: &mut Vec<T>,
    path: u64,
    value: V,
    alloc: Global,
) -> Result<bool, AllocError>
    requires path { path < span * T.size }
    requires bound { Fits first.old parts.old.items }
    ensures bound { Fits first.new parts.new.items }
    ensures new { IfOk result (λ new. new
        ≡ not (is_some (at_window T.at (first.old, parts.old.items) path))) }
    ensures ok { OnOk result (IsChanged (at_window T.at) (first.old, parts.old.items)
        (first.new, parts.new.items) path
        (option_or (at_window T.at (first.old, parts.old.items) path) (Some value))) }
    ensures err { OnErr result (IsKept (at_window T.at) (first.old, parts.old.items)
        (first.new, parts.new.items)) }
{
    let index = (path % SPAN) as usize;
    reach_down(first, parts, index, alloc)?;
    let place = index - *first;
    reach_up(*first, parts, place, alloc)?;
    parts[place].put_new(path / SPAN, value, alloc)
}

/// Sees to it that the first part is not after an index. If memory runs out, each place has what it had.
fn reach_down<V, T: Places<V> + Drop>(
    first: &mut usize,
    parts: &mut Vec<T>,
    index: usize,
    alloc: Global,
) -> Result<(), AllocError>
    ensures reached { OnOk result (first.new ≤ index) }
    ensures bound { index < span → Fits first.old parts.old.items → Fits first.new parts.new.items }
    ensures kept { IsKept (at_window T.at) (first.old, parts.old.items)
        (first.new, parts.new.items) }
{
    if parts.is_empty() {
        *first = index;
        return Ok(());
    }
    if index < *first {
        put_before(*first, index, parts, alloc)?;
        *first = index;
    }
    Ok(())
}

/// Puts parts with nothing before the first, from an index on. All move once. If memory runs out, all is as before.
#[inline(never)]
fn put_before<V, T: Places<V> + Drop>(
    first: usize,
    index: usize,
    parts: &mut Vec<T>,
    alloc: Global,
) -> Result<(), AllocError>
    requires { index < first }
    ensures reach { OnOk result (index + length parts.new.items ≡ first + length parts.old.items) }
    ensures ok { OnOk result (IsKept (at_window T.at) (first, parts.old.items)
        (index, parts.new.items)) }
    ensures err { OnErr result (parts.new.items ≡ parts.old.items) }
{
    let mut all = vacant_from(index, first - index, parts.len(), alloc)?;
    all.append(parts)?;
    *parts = all;
    Ok(())
}

/// So many parts with nothing, from an index on, and room for more.
fn vacant_from<V, T: Places<V> + Drop>(
    index: usize,
    count: usize,
    more: usize,
    alloc: Global,
) -> Result<Vec<T>, AllocError>
    ensures count { IfOk result (λ made. length made.items ≡ count) }
    ensures vacant { IfOk result (λ made. (p : ℕ) → at_window T.at (index, made.items) p ≡ None) }
{
    let mut made = Vec::with_capacity(alloc, count.saturating_add(more))?;
    'more: while made.len() < count {
        push_vacant(index, &mut made, alloc)?;
    }
    Ok(made)
}

/// Sees to it that a part stands. If memory runs out, each place has what it had.
fn reach_up<V, T: Places<V> + Drop>(
    first: usize,
    parts: &mut Vec<T>,
    place: usize,
    alloc: Global,
) -> Result<(), AllocError>
    requires { place < span }
    ensures within { OnOk result (place < length parts.new.items) }
    ensures bound { first + place < span → Fits first parts.old.items → Fits first parts.new.items }
    ensures kept { IsKept (at_window T.at) (first, parts.old.items) (first, parts.new.items) }
{
    if parts.len() <= place {
        return lengthen(first, parts, place, alloc);
    }
    Ok(())
}

/// Puts parts with nothing behind the last, until a part stands. Room for all is taken at once. If memory runs out,
/// each place has what it had.
#[inline(never)]
fn lengthen<V, T: Places<V> + Drop>(
    first: usize,
    parts: &mut Vec<T>,
    place: usize,
    alloc: Global,
) -> Result<(), AllocError>
    requires { place < span }
    ensures within { OnOk result (place < length parts.new.items) }
    ensures bound { first + place < span → Fits first parts.old.items → Fits first parts.new.items }
    ensures kept { IsKept (at_window T.at) (first, parts.old.items) (first, parts.new.items) }
{
    room_for_first(parts)?;
    parts.reserve((place + 1).saturating_sub(parts.len()))?;
    'up: while parts.len() <= place {
        push_vacant(first, parts, alloc)?;
    }
    Ok(())
}

/// A part with nothing behind the last. If memory runs out, all is as before.
fn push_vacant<V, T: Places<V> + Drop>(
    first: usize,
    parts: &mut Vec<T>,
    alloc: Global,
) -> Result<(), AllocError>
    ensures longer { OnOk result (length parts.new.items ≡ length parts.old.items + 1) }
    ensures most { length parts.new.items ≤ length parts.old.items + 1 }
    ensures kept { IsKept (at_window T.at) (first, parts.old.items) (first, parts.new.items) }
{
    parts.push(T::vacant(alloc))?;
    Ok(())
}

/// Gives back the memory of a part that has nothing, and of those at the ends that have nothing.
fn drop_vacant<V, T: Places<V> + Drop>(
    first: &mut usize,
    parts: &mut Vec<T>,
    place: usize,
    alloc: Global,
)
    requires within { place < length parts.old.items }
    requires bound { Fits first.old parts.old.items }
    ensures bound { Fits first.new parts.new.items }
    ensures trimmed { (HasSome T.at (slice_get parts.old.items place)
        → IsTrimmed T.at parts.old.items) → IsTrimmed T.at parts.new.items }
    ensures kept { IsKept (at_window T.at) (first.old, parts.old.items)
        (first.new, parts.new.items) }
{
    if parts[place].is_vacant() {
        parts[place] = T::vacant(alloc);
        trim(first, parts);
    }
}

/// Takes away the parts at both ends that have nothing.
fn trim<V, T: Places<V> + Drop>(first: &mut usize, parts: &mut Vec<T>)
    requires { Fits first.old parts.old.items }
    ensures bound { Fits first.new parts.new.items }
    ensures trimmed { IsTrimmed T.at parts.new.items }
    ensures kept { IsKept (at_window T.at) (first.old, parts.old.items)
        (first.new, parts.new.items) }
{
    trim_end(*first, parts);
    let count = vacant_before(parts);
    drop_before(parts, count);
    *first += count;
}

/// Takes away the parts behind the last that has something.
fn trim_end<V, T: Places<V> + Drop>(first: usize, parts: &mut Vec<T>)
    ensures most { length parts.new.items ≤ length parts.old.items }
    ensures filled { EndsFilled T.at parts.new.items }
    ensures kept { IsKept (at_window T.at) (first, parts.old.items) (first, parts.new.items) }
{
    while ends_vacant(parts) {
        let _ = parts.pop();
    }
}

/// Whether the last part has nothing.
fn ends_vacant<V, T: Places<V>>(parts: &[T]) -> bool
    ensures some { IsTrue result → 0 < length parts.now }
    ensures vacant { IsTrue result → (xs : List T) (x : T) → parts.now ≡ xs ++ x ∷ []
        → (p : ℕ) → T.at x p ≡ None }
    ensures filled { result ≡ false → EndsFilled T.at parts.now }
{
    let len = parts.len();
    if len == 0 {
        return false;
    }
    let last = len - 1;
    let part = &parts[last];
    part.is_vacant()
}

/// How many parts stand before the first that has something.
fn vacant_before<V, T: Places<V>>(parts: &[T]) -> usize
    ensures within { result ≤ length parts.now }
    ensures vacant { (i p : ℕ) → i < result → at_part T.at (slice_get parts.now i) p ≡ None }
    ensures filled { result < length parts.now → HasSome T.at (slice_get parts.now result) }
{
    let mut place = 0;
    while place < parts.len() {
        let part = &parts[place];
        if !part.is_vacant() {
            return place;
        }
        place += 1;
    }
    place
}

/// Takes away the parts before a place. The others move once.
fn drop_before<T: Drop>(parts: &mut Vec<T>, place: usize)
    requires { place ≤ length parts.old.items }
    ensures { parts.new.items ≡ drop place parts.old.items }
{
    parts.drain(..place);
}
