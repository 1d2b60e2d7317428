//! A page of bands of tiles, with the columns in which it may have something.

ghost use Rattle.std.specs.Prelude.{◌≡◌, ◌<◌, ◌≤◌, ℕ, None, IsTrue, option_copied};
ghost use Rattle.std.specs.Int.{bit_at};
ghost use Rattle.wi_tiles.specs.Inner.Lines.{slot};
ghost use Rattle.wi_tiles.specs.Inner.Columns.{column_bit};
ghost use Rattle.wi_tiles.specs.Inner.Parts.{part_from, at_window, span};
ghost use Rattle.wi_tiles.specs.Inner.Sorted.{at_sorted};

use crate::places::Places;
use crate::sorted::Band;
use crate::window::Window;
use std::alloc::{AllocError, Global};
use std::marker::Model;

/// Bands of 16 rows, 256 of which are a page, from the first that has something to the last, and a bit for each column,
/// by its remainder, in which a tile may have something. It is seen as its bands.
#[derive(Drop)]
pub(crate) struct Page<V> {
    bands: Window<Band<V>>,
    columns: u64,
}

impl<V> Model for Page<V> {
    ghost use Rattle.wi_tiles.specs.Inner.Cells.{Page};

    ghost Value = { Page V };

    ghost view = { λ p. p.bands };

    ghost use Rattle.wi_tiles.specs.Inner.Columns.{HasColumns};
    ghost use Rattle.wi_tiles.specs.Inner.Lines.{slot};
    ghost use Rattle.wi_tiles.specs.Inner.Parts.{IsTrimmed};
    ghost use Rattle.wi_tiles.specs.Inner.Sorted.{at_sorted};

    ghost invariant = { λ p. HasColumns p.bands p.columns × IsTrimmed (at_sorted slot) p.bands.1 };
}

impl<V> Page<V> {
    /// The band at an index.
    pub(crate) fn band(&self, index: usize) -> Option<&Band<V>>
        ensures { option_copied result ≡ part_from self.now index }
    {
        self.bands.part(index)
    }

    /// The index behind those, from one without a band on, that have none because it has none.
    pub(crate) fn past_gap(&self, index: usize) -> usize
        requires within { index < span }
        requires bare { part_from self.now index ≡ None }
        ensures later { index < result }
        ensures within { result ≤ span }
        ensures gap { (i : ℕ) → index ≤ i → i < result → part_from self.now i ≡ None }
    {
        self.bands.past_gap(index)
    }

    /// Whether it has nothing in any of these columns, by their remainders; it may not know.
    pub(crate) fn lacks(&self, columns: u64) -> bool
        ensures { IsTrue result → (p : ℕ) → bit_at columns (column_bit p) ≡ 1
            → at_window (at_sorted slot) self.now p ≡ None }
    {
        self.columns & columns == 0
    }
}

impl<V: Drop> Places<V> for Page<V> {
    ghost use Rattle.std.specs.Prelude.{◌*◌};
    ghost use Rattle.wi_tiles.specs.Inner.Lines.{slot};
    ghost use Rattle.wi_tiles.specs.Inner.Parts.{at_window, span};
    ghost use Rattle.wi_tiles.specs.Inner.Sorted.{at_sorted, groups};

    ghost size = { span * (groups * 64) };

    ghost at = { λ w p. at_window (at_sorted slot) w p };

    fn vacant(alloc: Global) -> Page<V> {
        Page {
            bands: Window::new(alloc),
            columns: 0,
        }
    }

    fn is_vacant(&self) -> bool {
        self.bands.is_empty()
    }

    #[inline(always)]
    fn get(&self, path: u64) -> Option<&V> {
        self.bands.get(path)
    }

    #[inline(always)]
    fn put_new(&mut self, path: u64, value: V, alloc: Global) -> Result<bool, AllocError> {
        let new = self.bands.put_new(path, value, alloc)?;
        self.columns |= 1 << column_bit(path);
        Ok(new)
    }

    fn replace(&mut self, path: u64, value: V) -> Option<V> {
        self.bands.replace(path, value)
    }

    fn remove(&mut self, path: u64, alloc: Global) -> Option<V> {
        self.bands.remove(path, alloc)
    }
}

/// The bit of the column of a path.
fn column_bit(path: u64) -> u32
    ensures value { result ≡ column_bit path }
    ensures within { result < 64 }
{
    (path / 256 % 16 * 4 + path / 1_048_576 % 4) as u32
}
