//! Values that outlive a call.

ghost use Rattle.std.specs.Prelude.{◌≡◌, ◌<◌, ◌≤◌, [], nat_le, length, Some, None, IfOk, OnOk, OnErr};
ghost use Rattle.std.specs.Map.{keys_of};
ghost use Rattle.std.specs.Option.{option_copied};
ghost use Rattle.wi_cache.specs.Entries.{HasOneEach, HasSpace, PutsIn, PutsForGoing, PutsForOne, going, has_long_texts, kept, keys_after, len_after, place_after, value_for};

use crate::key::Key;
use crate::texts::{earlier_len, gone_len, text_len};
use indexmap::IndexMap;
use std::alloc::{AllocError, Global};
use std::marker::Model;
use wi_values::Value;

/// How many bytes of text there may be for each value that may be kept.
const TEXT_FOR_EACH: usize = 1_024;

/// Values by keys, of which there are at most so many as the capacity. Where one has to go, it is the entry that was
/// kept longest ago, however often it was looked at since: a look leaves the order as it is.
#[derive(Drop)]
pub struct Kept {
    // A new entry goes last, and where the list is full into the place of the oldest.
    entries: IndexMap<Key, Value>,
    // Where the entry stands that was kept longest ago. Those behind it came after it, and then those before it.
    oldest: usize,
    capacity: usize,
    // How many bytes of text the values have.
    texts: usize,
}

impl Model for Kept {
    ghost use Rattle.std.specs.Prelude.{◌≡◌};
    ghost use Rattle.wi_cache.specs.Entries.{KeptValues, IsLine, kept, kept_code, latest, texts_len};
    ghost use Rattle.wi_cache.specs.contracts.key.Key as key;
    ghost use Rattle.wi_values.specs.contracts.value.Value as value;

    ghost Value = { KeptValues };

    ghost coded = { kept_code key.the_row.coded value.the_row.coded };

    ghost view = { λ k. kept (latest k.oldest k.entries.entries) k.capacity };

    ghost invariant = { λ k. IsLine k.entries.entries k.oldest k.capacity
        × (k.texts ≡ texts_len k.entries.entries) };
}

impl Kept {
    /// No values, and room for as many as the capacity says. Memory for them is taken as they come.
    pub fn new(alloc: Global, capacity: usize) -> Result<Kept, AllocError>
        requires { 1 ≤ capacity }
        ensures { IfOk result (λ k. k ≡ kept [] capacity) }
    {
        Ok(Kept {
            entries: IndexMap::new(alloc),
            oldest: 0,
            capacity,
            texts: 0,
        })
    }

    /// The value that is kept for a key. Expected constant time, beside the hash of the key.
    pub fn look(&self, key: &Key) -> Option<&Value>
        ensures { option_copied result ≡ value_for self.now.entries key.now }
    {
        self.entries.get(key)
    }

    /// Whether a value for a new key takes the place of another.
    pub fn is_full(&self) -> bool
        ensures { result ≡ nat_le self.now.capacity (length self.now.entries) }
    {
        self.capacity <= self.entries.len()
    }

    /// Whether the values have as many KiB of text as there may be values.
    pub fn has_long_texts(&self) -> bool
        ensures { result ≡ has_long_texts self.now }
    {
        self.capacity <= self.texts / TEXT_FOR_EACH
    }

    /// Keeps a value for a key, in the place of an earlier one, and gives the entry that goes for it. A new key that
    /// comes to a full list takes the place of the one that was kept longest ago. If memory runs out, all stays as it
    /// was. Expected constant time over many calls, beside the hash of the key.
    #[inline(always)]
    pub fn keep(&mut self, key: Key, value: Value) -> Result<Option<(Key, Value)>, AllocError>
        ensures found { OnOk result (value_for self.new.entries key ≡ Some value) }
        ensures stays { OnOk result (HasSpace self.old key
            → PutsIn self.old.entries self.new.entries key value) }
        ensures one_goes { OnOk result (value_for self.old.entries key ≡ None
            → self.old.capacity ≤ length self.old.entries
            → PutsForOne self.old.entries self.new.entries key value) }
        ensures going { OnOk result (PutsForGoing self.old self.new key value) }
        ensures gone { IfOk result (λ entry. entry ≡ going self.old key) }
        ensures order { OnOk result (keys_of self.new.entries ≡ keys_after self.old key) }
        ensures len { OnOk result (length self.new.entries ≡ len_after self.old key) }
        ensures capacity { self.new.capacity ≡ self.old.capacity }
        ensures err { OnErr result (self.new ≡ self.old) }
    {
        let Some(texts) = self.texts.checked_add(text_len(&value)) else {
            return Err(AllocError);
        };
        let earlier = self.entries.insert(key, value)?;
        self.texts = texts - earlier_len(earlier);
        if self.entries.len() > self.capacity {
            let gone = self.entries.swap_remove_index(self.oldest);
            self.texts -= gone_len(&gone);
            self.oldest = place_after(self.oldest, self.capacity);
            return Ok(gone);
        }
        Ok(None)
    }

    /// Takes the values away, and gives their memory back, and that of the list. Takes none.
    pub fn forget(&mut self, alloc: Global)
        ensures { self.new ≡ kept [] self.old.capacity }
    {
        self.entries = IndexMap::new(alloc);
        self.oldest = 0;
        self.texts = 0;
    }

    /// How many values are kept.
    pub fn len(&self) -> usize
        ensures len { result ≡ length self.now.entries }
        ensures within { length self.now.entries ≤ self.now.capacity }
        ensures one_each { HasOneEach self.now.entries }
    {
        self.entries.len()
    }
}

/// The place behind another of so many, and behind the last of them the first.
fn place_after(place: usize, count: usize) -> usize
    requires { place < count }
    ensures { result ≡ place_after place count }
{
    if place + 1 < count { place + 1 } else { 0 }
}
