//! Values that were kept, and went in one call.

ghost use Rattle.std.specs.Prelude.{◌≡◌, ◌<◌, ◌≤◌, ◌+◌, ◌==◌, [], OnOk};
ghost use Rattle.std.specs.HashMap.{spare};
ghost use Rattle.std.specs.Int.{bit_at};
ghost use Rattle.std.specs.Option.{option_copied};
ghost use Rattle.indexmap.specs.IndexMap.{insert_entry};
ghost use Rattle.wi_cache.specs.Entries.{PutsIn, all_put, same_key, value_for, world_bit};

use crate::key::Key;
use indexmap::IndexMap;
use std::alloc::{AllocError, Global};
use std::marker::Model;
use wi_values::Value;
use wi_worlds::World;

/// For how many values the memory may be to be used again. It is then at most some 100 KB for the list, and 200 KB for
/// the table.
const MAX_REUSED: usize = 1_024;

/// How many values are looked at one by one, since that is less work than to move them into the table.
const FEW: usize = 8;

/// Values by keys, with room that is made before one goes. Most that go are never asked for, since they stand under
/// replacements of earlier calls: so each goes into a list, and only where some may be asked for are they moved into a
/// table.
#[derive(Drop)]
pub struct GivenUp {
    table: IndexMap<Key, Value>,
    // Those that went since the others were moved, in the order in which they went. For a key the last counts, and then
    // the table.
    list: Vec<(Key, Value)>,
    // A bit for the replacements of each key here, chosen by their hash.
    worlds: u64,
}

impl Model for GivenUp {
    ghost use Rattle.std.specs.Prelude.{◌-◌};
    ghost use Rattle.std.specs.Vec.{vec_capacity, vec_len};
    ghost use Rattle.wi_cache.specs.Entries.{HasBits, WithSpace, all_put, with_space, with_space_code};
    ghost use Rattle.wi_cache.specs.contracts.key.Key as key;
    ghost use Rattle.wi_values.specs.contracts.value.Value as value;

    ghost Value = { WithSpace };

    ghost coded = { with_space_code key.the_row.coded value.the_row.coded };

    ghost view = { λ g. with_space (all_put g.table.entries g.list.items)
        (vec_capacity g.list - vec_len g.list) };

    ghost invariant = { λ g. HasBits (all_put g.table.entries g.list.items) g.worlds };
}

impl GivenUp {
    /// No values. Takes no memory.
    pub fn new(alloc: Global) -> GivenUp
        ensures { result.entries ≡ [] }
    {
        GivenUp {
            table: IndexMap::new(alloc),
            list: Vec::new(alloc),
            worlds: 0,
        }
    }

    /// The value that is there for a key. It is one test of a bit where no replacements of those that went have the bit
    /// of the key's, as is mostly so where none are the same. Else it is expected constant time, beside the hash of the
    /// key and a comparison with each that went since some were moved: with the last eight at most where `catch_up` was
    /// called for the key since the last went.
    #[inline(always)]
    pub fn look(&self, key: &Key) -> Option<&Value>
        ensures { option_copied result ≡ value_for self.now.entries key.now }
    {
        if has_bit(self.worlds, world_bit(&key.world)) {
            return look_among(&self.table, self.list.as_slice(), key);
        }
        None
    }

    /// Prepares a look for a key: if some that went may have its replacements, they are more than a few, and none of
    /// the last few is of the key, all are moved into the table. Each is moved at most once, in expected constant time,
    /// beside the hash of its key. If memory runs out, all is as before.
    #[inline(always)]
    pub fn catch_up(&mut self, key: &Key) -> Result<(), AllocError>
        ensures { self.new.entries ≡ self.old.entries }
    {
        if are_asked_for(self.list.as_slice(), self.worlds, key) {
            return move_all(&mut self.table, &mut self.list);
        }
        Ok(())
    }

    /// Makes room for one more. If memory runs out, all is as before.
    #[inline(always)]
    pub fn make_space(&mut self) -> Result<(), AllocError>
        ensures entries { self.new.entries ≡ self.old.entries }
        ensures space { OnOk result (1 ≤ self.new.space) }
    {
        self.list.reserve(1)
    }

    /// Puts a value in for its key, in the place of an earlier one. Takes no memory. Constant time.
    #[inline(always)]
    pub fn put(&mut self, gone: (Key, Value))
        requires { 1 ≤ self.old.space }
        ensures { PutsIn self.old.entries self.new.entries gone.0 gone.1 }
    {
        self.worlds |= 1 << world_bit(&gone.0.world);
        self.list.push_reserved(gone);
    }

    /// Takes the values away. The memory for them is used again, unless it was for many. The work grows with their
    /// count.
    pub fn clear(&mut self, alloc: Global)
        ensures { self.new.entries ≡ [] }
    {
        let are_few = self.table.len().max(self.list.capacity()) <= MAX_REUSED;
        self.worlds = 0;
        clear_table(alloc, are_few, &mut self.table);
        clear_list(alloc, are_few, &mut self.list);
    }
}

/// Which of 64 bits stands for replacements.
fn world_bit(world: &World) -> u32
    ensures value { result ≡ world_bit world.now }
    ensures within { result < 64 }
{
    (world.digest() % 64) as u32
}

/// Whether a bit is set.
fn has_bit(bits: u64, bit: u32) -> bool
    requires { bit < 64 }
    ensures { result ≡ (bit_at bits bit == 1) }
{
    (bits >> bit) & 1 == 1
}

/// Whether more than a few went, with these bits, some may have a key's replacements, and none of the last few is of
/// the key.
fn are_asked_for(list: &[(Key, Value)], worlds: u64, key: &Key) -> bool {
    FEW < list.len() && has_bit(worlds, world_bit(&key.world)) && !is_among_last(list, key)
}

/// Whether one of the last few is of a key.
#[inline(never)]
fn is_among_last(list: &[(Key, Value)], key: &Key) -> bool {
    for i in (list.len().saturating_sub(FEW)..list.len()).rev() {
        if is_of(&list[i], key) {
            return true;
        }
    }
    false
}

/// Whether an entry is of a key.
fn is_of(entry: &(Key, Value), key: &Key) -> bool
    ensures { result ≡ same_key entry.now.0 key.now }
{
    entry.0 == *key
}

/// The value of the last in the list that is of a key, or else the one in the table.
#[inline(never)]
fn look_among<'a>(
    table: &'a IndexMap<Key, Value>,
    list: &'a [(Key, Value)],
    key: &Key,
) -> Option<&'a Value>
    ensures { option_copied result ≡ value_for (all_put table.now.entries list.now) key.now }
{
    for i in (0..list.len()).rev() {
        let entry = &list[i];
        if is_of(entry, key) {
            return Some(&entry.1);
        }
    }
    look_up(table, key)
}

/// The value in the table for a key, whose hash isn't taken where the table is empty.
fn look_up<'a>(table: &'a IndexMap<Key, Value>, key: &Key) -> Option<&'a Value>
    ensures { option_copied result ≡ value_for table.now.entries key.now }
{
    if table.is_empty() {
        return None;
    }
    table.get(key)
}

/// Moves what is in the list into the table, the first first. If memory runs out, all is as before.
#[inline(never)]
fn move_all(
    table: &mut IndexMap<Key, Value>,
    list: &mut Vec<(Key, Value)>,
) -> Result<(), AllocError>
    ensures { all_put table.new.entries list.new.items
        ≡ all_put table.old.entries list.old.items }
{
    table.reserve(list.len())?;
    list.reverse();
    'moved: while let Some(entry) = list.pop() {
        put_value(table, entry.0, entry.1);
    }
    Ok(())
}

/// Puts a value into the table for a key, in the place of an earlier one. Takes no memory. Expected constant time,
/// beside the hash of the key.
fn put_value(table: &mut IndexMap<Key, Value>, key: Key, value: Value)
    requires { 1 ≤ spare table.old }
    ensures entries { table.new.entries ≡ insert_entry same_key table.old.entries key value }
    ensures space { spare table.old ≤ spare table.new + 1 }
{
    match table.insert(key, value) {
        Ok(_) => {}
        Err(_) => unreachable!(),
    }
}

/// Takes away what is in the table, and the memory for it unless that is used again.
fn clear_table(alloc: Global, is_reused: bool, table: &mut IndexMap<Key, Value>)
    ensures { table.new.entries ≡ [] }
{
    if !is_reused {
        *table = IndexMap::new(alloc);
    } else if !table.is_empty() {
        table.clear();
    }
}

/// Takes away what is in the list, and the memory for it unless that is used again.
fn clear_list(alloc: Global, is_reused: bool, list: &mut Vec<(Key, Value)>)
    ensures { list.new.items ≡ [] }
{
    if is_reused {
        list.clear();
    } else {
        *list = Vec::new(alloc);
    }
}
